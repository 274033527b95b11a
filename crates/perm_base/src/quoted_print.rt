ghost use Rattle.std.specs.Prelude.{◌≡◌, ◌<◌, ◌≤◌, ◌++◌, ◌∷◌, ℕ, List, IfOk, IsUtf8, Ok, OnErr, OnOk, length, string_bytes, true};
ghost use Rattle.text_parts.specs.Blanks.{is_blank};
ghost use Rattle.perm_base.specs.Fields.{IsBehind};
ghost use Rattle.perm_base.specs.LineEnds.{AreFields};
ghost use Rattle.perm_base.specs.FieldLine.{IsFields, doubled, has_odd_ends, needs_quotes, printed, printed_field};

use crate::marks::has_mark;
use crate::rule::Rule;
use outside::{NoMemory, Text};
use std::alloc::Global;
use text_parts::{cut_at, is_blank};

/// Prints the fields of a rule, joined by a comma and a blank. A field that is empty, begins or ends with a space or
/// a tab, begins with `#`, or holds a comma or a double quote is quoted, and a quote in it is doubled.
pub fn print_fields(alloc: Global, rule: &Rule) -> Result<Text, NoMemory>
    ensures { IfOk result (λ text. text ≡ printed rule.now) }
{
    let mut text = String::new(alloc);
    push_fields(&mut text, rule)?;
    Ok(Text::from_string(text))
}

/// Appends the fields of a rule as `print_fields` prints them. Where memory runs out, a part of them may stand behind what the
/// text held.
pub fn push_fields(text: &mut String, rule: &Rule) -> Result<(), NoMemory>
    ensures printed { OnOk result (string_bytes text.new
        ≡ string_bytes text.old ++ printed rule.now) }
    ensures kept { OnErr result (IsBehind (string_bytes text.old) (string_bytes text.new)) }
{
    for (at, field) in rule.fields().iter().enumerate() {
        if at > 0 {
            text.push_str(", ")?;
        }
        push_field(text, field.as_str())?;
    }
    Ok(())
}

/// Appends a name that needs no quotes and the fields of a rule, as `print_fields` prints them as fields of one line. Where
/// memory runs out, a part of them may stand behind what the text held.
pub fn push_named(text: &mut String, name: &str, rule: &Rule) -> Result<(), NoMemory>
    requires { printed_field name.now ≡ name.now }
    ensures line { OnOk result (string_bytes text.new
        ≡ string_bytes text.old ++ printed (name.now ∷ rule.now)) }
    ensures fields { OnOk result (AreFields rule.now) }
    ensures kept { OnErr result (IsBehind (string_bytes text.old) (string_bytes text.new)) }
{
    text.push_str(name)?;
    if rule.fields().is_empty() {
        return Ok(());
    }
    text.push_str(", ")?;
    push_fields(text, rule)?;
    Ok(())
}

/// The law that what is printed of a rule of 1 to 34 fields is these fields, so that `read_fields` gives them back.
pub fn printed_fields_are_read()
    ensures { (rule : List (List ℕ)) → AreFields rule → 0 < length rule → length rule ≤ 34
        → IsFields (printed rule) rule }
{}

// Appends a field as it is printed.
fn push_field(text: &mut String, field: &str) -> Result<(), NoMemory>
    ensures printed { OnOk result
        (string_bytes text.new ≡ string_bytes text.old ++ printed_field field.now) }
    ensures kept { OnErr result (IsBehind (string_bytes text.old) (string_bytes text.new)) }
{
    if !needs_quotes(field) {
        text.push_str(field)?;
        return Ok(());
    }
    push_quoted(text, field)
}

// Appends a field in double quotes. Few fields need them, and their code stays out of the loop over the others.
#[inline(never)]
fn push_quoted(text: &mut String, field: &str) -> Result<(), NoMemory>
    requires { needs_quotes field.now ≡ true }
    ensures printed { OnOk result
        (string_bytes text.new ≡ string_bytes text.old ++ printed_field field.now) }
    ensures kept { OnErr result (IsBehind (string_bytes text.old) (string_bytes text.new)) }
{
    text.push_str("\"")?;
    push_doubled(text, field)?;
    text.push_str("\"")?;
    Ok(())
}

// Appends a text with each double quote doubled.
fn push_doubled(text: &mut String, field: &str) -> Result<(), NoMemory>
    ensures doubled { OnOk result (string_bytes text.new
        ≡ string_bytes text.old ++ doubled field.now) }
    ensures kept { OnErr result (IsBehind (string_bytes text.old) (string_bytes text.new)) }
{
    let mut rest = field;
    while let Some((before, after)) = cut_at(rest, b'"') {
        text.push_str(before)?;
        text.push_str("\"\"")?;
        rest = after;
    }
    text.push_str(rest)?;
    Ok(())
}

// The field is quoted when it is printed.
fn needs_quotes(field: &str) -> bool
    ensures { result ≡ needs_quotes field.now }
{
    field.is_empty() || has_odd_ends(field) || has_mark(field)
}

// The field begins or ends with a blank, or begins with `#`.
fn has_odd_ends(field: &str) -> bool
    requires { 0 < length field.now }
    ensures { result ≡ has_odd_ends field.now }
{
    let bytes = field.as_bytes();
    bytes[0] == b'#' || is_blank(bytes[0]) || is_blank(bytes[bytes.len() - 1])
}
