ghost use Rattle.std.specs.Prelude.{◌≡◌, ◌++◌, IfOk, OnOk, flat_map, string_bytes};
ghost use Rattle.std.specs.List.{AllByRecursion};
ghost use Rattle.perm_base.specs.LineEnds.{AreFields};
ghost use Rattle.text_parts.specs.Lines.{with_ends};
ghost use Rattle.version_log.specs.EditText.{IsEditText, IsWhole, NameRules, change_items, item_lines, printed_edit};
ghost use Rattle.version_log.specs.declared.item.EditItem.TheVariants.{Signed};

use crate::item::Sign;
use outside::{NoMemory, Text};
use perm_base::{Rule, TableId, push_named};
use policy_table::{Change, Edit};
use std::alloc::Global;

/// Prints an edit: for each change a line `+ TABLE, f..` or `- TABLE, f..`, and for a replacement the two lines
/// `< TABLE, old..` and `> TABLE, new..`, with a table's name and a rule's fields as `print_fields` prints fields; a last
/// line `.`; an LF after each. A table without a name has no line. `read_edit` gives back an edit of tables with names and
/// of rules with 1 to 32 fields.
pub fn print_edit(alloc: Global, edit: &Edit) -> Result<Text, NoMemory>
    ensures printed { IfOk result (λ text. text ≡ printed_edit edit.now) }
    ensures read { NameRules edit.now → IfOk result (λ text. IsEditText text edit.now) }
{
    let mut text = String::new(alloc);
    for change in edit.as_slice() {
        push_change(&mut text, change)?;
    }
    text.push_str(".\n")?;
    Ok(Text::from_string(text))
}

// Appends the lines of a change.
fn push_change(text: &mut String, change: &Change) -> Result<(), NoMemory>
    ensures lines { OnOk result (string_bytes text.new
        ≡ string_bytes text.old ++ with_ends (flat_map item_lines (change_items change.now))) }
    ensures whole { OnOk result (AllByRecursion IsWhole (change_items change.now)) }
{
    match change {
        Change::Insert { table, rule } => push_line(text, Sign::Inserted, *table, rule),
        Change::Remove { table, rule } => push_line(text, Sign::Removed, *table, rule),
        Change::Replace { table, old, new } => {
            push_line(text, Sign::Old, *table, old)?;
            push_line(text, Sign::New, *table, new)
        }
    }
}

// Appends the line of a rule, if its table has a name.
fn push_line(text: &mut String, sign: Sign, table: TableId, rule: &Rule) -> Result<(), NoMemory>
    ensures line { OnOk result (string_bytes text.new
        ≡ string_bytes text.old ++ with_ends (item_lines (Signed sign table rule.now))) }
    ensures whole { OnOk result (AreFields rule.now) }
{
    let _fields = rule.fields();
    let Some(name) = table.name() else {
        return Ok(());
    };
    text.push_str(sign.text())?;
    push_named(text, name, rule)?;
    text.push_str("\n")?;
    Ok(())
}
