ghost use Rattle.std.specs.Prelude.{◌≡◌, ◌++◌, [], IfOk, OnOk, codes, decimal, length, string_bytes};
ghost use Rattle.std.specs.Option.{option_map_or};
ghost use Rattle.perm_base.specs.Fields.{joined};
ghost use Rattle.perm_base.specs.RoleShapes.{shape_of};
ghost use Rattle.text_parts.specs.Numbered.{line};
ghost use Rattle.file_lint.specs.Texts.{quoted};
ghost use Rattle.file_lint.specs.PolicyWords.{count_words, fault_column, name_in, policy_error, policy_words, role_names, table_words, tables_text, wanted_text};

use crate::columns::{field_column, field_count};
use crate::finding::{Finding, Level};
use crate::hints::begins_so;
use crate::limits::limit_words;
use crate::lines::cut_at;
use crate::mended::relation_key;
use crate::names::has_order_mark;
use crate::texts::{push, push_number, push_quoted};
use model_conf::Model;
use outside::{NoMemory, Text};
use perm_base::{RoleShape, Rule, TableId, push_texts};
use policy_csv::PolicyFault;
use std::alloc::Global;
use text_parts::{behind_blanks, trimmed};

/// The finding of a fault of a line of this number.
#[tactic(auto, unfolding(crate::specs::PolicyWords::policy_error))]
pub(crate) fn policy_error(
    alloc: Global,
    model: &Model,
    why: PolicyFault,
    number: u64,
    text: &str,
) -> Result<Finding, NoMemory>
    ensures { IfOk result (λ found. found ≡ policy_error model.now why (line number text.now)) }
{
    let mut words = String::new(alloc);
    push_words(&mut words, model, why, text)?;
    Ok(Finding {
        line: number,
        column: fault_column(why, text),
        level: Level::Error,
        text: Text::from_string(words),
    })
}

fn fault_column(why: PolicyFault, text: &str) -> u64
    ensures { result ≡ fault_column why text.now }
{
    match why {
        PolicyFault::Quote { column, .. } => u64::from(column),
        _ => field_column(text, 0),
    }
}

// Appends the words of a fault of a line.
fn push_words(
    words: &mut String,
    model: &Model,
    why: PolicyFault,
    text: &str,
) -> Result<(), NoMemory>
    ensures { OnOk result (string_bytes words.new
        ≡ string_bytes words.old ++ policy_words model.now why text.now) }
{
    match why {
        PolicyFault::NotUtf8 => push(words, "not UTF-8"),
        PolicyFault::Quote { .. } => push(
            words,
            "a quote, or a CR, is out of place: a field in quotes ends in front of a comma, and each quote in it stands twice",
        ),
        PolicyFault::UnknownTable { .. } => push_table_words(words, model, text),
        PolicyFault::Columns { .. } => push_count_words(words, model, text),
        PolicyFault::FieldTooLong { .. } => push(words, "a field has more than 4096 bytes"),
        PolicyFault::Full { what, .. } => push(words, limit_words(what)),
        PolicyFault::NoMemory => Ok(()),
    }
}

// Appends the words of a first field that names no table.
fn push_table_words(words: &mut String, model: &Model, line: &str) -> Result<(), NoMemory>
    ensures { OnOk result (string_bytes words.new
        ≡ string_bytes words.old ++ table_words model.now line.now) }
{
    if has_order_mark(line) {
        return push(
            words,
            "begins with a byte-order mark: take its three bytes away",
        );
    }
    let front = behind_blanks(line).as_bytes();
    if begins_so(front, b";") {
        return push(words, "a comment begins with `#`");
    }
    if begins_so(front, b"//") {
        return push(words, "a comment begins with `#`");
    }
    push_unknown_table(words, model, name_in(line))
}

// Appends the words of a name that is no table's.
fn push_unknown_table(words: &mut String, model: &Model, name: &str) -> Result<(), NoMemory>
    ensures { OnOk result (string_bytes words.new ≡ string_bytes words.old
        ++ (codes "unknown table " ++ quoted name.now ++ codes ": the model has " ++ tables_text model.now)) }
{
    push(words, "unknown table ")?;
    push_quoted(words, name)?;
    push(words, ": the model has ")?;
    push_tables(words, model)?;
    Ok(())
}

// What stands in front of the first comma.
fn name_in(line: &str) -> &str
    ensures { result.now ≡ name_in line.now }
{
    trimmed(cut_at(line, ',').0)
}

// Appends `p`, and the relations of the model.
fn push_tables(words: &mut String, model: &Model) -> Result<(), NoMemory>
    ensures { OnOk result (string_bytes words.new
        ≡ string_bytes words.old ++ tables_text model.now) }
{
    words.push_str("p")?;
    for shape in model.relations() {
        words.push_str(", ")?;
        words.push_str(relation_key(shape.number))?;
    }
    Ok(())
}

// Appends the words of another number of fields.
fn push_count_words(words: &mut String, model: &Model, line: &str) -> Result<(), NoMemory>
    ensures { OnOk result (string_bytes words.new
        ≡ string_bytes words.old ++ count_words model.now line.now) }
{
    push_number(words, field_count(line).saturating_sub(1))?;
    push(words, " fields, ")?;
    push_wanted(words, model, TableId::named(name_in(line)))?;
    Ok(())
}

// Appends the columns of a table.
fn push_wanted(words: &mut String, model: &Model, table: Option<TableId>) -> Result<(), NoMemory>
    ensures { OnOk result (string_bytes words.new
        ≡ string_bytes words.old ++ wanted_text model.now table) }
{
    match table {
        None => push(words, "as many wanted as its table has columns"),
        Some(TableId::P) => push_columns(words, model.policy_columns()),
        Some(TableId::G(number)) => push_role_names(words, shape_of(model.relations(), number)),
    }
}

// Appends the columns of a relation, where there is one.
fn push_role_names(words: &mut String, shape: Option<RoleShape>) -> Result<(), NoMemory>
    ensures { OnOk result (string_bytes words.new
        ≡ string_bytes words.old ++ option_map_or role_names shape []) }
{
    match shape {
        Some(shape) => push(words, role_names(shape)),
        None => Ok(()),
    }
}

fn shape_of(relations: &[RoleShape], number: u8) -> Option<RoleShape>
    ensures { result ≡ shape_of relations.now number }
{
    for shape in relations {
        if shape.number == number {
            return Some(*shape);
        }
    }
    None
}

fn role_names(shape: RoleShape) -> &'static str
    ensures { result.now ≡ role_names shape }
{
    if shape.with_domain {
        "3 wanted (name, role, domain)"
    } else {
        "2 wanted (name, role)"
    }
}

// Appends the columns of p.
fn push_columns(words: &mut String, columns: &Rule) -> Result<(), NoMemory>
    ensures { OnOk result (string_bytes words.new ≡ string_bytes words.old
        ++ (decimal (length columns.now) ++ codes " wanted (" ++ joined columns.now ++ codes ")")) }
{
    push_number(words, u64::from(columns.len()))?;
    push(words, " wanted (")?;
    push_texts(words, columns)?;
    push(words, ")")?;
    Ok(())
}
