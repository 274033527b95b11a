ghost use Rattle.std.specs.Prelude.{◌≡◌, ◌++◌, ◌∷◌, OnErr, OnOk, codes, flat_map, length, true};
ghost use Rattle.perm_base.specs.FieldLine as field;
ghost use Rattle.answer_lines.specs.LineText.{Appends, IsKept, change_lines, counted_text, further, name_text, names_text, rule_lines};
ghost use Rattle.answer_lines.specs.Helps.Signs.{further_line, signed_lines};
ghost use Rattle.answer_lines.specs.Told.{has_name};
ghost use Rattle.version_log.specs.EditText.{change_items, item_lines};

use crate::pieces::push_counted;
use outside::NoMemory;
use perm_base::{Rule, Rules, TableId, push_fields, push_named};
use policy_table::{Change, Edit};

/// Appends a word, a version and names.
pub(crate) fn push_names(
    text: &mut String,
    word: &str,
    version: u32,
    names: &Rule,
) -> Result<(), NoMemory>
    ensures appended { OnOk result (Appends text.old text.new
        (counted_text word.now version (length names.now) ++ names_text names.now)) }
    ensures kept { OnErr result (IsKept text.old text.new) }
{
    push_counted(text, word, version, names.len())?;
    if names.fields().is_empty() {
        return Ok(());
    }
    text.push_str(" ")?;
    push_fields(text, names)
}

/// Appends a version and rules of a table.
pub(crate) fn push_rules(
    text: &mut String,
    version: u32,
    table: TableId,
    rules: &Rules,
) -> Result<(), NoMemory>
    requires { has_name table ≡ true }
    ensures appended { OnOk result (Appends text.old text.new
        (counted_text (codes "rows") version (length rules.now)
        ++ further (rule_lines (name_text table) rules.now))) }
    ensures kept { OnErr result (IsKept text.old text.new) }
{
    let Some(name) = table.name() else {
        unreachable!()
    };
    push_counted(text, "rows", version, rules.len())?;
    push_rows(text, name, rules.as_slice())
}

/// Appends a version, the number of an edit, and its changes.
pub(crate) fn push_recorded(
    text: &mut String,
    version: u32,
    number: u32,
    edit: &Edit,
) -> Result<(), NoMemory>
    ensures appended { OnOk result (Appends text.old text.new
        (counted_text (codes "edit") version number ++ further (change_lines edit.now))) }
    ensures kept { OnErr result (IsKept text.old text.new) }
{
    push_counted(text, "edit", version, number)?;
    push_changes(text, edit.as_slice())
}

// Appends the lines of rules of the table with this name.
fn push_rows(text: &mut String, name: &str, rules: &[Rule]) -> Result<(), NoMemory>
    requires { field.printed_field name.now ≡ name.now }
    ensures appended { OnOk result (Appends text.old text.new (further (rule_lines name.now rules.now))) }
    ensures kept { OnErr result (IsKept text.old text.new) }
{
    for rule in rules {
        push_row(text, "", name, rule)?;
    }
    Ok(())
}

// Appends the lines of changes.
fn push_changes(text: &mut String, changes: &[Change]) -> Result<(), NoMemory>
    ensures appended { OnOk result (Appends text.old text.new (further (change_lines changes.now))) }
    ensures kept { OnErr result (IsKept text.old text.new) }
{
    for change in changes {
        push_change(text, change)?;
    }
    Ok(())
}

// Appends the lines of a change.
fn push_change(text: &mut String, change: &Change) -> Result<(), NoMemory>
    ensures appended { OnOk result (Appends text.old text.new
        (further (flat_map item_lines (change_items change.now)))) }
    ensures kept { OnErr result (IsKept text.old text.new) }
{
    match change {
        Change::Insert { table, rule } => push_signed(text, "+ ", *table, rule),
        Change::Remove { table, rule } => push_signed(text, "- ", *table, rule),
        Change::Replace { table, old, new } => {
            push_signed(text, "< ", *table, old)?;
            push_signed(text, "> ", *table, new)
        }
    }
}

// Appends the line of a rule of a table behind a sign, if its table has a name.
fn push_signed(text: &mut String, sign: &str, table: TableId, rule: &Rule) -> Result<(), NoMemory>
    ensures appended { OnOk result (Appends text.old text.new
        (further (signed_lines sign.now table rule.now))) }
    ensures kept { OnErr result (IsKept text.old text.new) }
{
    match table.name() {
        Some(name) => push_row(text, sign, name, rule),
        None => Ok(()),
    }
}

// Appends a further line: a sign, the name of a table and the fields of a rule.
fn push_row(text: &mut String, sign: &str, name: &str, rule: &Rule) -> Result<(), NoMemory>
    requires { field.printed_field name.now ≡ name.now }
    ensures appended { OnOk result (Appends text.old text.new
        (further_line (sign.now ++ field.printed (name.now ∷ rule.now)))) }
    ensures kept { OnErr result (IsKept text.old text.new) }
{
    text.push_str("\n  ")?;
    text.push_str(sign)?;
    push_named(text, name, rule)
}
