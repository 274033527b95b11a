ghost use Rattle.std.specs.Prelude.{◌≡◌, ◌++◌, IfOk, OnOk, string_bytes};
ghost use Rattle.std.specs.Str.{bytes_eq};
ghost use Rattle.model_conf.specs.ModelText.{ModelParts};
ghost use Rattle.file_lint.specs.Helps.Rows.{row_line};
ghost use Rattle.file_lint.specs.RowWarnings.{effect_warnings, field_of, is_effect, link_warnings, link_words, order_warnings, own_warnings, policy_warnings, rank_warnings, repeat_warnings, subject_warnings, warning_in};

use crate::columns::field_column;
use crate::finding::{Finding, Level};
use crate::numbers::rank;
use crate::others::push_order;
use crate::texts::{push, push_quoted, quoted_and};
use effect_fold::Effect;
use outside::{NoMemory, Text};
use perm_base::{RoleShape, Rule, Shapes, TableId, is_pattern};
use policy_csv::Entry;
use policy_table::Tables;
use std::alloc::Global;

/// A line of a policy, by its number.
#[derive(Drop)]
pub(crate) struct Row<'a> {
    pub(crate) number: u64,
    pub(crate) text: &'a str,
}

/// A warning at the field of a line that has so many fields before it, the table's name among them.
pub(crate) fn warning_in(row: &Row<'_>, before: u64, words: String) -> Finding
    ensures { result ≡ warning_in (row_line row.now) before (string_bytes words) }
{
    Finding {
        line: row.number,
        column: field_column(row.text, before),
        level: Level::Warning,
        text: Text::from_string(words),
    }
}

/// The warnings of a rule that stands already.
pub(crate) fn repeat_warnings(
    alloc: Global,
    seen: &Tables,
    row: &Row<'_>,
    entry: &Entry,
) -> Result<Vec<Finding>, NoMemory>
    ensures { IfOk result (λ found. found.items
        ≡ repeat_warnings seen.now.policy (row_line row.now) entry.now) }
{
    let mut found = Vec::new(alloc);
    if !seen.has(entry.table, &entry.rule) {
        return Ok(found);
    }
    let words = String::from_str(alloc, "this rule stands above already: it counts once")?;
    found.push(warning_in(row, 0, words))?;
    Ok(found)
}

/// Pushes what a rule surprises by, behind the rules of these tables.
pub(crate) fn push_own_warnings(
    alloc: Global,
    effect: Effect,
    shapes: &Shapes,
    seen: &Tables,
    row: &Row<'_>,
    entry: &Entry,
    found: &mut Vec<Finding>,
) -> Result<(), NoMemory>
    ensures { (model : ModelParts) → model.effect ≡ effect → OnOk result (found.new.items
        ≡ found.old.items
        ++ own_warnings model shapes.now seen.now.policy (row_line row.now) entry.now entry.now.table) }
{
    match entry.table {
        TableId::P => push_rule_warnings(alloc, effect, shapes, seen, row, &entry.rule, found),
        TableId::G(_) => push_link(alloc, row, &entry.rule, found),
    }
}

// Pushes what a rule of p surprises by, behind the rules of these tables.
fn push_rule_warnings(
    alloc: Global,
    effect: Effect,
    shapes: &Shapes,
    seen: &Tables,
    row: &Row<'_>,
    rule: &Rule,
    found: &mut Vec<Finding>,
) -> Result<(), NoMemory>
    ensures { OnOk result (found.new.items ≡ found.old.items ++
        (policy_warnings shapes.now (row_line row.now) rule.now
        ++ order_warnings effect seen.now.policy (row_line row.now) rule.now shapes.now.effect_column)) }
{
    push_policy_warnings(alloc, shapes, row, rule, found)?;
    push_order(alloc, effect, seen, row, rule, shapes.effect_column, found)?;
    Ok(())
}

// Pushes what the fields of a rule of p surprise by.
fn push_policy_warnings(
    alloc: Global,
    shapes: &Shapes,
    row: &Row<'_>,
    rule: &Rule,
    found: &mut Vec<Finding>,
) -> Result<(), NoMemory>
    ensures { OnOk result (found.new.items ≡ found.old.items
        ++ policy_warnings shapes.now (row_line row.now) rule.now) }
{
    push_effect(alloc, row, rule, shapes.effect_column, found)?;
    push_rank(alloc, row, rule, shapes.ranked, found)?;
    let relation = shapes.roles.find(1);
    push_subject(alloc, row, rule, shapes.subject_column, relation, found)?;
    Ok(())
}

/// The field of a rule at a place; empty where it has none there.
pub(crate) fn field(rule: &Rule, at: u32) -> &str
    ensures { result.now ≡ field_of rule.now at }
{
    if at < rule.len() { rule.text(at) } else { "" }
}

fn push_effect(
    alloc: Global,
    row: &Row<'_>,
    rule: &Rule,
    column: Option<u32>,
    found: &mut Vec<Finding>,
) -> Result<(), NoMemory>
    ensures { OnOk result (found.new.items
        ≡ found.old.items ++ effect_warnings (row_line row.now) rule.now column) }
{
    let Some(at) = column else {
        return Ok(());
    };
    let text = field(rule, at);
    if is_effect(text) {
        return Ok(());
    }
    let words = quoted_and(
        alloc,
        text,
        " is neither allow nor deny: the rule counts as not matched",
    )?;
    found.push(warning_in(row, u64::from(at) + 1, words))?;
    Ok(())
}

fn is_effect(text: &str) -> bool
    ensures { result ≡ is_effect text.now }
{
    text == "allow" || text == "deny"
}

fn push_rank(
    alloc: Global,
    row: &Row<'_>,
    rule: &Rule,
    ranked: bool,
    found: &mut Vec<Finding>,
) -> Result<(), NoMemory>
    ensures { OnOk result (found.new.items
        ≡ found.old.items ++ rank_warnings (row_line row.now) rule.now ranked) }
{
    if !ranked {
        return Ok(());
    }
    let None = rank(rule) else {
        return Ok(());
    };
    let words = quoted_and(
        alloc,
        field(rule, 0),
        " is no number: the rule ranks behind every number",
    )?;
    found.push(warning_in(row, 1, words))?;
    Ok(())
}

fn push_subject(
    alloc: Global,
    row: &Row<'_>,
    rule: &Rule,
    at: u32,
    relation: Option<RoleShape>,
    found: &mut Vec<Finding>,
) -> Result<(), NoMemory>
    ensures { OnOk result (found.new.items
        ≡ found.old.items ++ subject_warnings (row_line row.now) rule.now at relation) }
{
    let Some(shape) = relation else {
        return Ok(());
    };
    let text = field(rule, at);
    if !is_pattern(shape.names, text.as_bytes()) {
        return Ok(());
    }
    let words = quoted_and(
        alloc,
        text,
        " is a pattern of g: a name that is asked is never a pattern, so this rule is for the name of these very bytes",
    )?;
    found.push(warning_in(row, u64::from(at) + 1, words))?;
    Ok(())
}

fn push_link(
    alloc: Global,
    row: &Row<'_>,
    rule: &Rule,
    found: &mut Vec<Finding>,
) -> Result<(), NoMemory>
    ensures { OnOk result (found.new.items ≡ found.old.items ++ link_warnings (row_line row.now) rule.now) }
{
    let name = field(rule, 0);
    let role = field(rule, 1);
    if !is_same(name, role) {
        return Ok(());
    }
    let words = link_words(alloc, name)?;
    found.push(warning_in(row, 2, words))?;
    Ok(())
}

fn is_same(name: &str, role: &str) -> bool
    ensures { result ≡ bytes_eq name.now role.now }
{
    name == role
}

// The words of a link from a name to itself.
fn link_words(alloc: Global, name: &str) -> Result<String, NoMemory>
    ensures { IfOk result (λ words. string_bytes words ≡ link_words name.now) }
{
    let mut words = String::from_str(alloc, "a link from ")?;
    push_quoted(&mut words, name)?;
    push(&mut words, " to itself")?;
    Ok(words)
}
