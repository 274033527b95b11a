ghost use Rattle.std.specs.Prelude.{◌≡◌, ◌++◌, IfOk, OnOk, codes, false, slice_set};
ghost use Rattle.perm_base.specs.LineEnds.{has_line_end};
ghost use Rattle.file_lint.specs.Helps.Rows.{row_line};
ghost use Rattle.file_lint.specs.RowWarnings.{has_other, is_behind_other, is_by_priority, order_warnings};

use crate::finding::Finding;
use crate::row::{Row, warning_in};
use effect_fold::Effect;
use outside::{NoMemory, Text};
use perm_base::{Rule, TableId};
use policy_table::Tables;
use std::alloc::Global;

/// Pushes a warning of a rule that stands behind one that differs in its effect alone, where the first rule that fits decides.
pub(crate) fn push_order(
    alloc: Global,
    effect: Effect,
    seen: &Tables,
    row: &Row<'_>,
    rule: &Rule,
    column: Option<u32>,
    found: &mut Vec<Finding>,
) -> Result<(), NoMemory>
    ensures { OnOk result (found.new.items ≡ found.old.items
        ++ order_warnings effect seen.now.policy (row_line row.now) rule.now column) }
{
    let Some(at) = column else {
        return Ok(());
    };
    if !is_by_priority(effect) {
        return Ok(());
    }
    let behind = is_behind_other(alloc, seen, rule, at)?;
    if !behind {
        return Ok(());
    }
    let words = String::from_str(
        alloc,
        "a rule above differs in its effect alone: it decides first, and this one is never reached",
    )?;
    found.push(warning_in(row, u64::from(at) + 1, words))?;
    Ok(())
}

// The first rule that fits decides.
fn is_by_priority(effect: Effect) -> bool
    ensures { result ≡ is_by_priority effect }
{
    match effect {
        Effect::Priority | Effect::SubjectPriority => true,
        Effect::AllowOverride | Effect::DenyOverride | Effect::AllowAndDeny => false,
    }
}

// The rule does not stand yet, and one that differs in its effect alone does.
fn is_behind_other(alloc: Global, seen: &Tables, rule: &Rule, at: u32) -> Result<bool, NoMemory>
    ensures { IfOk result (λ is. is ≡ is_behind_other seen.now.policy rule.now at) }
{
    if seen.has(TableId::P, rule) {
        return Ok(false);
    }
    let allows = has_other(alloc, seen, rule, at, "allow")?;
    let denies = has_other(alloc, seen, rule, at, "deny")?;
    Ok(allows || denies)
}

// An equal rule but for this effect stands.
fn has_other(
    alloc: Global,
    seen: &Tables,
    rule: &Rule,
    at: u32,
    effect: &str,
) -> Result<bool, NoMemory>
    requires { has_line_end effect.now ≡ false }
    ensures { IfOk result (λ has. has ≡ has_other seen.now.policy rule.now at effect.now) }
{
    let other = with_field(alloc, rule, at, effect)?;
    Ok(seen.has(TableId::P, &other))
}

// A rule with another field at a place, where it has one there.
fn with_field(alloc: Global, rule: &Rule, at: u32, text: &str) -> Result<Rule, NoMemory>
    requires { has_line_end text.now ≡ false }
    ensures { IfOk result (λ made. made ≡ slice_set rule.now at text.now) }
{
    let copy = rule.copy(alloc)?;
    if at >= copy.len() {
        return Ok(copy);
    }
    let field = Text::from_str(alloc, text)?;
    let mut fields = copy.into_fields();
    fields[at as usize] = field;
    Ok(Rule::from_vec(fields))
}
