ghost use Rattle.std.specs.Prelude.{◌≡◌, IfOk, All, ◌+◌, ◌≤◌, length};
ghost use Rattle.edit_calls.specs.Edits.{has_repeat, one_is_absent, one_stands, one_stays};
ghost use Rattle.policy_table.specs.Tables.{rows};

use crate::listed::RuleList;
use indexmap::IndexSet;
use outside::NoMemory;
use perm_base::{Rule, Rules, TableId};
use policy_table::{Tables, fits_filter};
use std::alloc::Global;

/// Whether a rule is named twice.
pub(crate) fn has_repeat<L: RuleList>(alloc: Global, rules: &L) -> Result<bool, NoMemory>
    ensures { IfOk result (λ repeat. repeat ≡ has_repeat (L.rules rules.now)) }
{
    let mut seen = IndexSet::with_capacity(alloc, rules.len() as usize)?;
    for at in 0..rules.len() {
        if !seen.insert(rules.at(at).copy(alloc)?)? {
            return Ok(true);
        }
    }
    Ok(false)
}

/// Whether one of the rules stands in a table.
pub(crate) fn one_stands<L: RuleList>(tables: &Tables, table: TableId, rules: &L) -> bool
    ensures { result ≡ one_stands (L.rules rules.now) (rows tables.now.policy table) }
{
    for at in 0..rules.len() {
        if tables.has(table, rules.at(at)) {
            return true;
        }
    }
    false
}

/// Whether one of the rules is absent from a table.
pub(crate) fn one_is_absent<L: RuleList>(tables: &Tables, table: TableId, rules: &L) -> bool
    ensures { result ≡ one_is_absent (L.rules rules.now) (rows tables.now.policy table) }
{
    for at in 0..rules.len() {
        if !tables.has(table, rules.at(at)) {
            return true;
        }
    }
    false
}

/// Whether one of the rules stands in a table and does not fit a filter.
pub(crate) fn one_stays(
    tables: &Tables,
    table: TableId,
    at: u32,
    values: &Rule,
    rules: &Rules,
) -> bool
    requires { All (λ rule. at + length values.now ≤ length rule) (rows tables.now.policy table) }
    ensures { result ≡ one_stays at values.now rules.now (rows tables.now.policy table) }
{
    for place in 0..rules.len() {
        let rule = rules.at(place);
        if tables.has(table, rule) && !fits_filter(rule, at, values) {
            return true;
        }
    }
    false
}
