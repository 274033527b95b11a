ghost use Rattle.std.specs.Prelude.{◌≡◌, ◌+◌, ◌<◌, ◌≤◌, ◌^◌, All, IfOk, filter, length};
ghost use Rattle.policy_table.specs.Filters.{fits_filter};
ghost use Rattle.policy_table.specs.Limits.{HaveShapes};
ghost use Rattle.policy_query.specs.Answers.{IsAnswer};
ghost use Rattle.policy_query.specs.Rules.{filter_refusal, has_answer, rows_answer};

use crate::refused::QueryRefused;
use outside::NoMemory;
use perm_base::{Rule, Rules, Shapes, TableId};
use policy_table::{Rows, Tables, columns_of, fits_filter};
use std::alloc::Global;

/// Whether a rule stands in a table (Casbin, HasPolicy and HasGroupingPolicy). Refused are a table that the shapes lack
/// and a rule with another number of fields than the table has columns. It takes no memory, and is never refused for
/// want of it.
pub fn has_rule(
    tables: &Tables,
    shapes: &Shapes,
    table: TableId,
    rule: &Rule,
) -> Result<bool, QueryRefused>
    ensures answer { result ≡ has_answer shapes.now tables.now.policy table rule.now }
{
    let Some(want) = columns_of(shapes, table) else {
        return Err(QueryRefused::NoTable { table });
    };
    let got = rule.len();
    if got != want {
        return Err(QueryRefused::Columns { want, got });
    }
    Ok(tables.has(table, rule))
}

/// The rules of a table that fit a filter, in their order: from the column `at` on, counted from 0, each value that is
/// not empty equals the rule's field. No values fit every rule (Casbin, GetFilteredPolicy and GetPolicy). Refused are a
/// table that the shapes lack and values that go past its columns. It copies the rules that fit, and takes memory for
/// that alone.
pub fn rows_of(
    alloc: Global,
    tables: &Tables,
    shapes: &Shapes,
    table: TableId,
    at: u32,
    values: &Rule,
) -> Result<Rules, QueryRefused>
    requires shaped { HaveShapes shapes.now tables.now.policy }
    ensures answer { IsAnswer (rows_answer shapes.now tables.now.policy table at values.now)
        result }
{
    if let Some(refused) = filter_refusal(shapes, table, at, values) {
        return Err(refused);
    }
    Ok(fitting(alloc, tables.rows(table), at, values)?)
}

// Why a filter of a table is refused.
fn filter_refusal(shapes: &Shapes, table: TableId, at: u32, values: &Rule) -> Option<QueryRefused>
    ensures { result ≡ filter_refusal shapes.now table at values.now }
{
    let Some(columns) = columns_of(shapes, table) else {
        return Some(QueryRefused::NoTable { table });
    };
    if u64::from(at) + u64::from(values.len()) > u64::from(columns) {
        Some(QueryRefused::FilterPlace)
    } else {
        None
    }
}

// The rules that fit a filter.
fn fitting(alloc: Global, rules: Rows<'_>, at: u32, values: &Rule) -> Result<Rules, NoMemory>
    requires within { All (λ rule. at + length values.now ≤ length rule) rules }
    requires few { length rules < 2 ^ 32 }
    ensures { IfOk result (λ fitting. fitting
        ≡ filter (λ rule. fits_filter rule at values.now) rules.entry) }
{
    let mut fitting = Vec::new(alloc);
    for rule in rules {
        if fits_filter(rule, at, values) {
            fitting.push(rule.copy(alloc)?)?;
        }
    }
    Ok(Rules::from_vec(fitting))
}
