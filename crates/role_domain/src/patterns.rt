//! Rows whose domain is a pattern.

ghost use Rattle.std.specs.Prelude.{◌≡◌, ◌++◌, ◌≤◌, All, Bool, IfOk, List, OnOk, filter, length, true, ℕ};
ghost use Rattle.policy_table.specs.Tables.{Fields};
ghost use Rattle.role_domain.specs.Helps.Turns.{said_of};
ghost use Rattle.role_domain.specs.Relations.{Tells, counted, has_pattern};
ghost use Rattle.role_graph.specs.Groups.{times};

use crate::moves::{Standings, stands_now};
use crate::rows::{domain_of, pair_of};
use outside::NoMemory;
use perm_base::{Fit, Rule, is_pattern};
use policy_table::Rows;
use role_meaning::fits;
use std::alloc::Global;

/// The users and roles of the rows whose domain a text fits, as rows of two fields.
pub(crate) fn fitting(
    alloc: Global,
    fit: Fit,
    text: &[u8],
    rows: &[Rule],
) -> Result<Vec<Rule>, NoMemory>
    requires { All (λ row. 2 ≤ length row) rows.now }
    ensures two { IfOk result (λ pairs. All (λ row. length row ≡ 2) pairs.items) }
    ensures few { IfOk result (λ pairs. length pairs.items ≤ length rows.now) }
    ensures rows { IfOk result (λ pairs. (test : List ℕ → Bool) → Tells fit text.now test
        → (row : Fields) → times row pairs.items ≡ counted test row rows.now) }
{
    let mut pairs = Vec::new(alloc);
    for row in rows {
        if !fits(fit, text, domain_of(row)) {
            continue;
        }
        pairs.push(pair_of(alloc, row)?)?;
    }
    Ok(pairs)
}

/// The rows with a pattern as their domain. Where domains are compared as they stand there is none, and no row is looked at.
pub(crate) fn patterns_of(alloc: Global, fit: Fit, rows: Rows<'_>) -> Result<Vec<Rule>, NoMemory>
    ensures { IfOk result (λ found. found.items ≡ filter (has_pattern fit) rows.entry) }
{
    let mut found = Vec::new(alloc);
    if let Fit::Exact = fit {
        return Ok(found);
    }
    for row in rows {
        if is_pattern(fit, domain_of(row)) {
            found.push(row.copy(alloc)?)?;
        }
    }
    Ok(found)
}

/// The rows with a pattern as their domain after a change: those of before that still stand, and those that come.
pub(crate) fn patterns_after(
    alloc: Global,
    fit: Fit,
    patterns: &[Rule],
    said: &Standings,
    come: &[Rule],
) -> Result<Vec<Rule>, NoMemory>
    ensures { IfOk result (λ after. after.items
        ≡ filter (λ row. said_of said.now.entries row true) patterns.now
        ++ filter (has_pattern fit) come.now) }
{
    let mut after = staying(alloc, patterns, said)?;
    push_patterns(alloc, fit, &mut after, come)?;
    Ok(after)
}

/// The same rows once more.
pub(crate) fn copy_rows(alloc: Global, rows: &[Rule]) -> Result<Vec<Rule>, NoMemory>
    ensures { IfOk result (λ copy. copy.items ≡ rows.now) }
{
    let mut copy = Vec::with_capacity(alloc, rows.len())?;
    for row in rows {
        copy.push(row.copy(alloc)?)?;
    }
    Ok(copy)
}

// The rows that are not said to go.
fn staying(alloc: Global, rows: &[Rule], said: &Standings) -> Result<Vec<Rule>, NoMemory>
    ensures { IfOk result (λ found. found.items
        ≡ filter (λ row. said_of said.now.entries row true) rows.now) }
{
    let mut found = Vec::new(alloc);
    for row in rows {
        if stands_now(said, row, true) {
            found.push(row.copy(alloc)?)?;
        }
    }
    Ok(found)
}

// Adds the rows whose domain is a pattern.
fn push_patterns(
    alloc: Global,
    fit: Fit,
    found: &mut Vec<Rule>,
    rows: &[Rule],
) -> Result<(), NoMemory>
    ensures { OnOk result (found.new.items
        ≡ found.old.items ++ filter (has_pattern fit) rows.now) }
{
    for row in rows {
        if is_pattern(fit, domain_of(row)) {
            found.push(row.copy(alloc)?)?;
        }
    }
    Ok(())
}
