ghost use Rattle.std.specs.Prelude.{◌≡◌, ◌+◌, ◌<◌, ◌≤◌, ◌++◌, All, IfOk, OnOk, filter, length, map, not};
ghost use Rattle.edit_calls.specs.Edits.{fitting, inserts, removes, rows_with};
ghost use Rattle.edit_calls.specs.Found.{rules_at};
ghost use Rattle.policy_table.specs.Tables.{rows, stands};
ghost use Rattle.policy_table.specs.declared.change.Change.TheVariants as change;

use outside::NoMemory;
use perm_base::{Rule, TableId};
use policy_table::{Change, Rows, Tables, fits_filter};
use std::alloc::Global;

/// The changes that put rules into a table.
pub(crate) fn inserts(
    alloc: Global,
    table: TableId,
    rules: &[Rule],
) -> Result<Vec<Change>, NoMemory>
    ensures { IfOk result (λ changes. changes.items ≡ inserts table rules.now) }
{
    let mut changes = Vec::new(alloc);
    push_inserts(alloc, &mut changes, table, rules)?;
    Ok(changes)
}

/// Puts behind changes those that put rules into a table.
pub(crate) fn push_inserts(
    alloc: Global,
    changes: &mut Vec<Change>,
    table: TableId,
    rules: &[Rule],
) -> Result<(), NoMemory>
    ensures { OnOk result (changes.new.items ≡ changes.old.items ++ inserts table rules.now) }
{
    for rule in rules {
        let rule = rule.copy(alloc)?;
        changes.push(Change::Insert { table, rule })?;
    }
    Ok(())
}

/// The changes that put the absent ones of rules into a table.
pub(crate) fn inserts_absent(
    alloc: Global,
    tables: &Tables,
    table: TableId,
    rules: &[Rule],
) -> Result<Vec<Change>, NoMemory>
    ensures { IfOk result (λ changes. changes.items ≡ inserts table
        (filter (λ rule. not (stands rule (rows tables.now.policy table))) rules.now)) }
{
    let mut changes = Vec::new(alloc);
    for rule in rules {
        if !tables.has(table, rule) {
            let rule = rule.copy(alloc)?;
            changes.push(Change::Insert { table, rule })?;
        }
    }
    Ok(changes)
}

/// The changes that take rules out of a table.
pub(crate) fn removes(
    alloc: Global,
    table: TableId,
    rules: &[Rule],
) -> Result<Vec<Change>, NoMemory>
    ensures { IfOk result (λ changes. changes.items ≡ removes table rules.now) }
{
    let mut changes = Vec::new(alloc);
    for rule in rules {
        let rule = rule.copy(alloc)?;
        changes.push(Change::Remove { table, rule })?;
    }
    Ok(changes)
}

/// The changes that put new rules into the places of old ones.
pub(crate) fn replaces(
    alloc: Global,
    table: TableId,
    pairs: &[(Rule, Rule)],
) -> Result<Vec<Change>, NoMemory>
    ensures { IfOk result (λ changes. changes.items
        ≡ map (λ pair. change.Replace table pair.0 pair.1) pairs.now) }
{
    let mut changes = Vec::new(alloc);
    for pair in pairs {
        let old = pair.0.copy(alloc)?;
        let new = pair.1.copy(alloc)?;
        changes.push(Change::Replace { table, old, new })?;
    }
    Ok(changes)
}

/// The changes that take the rules out of a table that fit a filter.
pub(crate) fn removes_fitting(
    alloc: Global,
    table: TableId,
    rows: Rows<'_>,
    at: u32,
    values: &Rule,
) -> Result<Vec<Change>, NoMemory>
    requires { All (λ rule. at + length values.now ≤ length rule) rows }
    ensures { IfOk result (λ changes. changes.items
        ≡ removes table (fitting at values.now rows.entry)) }
{
    let mut changes = Vec::new(alloc);
    for row in rows {
        if fits_filter(row, at, values) {
            let rule = row.copy(alloc)?;
            changes.push(Change::Remove { table, rule })?;
        }
    }
    Ok(changes)
}

/// Puts behind changes those that take the rules out of a table that have a name in a column.
pub(crate) fn push_removes_with(
    alloc: Global,
    changes: &mut Vec<Change>,
    table: TableId,
    rows: Rows<'_>,
    column: u32,
    name: &[u8],
) -> Result<(), NoMemory>
    requires { All (λ rule. column < length rule) rows }
    ensures { OnOk result (changes.new.items
        ≡ changes.old.items ++ removes table (rows_with column name.now rows.entry)) }
{
    for row in rows {
        if name == row.field(column) {
            let rule = row.copy(alloc)?;
            changes.push(Change::Remove { table, rule })?;
        }
    }
    Ok(())
}

/// The changes that take the rules at places out of a table that fit a filter.
pub(crate) fn removes_fitting_at(
    alloc: Global,
    tables: &Tables,
    table: TableId,
    places: &[u32],
    at: u32,
    values: &Rule,
) -> Result<Vec<Change>, NoMemory>
    requires columns { All (λ rule. at + length values.now ≤ length rule)
        (rows tables.now.policy table) }
    requires within { All (λ place. place < length (rows tables.now.policy table)) places.now }
    ensures { IfOk result (λ changes. changes.items ≡ removes table
        (fitting at values.now (rules_at (rows tables.now.policy table) places.now))) }
{
    let mut changes = Vec::new(alloc);
    for place in places {
        let row = tables.row(table, *place);
        if fits_filter(row, at, values) {
            let rule = row.copy(alloc)?;
            changes.push(Change::Remove { table, rule })?;
        }
    }
    Ok(changes)
}

/// Puts behind changes those that take the rules at places out of a table that have a name in a column.
pub(crate) fn push_removes_at(
    alloc: Global,
    changes: &mut Vec<Change>,
    tables: &Tables,
    table: TableId,
    places: &[u32],
    column: u32,
    name: &[u8],
) -> Result<(), NoMemory>
    requires columns { All (λ rule. column < length rule) (rows tables.now.policy table) }
    requires within { All (λ place. place < length (rows tables.now.policy table)) places.now }
    ensures { OnOk result (changes.new.items ≡ changes.old.items ++ removes table
        (rows_with column name.now (rules_at (rows tables.now.policy table) places.now))) }
{
    for place in places {
        let row = tables.row(table, *place);
        if name == row.field(column) {
            let rule = row.copy(alloc)?;
            changes.push(Change::Remove { table, rule })?;
        }
    }
    Ok(())
}
