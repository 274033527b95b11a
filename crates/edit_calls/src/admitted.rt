ghost use Rattle.std.specs.Prelude.{◌≡◌, IfOk};
ghost use Rattle.std.specs.List.{list_all};
ghost use Rattle.policy_table.specs.Changes.{applies, flat};
ghost use Rattle.policy_table.specs.Limits.{AreSound};
ghost use Rattle.edit_calls.specs.Admitted.{admits, is_fitting, may_stand};

use crate::told::tell_change;
use indexmap::IndexMap;
use outside::NoMemory;
use perm_base::{Rule, Shapes, TableId};
use policy_table::{Change, Edit, Tables, columns_of, copy_edit, has_short_fields};
use std::alloc::Global;

/// Whether edits can be made in these tables, one after the other: each rule that they put in has its table's number of
/// columns and no field of more than 4,096 bytes, they apply, and the tables after all of them pass no limit. The tables
/// stay as they are. Time and memory grow with the edits, and not with the tables.
pub fn admits(
    alloc: Global,
    edits: &[Edit],
    tables: &Tables,
    shapes: &Shapes,
) -> Result<bool, NoMemory>
    requires { AreSound shapes.now tables.now.policy }
    ensures { IfOk result (λ admitted.
        admitted ≡ admits shapes.now tables.now.policy (flat edits.now)) }
{
    let whole = joined(alloc, edits)?;
    if !are_fitting(&whole, shapes) || !applies(alloc, &whole, tables)? {
        return Ok(false);
    }
    Ok(tables.passed_after(alloc, &whole, shapes)?.is_none())
}

// One edit of all changes, one edit after the other.
fn joined(alloc: Global, edits: &[Edit]) -> Result<Edit, NoMemory>
    ensures { IfOk result (λ whole. whole ≡ flat edits.now) }
{
    let mut changes = Vec::new(alloc);
    for edit in edits {
        changes.append(&mut copy_edit(alloc, edit)?.into_vec())?;
    }
    Ok(Edit::from_vec(changes))
}

// Whether each rule that is put in may stand in its table.
fn are_fitting(edit: &Edit, shapes: &Shapes) -> bool
    ensures { result ≡ list_all (is_fitting shapes.now) edit.now }
{
    edit.as_slice()
        .iter()
        .all(|change| is_fitting(change, shapes))
}

fn is_fitting(change: &Change, shapes: &Shapes) -> bool
    ensures { result ≡ is_fitting shapes.now change.now }
{
    match change {
        Change::Insert { table, rule } => may_stand(shapes, *table, rule),
        Change::Remove { .. } => true,
        Change::Replace { table, new, .. } => may_stand(shapes, *table, new),
    }
}

/// Whether a rule may stand in a table: the shapes have the table, and the rule has its number of columns and no field of
/// more than 4,096 bytes. It takes no memory.
pub fn may_stand(shapes: &Shapes, table: TableId, rule: &Rule) -> bool
    ensures { result ≡ may_stand shapes.now table rule.now }
{
    match columns_of(shapes, table) {
        Some(columns) => rule.len() == columns && has_short_fields(rule),
        None => false,
    }
}

// Whether the changes apply one after the other.
fn applies(alloc: Global, edit: &Edit, tables: &Tables) -> Result<bool, NoMemory>
    ensures { IfOk result (λ applied. applied ≡ applies edit.now tables.now.policy) }
{
    let changes = edit.as_slice();
    if changes.len() == 1 {
        return Ok(tables.allows(&changes[0]));
    }
    told_apply(alloc, changes, tables)
}

// The same for any number of changes: none is made, but each is told to those behind it.
fn told_apply(alloc: Global, changes: &[Change], tables: &Tables) -> Result<bool, NoMemory>
    ensures { IfOk result (λ applied. applied ≡ applies changes.now tables.now.policy) }
{
    tables.kept();
    let mut told = IndexMap::new(alloc);
    for change in changes {
        if !tell_change(&mut told, tables, change)? {
            return Ok(false);
        }
    }
    Ok(true)
}
