//! What finds the rows of one table.

ghost use Rattle.std.specs.Prelude.{◌≡◌, ℕ, IfOk, IfSome, List, true};
ghost use Rattle.indexmap.specs.IndexMap.{swap_remove_by};
ghost use Rattle.policy_table.specs.Changes.{in_place, is_possible, is_table};
ghost use Rattle.policy_table.specs.Held.{Held};
ghost use Rattle.policy_table.specs.Slots.{slots, slots_after, slots_changed};
ghost use Rattle.policy_table.specs.Tables.{rows, same};
ghost use Rattle.policy_index.specs.Finders.{IsFinderIn};
ghost use Rattle.policy_index.specs.Found.{FindRows};
ghost use Rattle.policy_index.specs.Hashes.{IsKeyOf};
ghost use Rattle.policy_index.specs.Indexed.{IsIndexOf};
ghost use Rattle.policy_index.specs.Keys.{has_texts};

use crate::index::Index;
use crate::key::RowKey;
use crate::order::put_rows_in_order;
use outside::{NoMemory, Share};
use perm_base::{Rule, TableId};
use policy_table::{Change, Tables};
use std::alloc::Global;
use std::marker::Model;

/// Finds the rows of one table by the texts of some columns, and follows its changes. Contracts see the table, and the index of
/// its rows.
pub(crate) struct FilterIndex {
    table: TableId,
    index: Index,
}

// Written out, so that a caller's proof sees one call and not the drop of each field.
impl Drop for FilterIndex {
    fn drop(self) {
        let FilterIndex {
            table: _table,
            index: _index,
        } = self;
    }
}

impl Model for FilterIndex {
    ghost use Rattle.policy_index.specs.Finders.{Sought};

    ghost Value = { Sought };

    ghost view = { λ f. record { table = f.table; index = f.index } };
}

impl FilterIndex {
    /// That of a table by these columns; none where memory runs out, or where a row lacks one of them. Its time is linear in the
    /// rows.
    pub(crate) fn make(
        alloc: Global,
        tables: &Tables,
        table: TableId,
        columns: Vec<u32>,
    ) -> Option<FilterIndex>
        ensures { IfSome result (IsFinderIn tables.now) }
    {
        let mut index = Index::empty(alloc, RowKey::new(columns, None));
        for rule in tables.by_slot(table) {
            if !index.append(alloc, rule) {
                return None;
            }
        }
        Some(FilterIndex { table, index })
    }

    /// Whether it is that of a table by these columns.
    pub(crate) fn is_by(&self, table: TableId, columns: &[u32]) -> bool
        ensures table { result ≡ true → self.now.table ≡ table }
        ensures columns { result ≡ true → self.now.index.key.columns ≡ columns.now }
    {
        if !is_table(self.table, table) {
            return false;
        }
        are_same(self.index.key().columns(), columns)
    }

    /// The places, counted from 0 and rising, of all rows that have the texts of a hash in the columns; others may be among them,
    /// since rows that differ can have one hash. Its time grows with these rows, and with the logarithm of the table.
    pub(crate) fn find(
        &self,
        alloc: Global,
        tables: &Tables,
        hash: u64,
    ) -> Result<Vec<u32>, NoMemory>
        requires finder { IsFinderIn tables.now self.now }
        requires texts { (texts : List (List ℕ)) × IsKeyOf hash texts }
        ensures { IfOk result (λ places. (texts : List (List ℕ)) → IsKeyOf hash texts
            → FindRows (has_texts self.now.index.key.columns texts)
            (rows tables.now.policy self.now.table) places.items) }
    {
        let _by_slot = tables.by_slot(self.table);
        let mut places = Vec::new(alloc);
        self.index.gather(hash, &[], &mut places)?;
        put_rows_in_order(tables, self.table, &mut places);
        Ok(places)
    }

    /// Follows a change of tables, before it is made in these; whether it could. Where it could not, for want of memory or since a
    /// rule lacks a column, it is of no use any more. Its time does not grow with the rows.
    pub(crate) fn follow(&mut self, alloc: Global, change: &Change, tables: &Tables) -> bool
        requires finder { IsFinderIn tables.now self.old }
        requires possible { is_possible change.now tables.now.policy ≡ true }
        ensures { result ≡ true → (after : Held)
            → after.slots ≡ slots_changed change.now tables.now.slots → IsFinderIn after self.new }
    {
        let _by_slot = tables.by_slot(self.table);
        if !is_table(self.table, change.table()) {
            return true;
        }
        follow_own(&mut self.index, alloc, self.table, change, tables)
    }
}

impl Share for FilterIndex {}

// Follows a change of its table in an index; whether it could.
fn follow_own(
    index: &mut Index,
    alloc: Global,
    table: TableId,
    change: &Change,
    tables: &Tables,
) -> bool
    requires { IsIndexOf index.old (slots tables.now table) }
    ensures key { index.new.key ≡ index.old.key }
    ensures rows { result ≡ true
        → IsIndexOf index.new (slots_after change.now (slots tables.now table)) }
{
    match change {
        Change::Insert { rule, .. } => index.append(alloc, rule),
        Change::Remove { rule, .. } => follow_removed(index, table, rule, tables),
        Change::Replace { old, new, .. } => follow_replaced(index, alloc, table, old, new, tables),
    }
}

// Follows a rule that is taken out of the table of an index; whether it could.
fn follow_removed(index: &mut Index, table: TableId, rule: &Rule, tables: &Tables) -> bool
    requires { IsIndexOf index.old (slots tables.now table) }
    ensures key { index.new.key ≡ index.old.key }
    ensures rows { result ≡ true
        → IsIndexOf index.new (swap_remove_by (same rule.now) (slots tables.now table)) }
{
    let Some(slot) = tables.slot_of(table, rule) else {
        return false;
    };
    index.take_row(slot)
}

// Follows a rule that comes into the slot of another; whether it could.
fn follow_replaced(
    index: &mut Index,
    alloc: Global,
    table: TableId,
    old: &Rule,
    new: &Rule,
    tables: &Tables,
) -> bool
    requires { IsIndexOf index.old (slots tables.now table) }
    ensures key { index.new.key ≡ index.old.key }
    ensures rows { result ≡ true
        → IsIndexOf index.new (in_place old.now new.now (slots tables.now table)) }
{
    let _by_slot = tables.by_slot(table);
    let Some(slot) = tables.slot_of(table, old) else {
        return false;
    };
    index.put_row(alloc, slot, new)
}

// Whether two names are of one table.
fn is_table(table: TableId, other: TableId) -> bool
    ensures { result ≡ is_table table other }
{
    table == other
}

// Whether the one list of columns is the other.
fn are_same(one: &[u32], other: &[u32]) -> bool
    ensures { result ≡ true → one.now ≡ other.now }
{
    one == other
}
