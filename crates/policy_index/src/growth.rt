//! An index that takes memory of its own as its rows change.

ghost use Rattle.std.specs.Prelude.{◌≡◌, ◌+◌, ◌<◌, ◌^◌, ◌∷◌, ◌++◌, [], List, Some, length, position, swap_remove, true};
ghost use Rattle.std.specs.List.{IsDistinct};
ghost use Rattle.policy_table.specs.Changes.{in_place};
ghost use Rattle.policy_table.specs.Tables.{Fields, same};
ghost use Rattle.policy_index.specs.Indexed.{IsIndexOf};
ghost use Rattle.policy_index.specs.Keys.{is_below};

use crate::fronts::Fronts;
use crate::index::Index;
use crate::key::RowKey;
use crate::mark::mark_of;
use crate::slots::Slots;
use perm_base::Rule;
use std::alloc::Global;

// The greatest number of rows, by which a slot fits its number.
const MOST_ROWS: usize = 4_294_967_295;

impl Index {
    /// An index of no rows.
    pub(crate) fn empty(alloc: Global, key: RowKey) -> Index
        ensures key { result.key ≡ key }
        ensures marks { result.marks ≡ [] }
    {
        Index {
            key,
            marks: Vec::new(alloc),
            slots: Slots::new(alloc),
            fronts: Fronts::new(),
            places: Vec::new(alloc),
            emptied: Vec::new(alloc),
        }
    }

    /// Puts a row into the next slot; whether it could. It cannot where memory runs out, where the row lacks a column, and where
    /// there are 2^32 - 1 rows.
    pub(crate) fn append(&mut self, alloc: Global, rule: &Rule) -> bool
        ensures key { self.new.key ≡ self.old.key }
        ensures rows { result ≡ true → (by_slot : List Fields) → IsIndexOf self.old by_slot
            → IsIndexOf self.new (by_slot ++ rule.now ∷ []) }
    {
        if !has_room(self.marks.len()) {
            return false;
        }
        if !has_columns(&self.key, rule) {
            return false;
        }
        let mark = mark_of(&self.key, rule);
        let Ok(()) = self.add(alloc, mark) else {
            return false;
        };
        true
    }

    /// Takes the row of a slot out, and puts that of the last slot there; whether it could. It cannot where memory runs out.
    pub(crate) fn take_row(&mut self, slot: u32) -> bool
        requires slot { slot < length self.old.marks }
        ensures key { self.new.key ≡ self.old.key }
        ensures rows { result ≡ true → (by_slot : List Fields) → IsIndexOf self.old by_slot
            → IsIndexOf self.new (swap_remove by_slot slot []) }
    {
        // Room for the hash of the row, by which it is let go where it is the last with it.
        let Ok(()) = self.emptied.reserve(1) else {
            return false;
        };
        self.remove(slot);
        self.forget_emptied();
        true
    }

    /// Puts another row into a slot, for the one that is there; whether it could. It cannot where memory runs out, and where the
    /// row lacks a column.
    pub(crate) fn put_row(&mut self, alloc: Global, slot: u32, rule: &Rule) -> bool
        requires slot { slot < length self.old.marks }
        ensures key { self.new.key ≡ self.old.key }
        ensures rows { result ≡ true → (by_slot : List Fields) (gone : Fields)
            → IsIndexOf self.old by_slot → IsDistinct same by_slot
            → position (same gone) by_slot ≡ Some slot
            → IsIndexOf self.new (in_place gone rule.now by_slot) }
    {
        if !has_columns(&self.key, rule) {
            return false;
        }
        let mark = mark_of(&self.key, rule);
        let Ok(()) = self.emptied.reserve(1) else {
            return false;
        };
        let Ok(()) = self.slots.reserve(alloc, mark.hash, 1) else {
            return false;
        };
        self.set(slot, mark);
        self.forget_emptied();
        true
    }
}

// Whether there may be a row more than so many.
fn has_room(rows: usize) -> bool
    ensures { result ≡ true → rows + 1 < 2 ^ 32 }
{
    rows < MOST_ROWS
}

// Whether a rule has the columns of a key.
fn has_columns(key: &RowKey, rule: &Rule) -> bool
    ensures { result ≡ is_below (length rule.now) key.now }
{
    key.is_below(rule.len())
}
