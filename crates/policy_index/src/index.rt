ghost use Rattle.std.specs.Prelude.{◌≡◌, IfOk, List, OnOk, true};
ghost use Rattle.perm_base.specs.declared.shapes.TableId.TheVariants.{P};
ghost use Rattle.policy_table.specs.Changes.{flat};
ghost use Rattle.policy_table.specs.Tables.{Fields, rows};
ghost use Rattle.policy_table.specs.declared.change.Change.{Change};
ghost use Rattle.policy_index.specs.Indexed.{IsIndexIn, IsIndexOf, IsReadyFor, all_fit};
ghost use Rattle.policy_index.specs.Keys.{HaveColumns};

use crate::fronts::Fronts;
use crate::key::RowKey;
use crate::mark::{Mark, mark_of};
use crate::room::{count_taken, reserve};
use crate::slots::Slots;
use outside::{NoMemory, Share};
use perm_base::TableId;
use policy_table::{Edit, Tables};
use std::alloc::Global;
use std::marker::Model;

/// An index of p by a key: of each row it keeps a hash of the key, by the row's slot, and the slots by these hashes. It keeps no
/// text; contracts name the rows of which it is an index. They see the key, what is kept of each row, and the room.
pub struct Index {
    pub(crate) key: RowKey,
    pub(crate) marks: Vec<Mark>,
    pub(crate) slots: Slots,
    pub(crate) fronts: Fronts,
    // Where the slot of each row stands in the list of its hash.
    pub(crate) places: Vec<u32>,
    // Hashes whose last slot went since they were last let go.
    pub(crate) emptied: Vec<u64>,
}

// Written out, so that a caller's proof sees one call and not the drop of each field.
impl Drop for Index {
    fn drop(self) {
        let Index {
            key: _key,
            marks: _marks,
            slots: _slots,
            fronts: _fronts,
            places: _places,
            emptied: _emptied,
        } = self;
    }
}

impl Model for Index {
    ghost use Rattle.std.specs.Prelude.{◌-◌, min, vec_capacity, vec_len};
    ghost use Rattle.policy_index.specs.Helps.Kept.{IsIndex};
    ghost use Rattle.policy_index.specs.Indexed.{Indexed};

    ghost Value = { Indexed };

    ghost view = { λ i. record {
      key = i.key;
      marks = i.marks.items;
      spare = min (vec_capacity i.marks - vec_len i.marks)
          (vec_capacity i.places - vec_len i.places);
      lists = i.slots;
    } };

    ghost invariant = { λ i. IsIndex i.marks.items i.slots i.fronts i.places.items };
}

impl Index {
    /// The index of p of these tables by a key. Its time is linear in the rows.
    pub fn make(alloc: Global, tables: &Tables, key: RowKey) -> Result<Index, NoMemory>
        requires { HaveColumns key (rows tables.now.policy P) }
        ensures key { IfOk result (λ index. index.key ≡ key) }
        ensures rows { IfOk result (λ index. IsIndexIn index tables.now) }
    {
        let mut index = Index::empty(alloc, key);
        for rule in tables.by_slot(TableId::P) {
            let mark = mark_of(&index.key, rule);
            index.add(alloc, mark)?;
        }
        Ok(index)
    }

    /// The same index once more, its room aside. Its time is linear in the rows.
    pub fn copy(&self, alloc: Global) -> Result<Index, NoMemory>
        ensures key { IfOk result (λ copy. copy.key ≡ self.now.key) }
        ensures rows { IfOk result (λ copy. (by_slot : List Fields)
            → IsIndexOf self.now by_slot → IsIndexOf copy by_slot) }
    {
        let key = self.key.copy(alloc)?;
        let marks = Vec::from_slice(alloc, self.marks.as_slice())?;
        let slots = self.slots.copy(alloc)?;
        let fronts = self.fronts.copy();
        let places = Vec::from_slice(alloc, self.places.as_slice())?;
        let emptied = Vec::new(alloc);
        Ok(Index {
            key,
            marks,
            slots,
            fronts,
            places,
            emptied,
        })
    }

    /// By what it finds rows.
    pub fn key(&self) -> &RowKey
        ensures { result.now ≡ self.now.key }
    {
        &self.key
    }

    /// Makes room for the changes of p of edits, so that to follow them takes no memory; changes of other tables are passed over.
    /// The index is of the same rows as before, whatever the answer, and room that was made for other edits stays. Its time
    /// grows with the edits alone.
    pub fn prepare(&mut self, alloc: Global, edits: &[Edit]) -> Result<(), NoMemory>
        requires columns { all_fit self.old.key (flat edits.now) ≡ true }
        ensures key { self.new.key ≡ self.old.key }
        ensures stays { (by_slot : List Fields)
            → IsIndexOf self.old by_slot → IsIndexOf self.new by_slot }
        ensures ready { OnOk result (IsReadyFor self.new (flat edits.now)) }
        ensures others { (changes : List Change)
            → IsReadyFor self.old changes → IsReadyFor self.new changes }
    {
        reserve(&mut self.slots, alloc, &self.key, edits)?;
        let taken = count_taken(edits)?;
        if taken > u32::MAX - self.marks.len() as u32 {
            return Err(NoMemory);
        }
        self.marks.reserve(taken as usize)?;
        self.places.reserve(taken as usize)?;
        self.emptied.reserve(edits.len())?;
        Ok(())
    }
}

impl Share for Index {}
