ghost use Rattle.std.specs.Prelude.{◌≡◌, ℕ, ◌+◌, ◌<◌, ◌≤◌, ◌==◌, ◌&&◌, ◌^◌, ◌∷◌, ◌++◌, [], List, OnOk, Some, false, length, nat_eq, position, slice_set, swap_remove, true};
ghost use Rattle.std.specs.List.{IsDistinct, count_by};
ghost use Rattle.indexmap.specs.IndexMap.{swap_remove_by};
ghost use Rattle.perm_base.specs.declared.shapes.TableId.TheVariants.{P};
ghost use Rattle.policy_table.specs.Changes.{in_place, is_possible};
ghost use Rattle.policy_table.specs.Slots.{slots};
ghost use Rattle.policy_table.specs.Tables.{Fields, rows, same, stands};
ghost use Rattle.policy_table.specs.declared.change.Change.{Change};
ghost use Rattle.policy_index.specs.Hashes.{mark_of};
ghost use Rattle.policy_index.specs.Helps.Kept.{one_if};
ghost use Rattle.policy_index.specs.Keys.{is_below};
ghost use Rattle.policy_index.specs.Indexed.{IsIndexIn, IsIndexOf, IsReadyFor, slots_behind};
ghost use Rattle.policy_index.specs.Lists.{room_at, slots_at};
ghost use Rattle.policy_index.specs.declared.mark.Mark.{Mark};

use crate::index::Index;
use crate::mark::{Mark, mark_of};
use crate::places::{next_place, rename, unlist};
use crate::room::is_of_p;
use crate::slots::Slots;
use outside::NoMemory;
use perm_base::{Rule, TableId};
use policy_table::{Change, Tables};
use std::alloc::Global;

impl Index {
    /// Follows a change of tables, before it is made in these. It is the first of changes for which there is room; for the others
    /// there is room afterwards. It takes no memory, and its time does not grow with the rows.
    pub fn follow(&mut self, change: &Change, tables: &Tables)
        requires index { IsIndexIn self.old tables.now }
        requires ready { (changes : List Change) × IsReadyFor self.old (change.now ∷ changes) }
        requires possible { is_possible change.now tables.now.policy ≡ true }
        ensures key { self.new.key ≡ self.old.key }
        ensures index { IsIndexOf self.new (slots_behind change.now (slots tables.now P)) }
        ensures ready { (changes : List Change)
            → IsReadyFor self.old (change.now ∷ changes) → IsReadyFor self.new changes }
    {
        if !is_of_p(change) {
            return;
        }
        match change {
            Change::Insert { rule, .. } => self.insert(rule, tables),
            Change::Remove { rule, .. } => self.take(rule, tables),
            Change::Replace { old, new, .. } => self.replace(old, new, tables),
        }
    }

    /// Lets hashes go whose rows are all gone, once the changes for which there was room are made.
    pub fn forget_emptied(&mut self)
        ensures key { self.new.key ≡ self.old.key }
        ensures stays { (by_slot : List Fields)
            → IsIndexOf self.old by_slot → IsIndexOf self.new by_slot }
    {
        forget_all(&mut self.slots, &mut self.emptied);
    }

    // Follows a rule that is put into the next slot of p.
    fn insert(&mut self, rule: &Rule, tables: &Tables)
        requires index { IsIndexIn self.old tables.now }
        requires few { length self.old.marks + 1 < 2 ^ 32 }
        requires fits { is_below (length rule.now) self.old.key ≡ true }
        requires spare { 0 < self.old.spare }
        requires room { 0 < room_at self.old.lists (mark_of self.old.key rule.now).hash }
        ensures key { self.new.key ≡ self.old.key }
        ensures index { IsIndexOf self.new (slots tables.now P ++ rule.now ∷ []) }
        ensures marks { length self.new.marks ≡ length self.old.marks + 1 }
        ensures spare { self.old.spare ≤ self.new.spare + 1 }
        ensures room { (hash : ℕ) → room_at self.old.lists hash ≤ room_at self.new.lists hash
            + one_if ((mark_of self.old.key rule.now).hash == hash) }
    {
        let mark = mark_of(&self.key, rule);
        self.push(mark);
    }

    // Follows a rule that is taken out of p.
    fn take(&mut self, rule: &Rule, tables: &Tables)
        requires index { IsIndexIn self.old tables.now }
        requires stands { stands rule.now (rows tables.now.policy P) ≡ true }
        ensures key { self.new.key ≡ self.old.key }
        ensures index { IsIndexOf self.new
            (swap_remove_by (same rule.now) (slots tables.now P)) }
        ensures marks { length self.new.marks ≤ length self.old.marks }
        ensures spare { self.old.spare ≤ self.new.spare }
        ensures room { (hash : ℕ) → room_at self.old.lists hash ≤ room_at self.new.lists hash }
    {
        let slot = slot_of(tables, rule);
        self.remove(slot);
    }

    // Follows a rule that comes into the slot of another.
    fn replace(&mut self, old: &Rule, new: &Rule, tables: &Tables)
        requires index { IsIndexIn self.old tables.now }
        requires stands { stands old.now (rows tables.now.policy P) ≡ true }
        requires fits { is_below (length new.now) self.old.key ≡ true }
        requires room { 0 < room_at self.old.lists (mark_of self.old.key new.now).hash }
        ensures key { self.new.key ≡ self.old.key }
        ensures index { IsIndexOf self.new (in_place old.now new.now (slots tables.now P)) }
        ensures marks { length self.new.marks ≡ length self.old.marks }
        ensures spare { self.old.spare ≤ self.new.spare }
        ensures room { (hash : ℕ) → room_at self.old.lists hash ≤ room_at self.new.lists hash
            + one_if ((mark_of self.old.key new.now).hash == hash) }
    {
        let slot = slot_of(tables, old);
        let mark = mark_of(&self.key, new);
        self.set(slot, mark);
    }

    /// Puts a row into the next slot, and makes room for it first.
    pub(crate) fn add(&mut self, alloc: Global, mark: Mark) -> Result<(), NoMemory>
        requires few { length self.old.marks + 1 < 2 ^ 32 }
        ensures key { self.new.key ≡ self.old.key }
        ensures marks { OnOk result (self.new.marks ≡ self.old.marks ++ mark ∷ []) }
    {
        self.marks.reserve(1)?;
        self.places.reserve(1)?;
        self.slots.reserve(alloc, mark.hash, 1)?;
        self.push(mark);
        Ok(())
    }

    // Puts a row into the next slot.
    fn push(&mut self, mark: Mark)
        requires few { length self.old.marks + 1 < 2 ^ 32 }
        requires spare { 0 < self.old.spare }
        requires room { 0 < room_at self.old.lists mark.hash }
        ensures key { self.new.key ≡ self.old.key }
        ensures marks { self.new.marks ≡ self.old.marks ++ mark ∷ [] }
        ensures spare { self.old.spare ≤ self.new.spare + 1 }
        ensures room { (hash : ℕ) → room_at self.old.lists hash
            ≤ room_at self.new.lists hash + one_if (mark.hash == hash) }
    {
        let slot = self.marks.len() as u32;
        let place = next_place(&self.slots, mark.hash);
        self.slots.put(mark.hash, slot);
        self.fronts.add(mark.front);
        self.marks.push_reserved(mark);
        self.places.push_reserved(place);
    }

    /// Takes the row of a slot out, and puts that of the last slot there.
    pub(crate) fn remove(&mut self, slot: u32)
        requires { slot < length self.old.marks }
        ensures key { self.new.key ≡ self.old.key }
        ensures marks { (mark : Mark) → self.new.marks ≡ swap_remove self.old.marks slot mark }
        ensures spare { self.old.spare ≤ self.new.spare }
        ensures room { (hash : ℕ) → room_at self.old.lists hash ≤ room_at self.new.lists hash }
    {
        let last = self.marks.len() - 1;
        let moved = self.marks[last];
        let gone = self.marks.swap_remove(slot as usize);
        unlist(&mut self.slots, &mut self.places, gone.hash, slot);
        let place = self.places[last];
        let _place = self.places.swap_remove(slot as usize);
        rename(&mut self.slots, moved.hash, last as u32, slot, place);
        self.fronts.take(gone.front);
        note(&mut self.emptied, gone.hash);
    }

    /// Puts another row into a slot, for the one that is there.
    pub(crate) fn set(&mut self, slot: u32, mark: Mark)
        requires slot { slot < length self.old.marks }
        requires room { 0 < room_at self.old.lists mark.hash }
        ensures key { self.new.key ≡ self.old.key }
        ensures marks { self.new.marks ≡ slice_set self.old.marks slot mark }
        ensures spare { self.old.spare ≤ self.new.spare }
        ensures room { (hash : ℕ) → room_at self.old.lists hash
            ≤ room_at self.new.lists hash + one_if (mark.hash == hash) }
    {
        let gone = self.marks[slot as usize];
        self.marks[slot as usize] = mark;
        unlist(&mut self.slots, &mut self.places, gone.hash, slot);
        let place = next_place(&self.slots, mark.hash);
        self.places[slot as usize] = place;
        self.slots.put(mark.hash, slot);
        self.fronts.take(gone.front);
        self.fronts.add(mark.front);
        note(&mut self.emptied, gone.hash);
    }
}

// The slot of a rule of p that stands.
fn slot_of(tables: &Tables, rule: &Rule) -> u32
    requires { stands rule.now (rows tables.now.policy P) ≡ true }
    ensures found { position (same rule.now) (slots tables.now P) ≡ Some result }
    ensures within { result < length (slots tables.now P) }
    ensures once { IsDistinct same (slots tables.now P) }
{
    let _by_slot = tables.by_slot(TableId::P);
    let Some(slot) = tables.slot_of(TableId::P, rule) else {
        unreachable!()
    };
    slot
}

// Notes a hash whose slots may all be gone, where there is room for it.
fn note(emptied: &mut Vec<u64>, hash: u64) {
    if emptied.len() < emptied.capacity() {
        let _noted = emptied.push(hash);
    }
}

// Lets the hashes go that are noted and have no slots.
fn forget_all(slots: &mut Slots, emptied: &mut Vec<u64>)
    ensures { (hash : ℕ) → slots_at slots.new hash ≡ slots_at slots.old hash }
{
    while let Some(hash) = emptied.pop() {
        slots.forget(hash);
    }
}
