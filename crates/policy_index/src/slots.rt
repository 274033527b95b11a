ghost use Rattle.std.specs.Prelude.{◌≡◌, ℕ, ◌+◌, ◌-◌, ◌<◌, ◌≤◌, ◌==◌, [], ◌∷◌, ◌++◌, IfOk, OnOk, Some, false, if◌then◌else◌, get_or, length, nat_eq, slice_get, slice_set, swap_remove};
ghost use Rattle.std.specs.List.{IsDistinct};
ghost use Rattle.std.specs.Map.{keys_of};
ghost use Rattle.policy_index.specs.Helps.Kept.{one_if};
ghost use Rattle.policy_index.specs.Lists.{room_at, slots_at};

use crate::slot_list::SlotList;
use indexmap::IndexMap;
use outside::{NoMemory, Share};
use std::alloc::Global;
use std::marker::Model;

/// The slots of rows by a hash. Contracts see for each hash its slots, and how many more it takes without memory.
pub(crate) struct Slots {
    lists: IndexMap<u64, SlotList>,
}

// Written out, so that a caller's proof sees one call and not the drop of each field.
impl Drop for Slots {
    fn drop(self) {
        let Slots { lists: _lists } = self;
    }
}

impl Model for Slots {
    ghost use Rattle.policy_index.specs.Lists.{Lists};

    ghost Value = { Lists };

    ghost view = { λ s. s.lists.entries };
}

impl Slots {
    pub(crate) fn new(alloc: Global) -> Slots
        ensures { result ≡ [] }
    {
        Slots {
            lists: IndexMap::new(alloc),
        }
    }

    /// The slots of a hash.
    pub(crate) fn of(&self, hash: u64) -> &[u32]
        ensures { result.now ≡ slots_at self.now hash }
    {
        match self.lists.get(&hash) {
            Some(list) => list.as_slice(),
            None => &[],
        }
    }

    /// Makes room for so many further slots of a hash.
    pub(crate) fn reserve(&mut self, alloc: Global, hash: u64, count: usize) -> Result<(), NoMemory>
        ensures slots { (other : ℕ) → slots_at self.new other ≡ slots_at self.old other }
        ensures room { OnOk result (count ≤ room_at self.new hash) }
        ensures more { (other : ℕ) → room_at self.old other ≤ room_at self.new other }
    {
        if let Some(list) = self.lists.get_mut(&hash) {
            return list.reserve(count);
        }
        let mut list = SlotList::new(alloc);
        list.reserve(count)?;
        let _none = self.lists.insert(hash, list)?;
        Ok(())
    }

    /// Puts a slot under a hash.
    pub(crate) fn put(&mut self, hash: u64, slot: u32)
        requires { 0 < room_at self.old hash }
        ensures slots { (other : ℕ) → slots_at self.new other
            ≡ (if hash == other then slots_at self.old other ++ slot ∷ []
            else slots_at self.old other) }
        ensures room { (other : ℕ) → room_at self.old other
            ≤ room_at self.new other + one_if (hash == other) }
    {
        let Some(list) = self.lists.get_mut(&hash) else {
            unreachable!()
        };
        list.push(slot);
    }

    /// Puts a slot under a hash, and makes room for it first.
    pub(crate) fn add(&mut self, alloc: Global, hash: u64, slot: u32) -> Result<(), NoMemory>
        ensures { OnOk result ((other : ℕ) → slots_at self.new other
            ≡ (if hash == other then slots_at self.old other ++ slot ∷ []
            else slots_at self.old other)) }
    {
        self.reserve(alloc, hash, 1)?;
        self.put(hash, slot);
        Ok(())
    }

    /// Takes the slot at a place under a hash out, and puts the last one there; that last one.
    pub(crate) fn take(&mut self, hash: u64, at: u32) -> u32
        requires { at < length (slots_at self.old hash) }
        ensures slots { (other : ℕ) → slots_at self.new other
            ≡ (if hash == other then swap_remove (slots_at self.old other) at 0
            else slots_at self.old other) }
        ensures last { result
            ≡ get_or (slots_at self.old hash) (length (slots_at self.old hash) - 1) 0 }
        ensures room { (other : ℕ) → room_at self.old other + one_if (hash == other)
            ≤ room_at self.new other }
    {
        let Some(list) = self.lists.get_mut(&hash) else {
            unreachable!()
        };
        list.take(at as usize)
    }

    /// Puts a slot at a place under a hash, for the one that is there.
    pub(crate) fn set(&mut self, hash: u64, at: u32, slot: u32)
        requires { at < length (slots_at self.old hash) }
        ensures slots { (other : ℕ) → slots_at self.new other
            ≡ (if hash == other then slice_set (slots_at self.old other) at slot
            else slots_at self.old other) }
        ensures room { (other : ℕ) → room_at self.new other ≡ room_at self.old other }
    {
        let Some(list) = self.lists.get_mut(&hash) else {
            unreachable!()
        };
        list.set(at as usize, slot);
    }

    /// Lets a hash go that has no slots, and its room with it.
    pub(crate) fn forget(&mut self, hash: u64)
        ensures slots { (other : ℕ) → slots_at self.new other ≡ slots_at self.old other }
        ensures room { (other : ℕ) → (hash == other) ≡ false
            → room_at self.new other ≡ room_at self.old other }
    {
        let Some(list) = self.lists.get(&hash) else {
            return;
        };
        if list.is_empty() {
            let gone = self.lists.swap_remove(&hash);
            drop(gone);
        }
    }

    /// The same slots once more.
    pub(crate) fn copy(&self, alloc: Global) -> Result<Slots, NoMemory>
        ensures { IfOk result (λ copy. (hash : ℕ) → slots_at copy hash ≡ slots_at self.now hash) }
    {
        let len = self.len();
        let mut lists = IndexMap::with_capacity(alloc, len)?;
        for at in 0..len {
            let (hash, list) = self.entry(at);
            let _none = lists.insert(hash, list.copy(alloc)?)?;
        }
        Ok(Slots { lists })
    }

    // How many different hashes there are.
    fn len(&self) -> usize
        ensures value { result ≡ length self.now }
        ensures once { IsDistinct nat_eq (keys_of self.now) }
    {
        self.lists.len()
    }

    // The hash at a place among them, and its slots.
    fn entry(&self, at: usize) -> (u64, &SlotList)
        requires { at < length self.now }
        ensures { slice_get self.now at ≡ Some (result.0, result.1.now) }
    {
        let Some((hash, list)) = self.lists.get_index(at) else {
            unreachable!()
        };
        (*hash, list)
    }
}

impl Share for Slots {}
