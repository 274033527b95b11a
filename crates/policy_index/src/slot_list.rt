ghost use Rattle.std.specs.Prelude.{◌≡◌, ◌+◌, ◌-◌, ◌<◌, ◌≤◌, ◌==◌, [], ◌∷◌, ◌++◌, IfOk, OnOk, get_or, length, slice_set, swap_remove};
ghost use Rattle.smallvec.specs.SmallVec.{small_vec_len};

use outside::{NoMemory, Share};
use smallvec::SmallVec;
use std::alloc::Global;
use std::marker::Model;

/// Slots of rows, of which a few need no memory of their own. Contracts see them, and how many more are taken without memory.
#[derive(Drop)]
pub(crate) struct SlotList {
    slots: SmallVec<u32, 2>,
}

impl Model for SlotList {
    ghost use Rattle.std.specs.Prelude.{◌-◌};
    ghost use Rattle.smallvec.specs.SmallVec.{small_vec_len};
    ghost use Rattle.policy_index.specs.Lists.{Listed};

    ghost Value = { Listed };

    ghost view = { λ l. record {
      slots = l.slots.items;
      room = l.slots.capacity - small_vec_len l.slots;
    } };
}

impl SlotList {
    pub(crate) fn new(alloc: Global) -> SlotList
        ensures { result.slots ≡ [] }
    {
        SlotList {
            slots: SmallVec::new(alloc),
        }
    }

    pub(crate) fn as_slice(&self) -> &[u32]
        ensures { result.now ≡ self.now.slots }
    {
        self.slots.as_slice()
    }

    pub(crate) fn is_empty(&self) -> bool
        ensures { result ≡ (length self.now.slots == 0) }
    {
        self.slots.len() == 0
    }

    /// Makes room for so many further slots.
    pub(crate) fn reserve(&mut self, count: usize) -> Result<(), NoMemory>
        ensures slots { self.new.slots ≡ self.old.slots }
        ensures room { OnOk result (count ≤ self.new.room) }
        ensures more { self.old.room ≤ self.new.room }
    {
        Ok(self.slots.reserve(count)?)
    }

    /// Puts a slot behind the others.
    pub(crate) fn push(&mut self, slot: u32)
        requires { 0 < self.old.room }
        ensures slots { self.new.slots ≡ self.old.slots ++ slot ∷ [] }
        ensures room { self.old.room ≤ self.new.room + 1 }
    {
        self.slots.push_reserved(slot);
    }

    /// Takes the slot at a place out, and puts the last one there; that last one.
    pub(crate) fn take(&mut self, at: usize) -> u32
        requires { at < length self.old.slots }
        ensures slots { self.new.slots ≡ swap_remove self.old.slots at 0 }
        ensures last { result ≡ get_or self.old.slots (length self.old.slots - 1) 0 }
        ensures room { self.old.room + 1 ≤ self.new.room }
    {
        let _held = self.slots.len();
        let last = last_of(self.slots.as_slice());
        let _gone = self.slots.swap_remove(at);
        last
    }

    /// Puts a slot at a place, for the one that is there.
    pub(crate) fn set(&mut self, at: usize, slot: u32)
        requires { at < length self.old.slots }
        ensures slots { self.new.slots ≡ slice_set self.old.slots at slot }
        ensures room { self.new.room ≡ self.old.room }
    {
        write(&mut self.slots, at, slot);
    }

    /// The same slots once more.
    pub(crate) fn copy(&self, alloc: Global) -> Result<SlotList, NoMemory>
        ensures { IfOk result (λ copy. copy.slots ≡ self.now.slots) }
    {
        Ok(SlotList {
            slots: SmallVec::from_slice(alloc, self.as_slice())?,
        })
    }
}

impl Share for SlotList {}

// The last of some slots.
fn last_of(slots: &[u32]) -> u32
    requires { 0 < length slots.now }
    ensures { result ≡ get_or slots.now (length slots.now - 1) 0 }
{
    slots[slots.len() - 1]
}

// Writes a slot at a place.
fn write(slots: &mut SmallVec<u32, 2>, at: usize, slot: u32)
    requires { at < small_vec_len slots.old }
    ensures items { slots.new.items ≡ slice_set slots.old.items at slot }
    ensures capacity { slots.new.capacity ≡ slots.old.capacity }
    ensures len { small_vec_len slots.new ≡ small_vec_len slots.old }
{
    if let Some(held) = slots.get_mut(at) {
        *held = slot;
    }
}
