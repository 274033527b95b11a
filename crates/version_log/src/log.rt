ghost use Rattle.std.specs.Prelude.{◌≡◌, ◌+◌, ◌-◌, ◌<◌, ◌≤◌, ◌++◌, ◌∷◌, ℕ, List, [], IfOk, OnOk, Some, drop, length, slice_get};
ghost use Rattle.policy_table.specs.declared.change.Change.{Change};
ghost use Rattle.version_log.specs.Log.{Stands, most_versions, versions};

use outside::{NoMemory, Share};
use policy_table::{Edit, copy_edit};
use std::alloc::Global;
use std::collections::VecDeque;
use std::marker::Model;

/// A log of edits: the version that it starts at, and the edits since, one a version. There are at most 4,000,000,000 versions.
pub struct Log {
    start: u32,
    tail: VecDeque<Edit>,
}

// Written out, so that a caller's proof sees one call and not the drop of each field.
impl Drop for Log {
    fn drop(self) {
        let Log {
            start: _start,
            tail: _tail,
        } = self;
    }
}

impl Model for Log {
    ghost use Rattle.std.specs.Prelude.{◌+◌, ◌-◌, ◌≤◌, length};
    ghost use Rattle.std.specs.VecDeque.{deque_capacity, deque_len};
    ghost use Rattle.version_log.specs.Log.{Logged, most_versions};

    ghost Value = { Logged };

    ghost view = { λ l. record {
      start = l.start;
      tail = l.tail.items;
      spare = deque_capacity l.tail - deque_len l.tail;
    } };

    ghost invariant = { λ l. l.start + length l.tail.items ≤ most_versions };
}

/// The log without edits, at version 0.
pub fn new_log(alloc: Global) -> Log
    ensures start { result.start ≡ 0 }
    ensures tail { result.tail ≡ [] }
    ensures stands { Stands result [] }
{
    Log {
        start: 0,
        tail: VecDeque::new(alloc),
    }
}

impl Log {
    /// The version after all edits.
    pub fn versions(&self) -> u32
        ensures value { result ≡ versions self.now }
        ensures few { versions self.now ≤ most_versions }
    {
        self.start + self.tail.len() as u32
    }

    /// The version that it starts at.
    pub fn start(&self) -> u32
        ensures { result ≡ self.now.start }
    {
        self.start
    }

    /// The edit that follows a version.
    pub fn edit(&self, at: u32) -> &Edit
        requires from { self.now.start ≤ at }
        requires before { at < versions self.now }
        ensures { slice_get self.now.tail (at - self.now.start) ≡ Some result.now }
    {
        &self.tail[(at - self.start) as usize]
    }

    /// Makes room for so many further edits. The log is as before, whatever the answer.
    pub fn reserve(&mut self, count: u32) -> Result<(), NoMemory>
        ensures start { self.new.start ≡ self.old.start }
        ensures tail { self.new.tail ≡ self.old.tail }
        ensures spare { OnOk result (count ≤ self.new.spare) }
        ensures more { self.old.spare ≤ self.new.spare }
    {
        Ok(self.tail.reserve(count as usize)?)
    }

    /// Puts an edit behind the others. It takes no memory.
    pub fn push(&mut self, edit: Edit)
        requires room { 0 < self.old.spare }
        requires few { versions self.old < most_versions }
        ensures start { self.new.start ≡ self.old.start }
        ensures tail { self.new.tail ≡ self.old.tail ++ edit ∷ [] }
        ensures spare { self.new.spare + 1 ≡ self.old.spare }
        ensures stands { (history : List (List Change))
            → Stands self.old history → Stands self.new (history ++ edit ∷ []) }
    {
        self.tail.push_back_reserved(edit);
    }

    /// The same log once more, its room aside.
    pub fn copy(&self, alloc: Global) -> Result<Log, NoMemory>
        ensures start { IfOk result (λ copy. copy.start ≡ self.now.start) }
        ensures tail { IfOk result (λ copy. copy.tail ≡ self.now.tail) }
    {
        let tail = copy_edits(alloc, &self.tail)?;
        let start = self.start;
        Ok(Log { start, tail })
    }

    /// Moves the start to a later version: the edits before it are dropped. It takes no memory, and its time is that of the edits
    /// which are dropped.
    pub fn move_start(&mut self, to: u32)
        requires from { self.old.start ≤ to }
        requires until { to ≤ versions self.old }
        ensures start { self.new.start ≡ to }
        ensures tail { self.new.tail ≡ drop (to - self.old.start) self.old.tail }
        ensures spare { self.old.spare ≤ self.new.spare }
        ensures versions { versions self.new ≡ versions self.old }
        ensures stands { (history : List (List Change)) → Stands self.old history → Stands self.new
            history }
    {
        let count = to - self.start();
        for _ in 0..count {
            self.drop_first();
        }
    }

    // Drops the first edit. The others stay where they are.
    fn drop_first(&mut self)
        requires { 0 < length self.old.tail }
        ensures start { self.new.start ≡ self.old.start + 1 }
        ensures tail { self.new.tail ≡ drop 1 self.old.tail }
        ensures spare { self.old.spare ≤ self.new.spare }
    {
        let _first = self.tail.pop_front();
        self.start += 1;
    }
}

impl Share for Log {}

// The same edits once more.
fn copy_edits(alloc: Global, edits: &VecDeque<Edit>) -> Result<VecDeque<Edit>, NoMemory>
    ensures { IfOk result (λ copy. copy.items ≡ edits.now.items) }
{
    let mut copy = VecDeque::with_capacity(alloc, edits.len())?;
    for at in 0..edits.len() {
        let edit = copy_edit(alloc, &edits[at])?;
        copy.push_back(edit)?;
    }
    Ok(copy)
}
