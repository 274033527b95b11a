ghost use Rattle.std.specs.Prelude.{◌≡◌, ◌+◌, ◌≤◌, ◌++◌, ◌∷◌, [], IsTrue, MatchBool, length};
ghost use mathlib.Core.List.{IsPrefix};
ghost use Rattle.live_pair.specs.Helps.Sides.{AreGiven, history};
ghost use Rattle.live_pair.specs.Story.{edits_in, publishes, unpublished};
ghost use Rattle.live_pair.specs.declared.edits.HistoryEvent.TheVariants.{Publish, Staged};
ghost use Rattle.edit_calls.specs.Admitted.{AreAdmitted};
ghost use Rattle.policy_table.specs.Changes.{replay};
ghost use Rattle.version_log.specs.Log.{most_versions};

use crate::book::{Add, Head, Law, append_event};
use crate::edits::{Edits, HistoryEvent};
use crate::naming::Naming;
use logbook::Seen;
use std::marker::{Model, PhantomData};

// The greatest number of events and of publishes.
const MOST: u64 = 1 << 62;

/// A beginning of the history that was seen, with its numbers. Contracts see its events.
pub struct Told<J: Naming> {
    entries: u64,
    parts: u64,
    waiting: u32,
    version: u32,
    seen: Seen<HistoryEvent, u64, Law>,
    of: PhantomData<J>,
}

// Written out, so that a caller's proof sees one call and not the drop of each field.
impl<J: Naming> Drop for Told<J> {
    fn drop(self) {
        let Told {
            entries: _entries,
            parts: _parts,
            waiting: _waiting,
            version: _version,
            seen: _seen,
            of: _of,
        } = self;
    }
}

impl<J: Naming> Model for Told<J> {
    ghost use Rattle.std.specs.Prelude.{◌≡◌, List};
    ghost use Rattle.live_pair.specs.declared.edits.HistoryEvent.{HistoryEvent};
    ghost use Rattle.live_pair.specs.Helps.Sides.{AreCounted, AreGiven};

    ghost Value = { List HistoryEvent };

    ghost view = { λ t. t.seen.log };

    ghost invariant = { λ t. (t.seen.book ≡ J.book)
        × AreCounted J.first t.seen.log t.entries t.parts t.waiting t.version
        × AreGiven J.shapes J.opening J.first t.seen.log };
}

impl<J: Naming> Told<J> {
    /// The beginning in which nothing has happened, for a policy that had so many edits.
    pub(crate) fn new(seen: Seen<HistoryEvent, u64, Law>, version: u32) -> Told<J>
        requires book { seen.book ≡ J.book }
        requires none { seen.log ≡ [] }
        requires version { version ≡ length J.first }
        requires few { length J.first ≤ most_versions }
        ensures { result ≡ [] }
    {
        Told {
            entries: 0,
            parts: 1,
            waiting: 0,
            version,
            seen,
            of: PhantomData,
        }
    }

    /// How many edits are published.
    pub(crate) fn version(&self) -> u32
        ensures { result ≡ length (edits_in (publishes J.first self.now)) }
    {
        self.version
    }

    /// How many edits are in no publish yet.
    pub(crate) fn waiting(&self) -> u32
        ensures { result ≡ length (unpublished J.first self.now) }
    {
        self.waiting
    }

    /// What it keeps: each edit that was handed over is admitted in the tables before it.
    pub(crate) fn kept(&self)
        ensures given { AreGiven J.shapes J.opening J.first self.now }
    {
        let _seen = &self.seen;
    }

    /// The same beginning once more.
    pub(crate) fn again(&self) -> Told<J>
        ensures { result ≡ self.now }
    {
        Told {
            entries: self.entries,
            parts: self.parts,
            waiting: self.waiting,
            version: self.version,
            seen: self.seen.again(),
            of: PhantomData,
        }
    }

    /// Whether the other goes at least as far.
    pub(crate) fn begins(&self, other: &Told<J>) -> bool
        ensures { MatchBool result
            (IsPrefix self.now other.now) (IsPrefix other.now self.now) }
    {
        let mut both = self.seen.again();
        both.learn(&other.seen);
        self.entries <= other.entries
    }

    /// Whether the other is this and one event more.
    pub(crate) fn is_one_short_of(&self, other: &Told<J>) -> bool
        ensures { MatchBool result
            (IsPrefix self.now other.now × (length other.now ≡ length self.now + 1))
            (¬ (IsPrefix self.now other.now × (length other.now ≡ length self.now + 1))) }
    {
        if !self.begins(other) {
            return false;
        }
        other.entries - self.entries == 1
    }

    /// Whether the other is this and one publish.
    pub(crate) fn is_published_in(&self, other: &Told<J>) -> bool
        ensures { MatchBool result (other.now ≡ self.now ++ Publish ∷ [])
            (¬ (other.now ≡ self.now ++ Publish ∷ [])) }
    {
        if !self.is_one_short_of(other) {
            return false;
        }
        other.parts > self.parts
    }

    /// Adds edits that are in no publish yet, and says whether it did.
    pub(crate) fn stage(&mut self, head: &Head<J>, edits: &Edits) -> bool
        requires admitted { AreAdmitted J.shapes
            (replay (history J.first self.old) J.opening) edits.now }
        requires few { length (history J.first self.old) + length edits.now ≤ most_versions }
        ensures { MatchBool result
            (self.new ≡ self.old ++ Staged edits.now ∷ []) (self.new ≡ self.old) }
    {
        if self.entries >= MOST {
            return false;
        }
        let mut seen = self.seen.again();
        if !append_event::<J, Edits, Add>(&mut seen, head, self.entries, edits) {
            return false;
        }
        self.entries += 1;
        self.waiting += edits.len() as u32;
        self.seen = seen;
        true
    }

    /// Makes a publish of the edits that are in none yet, and says whether it did.
    pub(crate) fn publish(&mut self, head: &Head<J>) -> bool
        ensures { MatchBool result (self.new ≡ self.old ++ Publish ∷ []) (self.new ≡ self.old) }
    {
        if self.entries >= MOST || self.parts >= MOST {
            return false;
        }
        let mut seen = self.seen.again();
        if !append_event::<J, (), Add>(&mut seen, head, self.entries, &()) {
            return false;
        }
        self.entries += 1;
        self.parts += 1;
        self.version += self.waiting;
        self.waiting = 0;
        self.seen = seen;
        true
    }
}
