ghost use Rattle.std.specs.Prelude.{◌≡◌, ◌⊎◌, [], MatchBool};
ghost use mathlib.Core.List.{IsPrefix};
ghost use Rattle.live_pair.specs.Seats.{version_of};
ghost use Rattle.live_pair.specs.Story.{publishes, unpublished};

use crate::naming::Naming;
use crate::told::Told;
use outside::Share;
use std::marker::Model;

/// A published history. Contracts see its publishes, each a list of edits; the first has the edits of the policy that was
/// opened. It is copied without memory, and any thread may have it.
pub struct Front<J: Naming> {
    told: Told<J>,
}

// Written out, so that a caller's proof sees one call and not the drop of each field.
impl<J: Naming> Drop for Front<J> {
    fn drop(self) {
        let Front { told: _told } = self;
    }
}

impl<J: Naming> Model for Front<J> {
    ghost use Rattle.std.specs.Prelude.{◌≡◌, List, []};
    ghost use Rattle.live_pair.specs.Story.{publishes, unpublished};
    ghost use Rattle.policy_table.specs.declared.change.Change.{Change};

    ghost Value = { List (List (List Change)) };

    ghost view = { λ f. publishes J.first f.told };

    ghost invariant = { λ f. unpublished J.first f.told ≡ [] };
}

impl<J: Naming> Front<J> {
    /// The front of a history in which every edit is published.
    pub(crate) fn new(told: Told<J>) -> Front<J>
        requires { unpublished J.first told ≡ [] }
        ensures { result ≡ publishes J.first told }
    {
        Front { told }
    }

    /// Its version: how many edits it has.
    pub fn version(&self) -> u32
        ensures version { result ≡ version_of self.now }
    {
        self.told.version()
    }

    /// The same front once more. It takes no memory.
    pub fn again(&self) -> Front<J>
        ensures same { result ≡ self.now }
    {
        Front {
            told: self.told.again(),
        }
    }

    /// Whether the other has at least as many publishes. Of two fronts of one pair one begins the other.
    pub fn begins(&self, other: &Front<J>) -> bool
        ensures begins { MatchBool result
            (IsPrefix self.now other.now) (IsPrefix other.now self.now) }
    {
        self.told.begins(&other.told)
    }

    /// The longer of both, which both begin.
    pub(crate) fn longer(&self, other: &Front<J>) -> Front<J>
        ensures one { (result ≡ self.now) ⊎ (result ≡ other.now) }
        ensures this { IsPrefix self.now result }
        ensures that { IsPrefix other.now result }
    {
        if self.begins(other) {
            other.again()
        } else {
            self.again()
        }
    }
}

impl<J: Naming + Send + Sync> Share for Front<J> {}
