ghost use Rattle.std.specs.Prelude.{◌≡◌, []};
ghost use Rattle.log_ship.specs.Followers.{IsFollowing, version_of};

use crate::waiting_edits::WaitingEdits;
use outside::Share;
use policy_state::PolicyState;
use policy_table::Tables;
use std::alloc::Global;
use std::marker::Model;

/// A policy that follows a leader's: it takes the leader's edits as packets, lost, repeated or in any order. Contracts see the
/// policy, and the edits that wait for those before them.
pub struct Follower {
    pub(crate) state: PolicyState,
    pub(crate) waiting: WaitingEdits,
    // The policy's tables once more, in which edits are tried. They are copied when they are first needed, and again after
    // memory ran out.
    pub(crate) drafts: Option<Tables>,
}

// Written out, so that a caller's proof sees one call and not the drop of each field.
impl Drop for Follower {
    fn drop(self) {
        let Follower {
            state: _state,
            waiting: _waiting,
            drafts: _drafts,
        } = self;
    }
}

impl Model for Follower {
    ghost use Rattle.log_ship.specs.Followers.{Following, IsFollowing};
    ghost use Rattle.log_ship.specs.Helps.Waits.{AreDrafts, IsKept};

    ghost Value = { Following };

    ghost view = { λ f. record { state = f.state; waiting = f.waiting } };

    ghost invariant = { λ f. IsKept (record { state = f.state; waiting = f.waiting }) f.drafts };
}

impl Follower {
    /// A follower with this policy, at which no edit waits. It takes no memory.
    pub fn open(alloc: Global, state: PolicyState) -> Follower
        ensures state { result.state ≡ state }
        ensures waiting { result.waiting ≡ [] }
    {
        Follower {
            state,
            waiting: WaitingEdits::new(alloc),
            drafts: None,
        }
    }

    /// How many edits its policy has.
    pub fn version(&self) -> u32
        ensures { result ≡ version_of self.now }
    {
        self.state.version()
    }

    /// Its policy.
    pub fn state(&self) -> &PolicyState
        ensures { result.now ≡ self.now.state }
    {
        &self.state
    }

    /// What it keeps: the numbers of the edits that wait rise from above that of the next one, and none is above 4,000,000,000.
    pub fn kept(&self)
        ensures { IsFollowing self.now }
    {
        let _waiting = &self.waiting;
    }
}

impl Share for Follower {}
