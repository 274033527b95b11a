//! Seats, from which readers enter.
ghost use Rattle.std.specs.Prelude.{◌≡◌, ◌⊎◌, IfErr, IfOk};
ghost use mathlib.Core.List.{IsPrefix};
ghost use Rattle.live_pair.specs.Seats.{IsEntered, IsNew, IsShut, start_of, version_of};
ghost use Rattle.live_pair.specs.Story.{edits_in};
ghost use Rattle.policy_state.specs.States.{StandsFor};
ghost use Rattle.version_log.specs.Log.{versions};

use crate::entrance::{Entrance, Inside};
use crate::front::Front;
use crate::naming::Naming;
use outside::Share;
use policy_state::PolicyState;
use std::marker::Model;

/// A seat that is outside. Contracts see its front, which are the publishes that it knows of, how often it entered and was
/// refused, and the version of its last entry. None of its calls takes memory or waits.
pub struct Seat<J: Naming> {
    way: Entrance<J>,
    entries: u64,
    last: u32,
}

// Written out, so that a caller's proof sees one call and not the drop of each field.
impl<J: Naming> Drop for Seat<J> {
    fn drop(self) {
        let Seat {
            way: _way,
            entries: _entries,
            last: _last,
        } = self;
    }
}

impl<J: Naming> Model for Seat<J> {
    ghost use Rattle.live_pair.specs.Seats.{SeatSeen};

    ghost Value = { SeatSeen };

    ghost view = { λ s. record {
      front = s.way.front;
      entries = s.entries;
      refused = s.way.refused;
      last = s.last;
    } };
}

/// A seat that is inside: the policy stays as it is until the seat leaves. It is not `Drop`: end it by `leave`.
pub struct Entered<J: Naming> {
    inside: Inside<J>,
    entries: u64,
    last: u32,
}

impl<J: Naming> Model for Entered<J> {
    ghost use Rattle.live_pair.specs.Seats.{SeatSeen};

    ghost Value = { SeatSeen };

    ghost view = { λ e. record {
      front = e.inside.front;
      entries = e.entries;
      refused = e.inside.refused;
      last = e.last;
    } };
}

/// An entry was refused, and the seat counted it.
#[derive(Drop)]
pub struct Shut<J: Naming> {
    pub seat: Seat<J>,
}

impl<J: Naming> Seat<J> {
    pub(crate) fn new(way: Entrance<J>) -> Seat<J>
        ensures { result ≡ record {
          front = way.front;
          entries = 0;
          refused = way.refused;
          last = 0;
        } }
    {
        Seat {
            way,
            entries: 0,
            last: 0,
        }
    }

    /// The version of its front: how many edits that has.
    pub fn version(&self) -> u32
        ensures version { result ≡ version_of self.now.front }
    {
        self.way.front().version()
    }

    /// The publishes that it knows of.
    pub fn front(&self) -> Front<J>
        ensures front { result ≡ self.now.front }
    {
        self.way.front().again()
    }

    /// How often an entry was refused. The count stands still at 2^64 - 1.
    pub fn refused(&self) -> u64
        ensures refused { result ≡ self.now.refused }
    {
        self.way.refused()
    }

    /// How often it entered. The count stands still at 2^64 - 1.
    pub fn entries(&self) -> u64
        ensures entries { result ≡ self.now.entries }
    {
        self.entries
    }

    /// Its front becomes the longer of its own and this one; both are prefixes of it. It makes no entry.
    pub fn learn(&mut self, front: &Front<J>)
        ensures one { (self.new.front ≡ self.old.front) ⊎ (self.new.front ≡ front.now) }
        ensures this { IsPrefix self.old.front self.new.front }
        ensures that { IsPrefix front.now self.new.front }
        ensures entries { self.new.entries ≡ self.old.entries }
        ensures refused { self.new.refused ≡ self.old.refused }
        ensures last { self.new.last ≡ self.old.last }
    {
        self.way.learn(front);
    }

    /// Enters the policy after a published history that its front is a prefix of, and that becomes its front. It is refused
    /// where the administrator has closed the pair, or where the copy that is shown stands for no such history, which never
    /// happens; the seat comes back and has counted it.
    pub fn enter(self) -> Result<Entered<J>, Shut<J>>
        ensures entered { IfOk result (λ entered. IsEntered self entered) }
        ensures shut { IfErr result (λ shut. IsShut self shut.seat) }
    {
        let Self { way, entries, last } = self;
        match way.enter() {
            Ok(inside) => Ok(Entered {
                last: inside.version(),
                inside,
                entries: entries.saturating_add(1),
            }),
            Err(way) => Err(Shut {
                seat: Seat { way, entries, last },
            }),
        }
    }
}

impl<J: Naming> Entered<J> {
    /// The policy that was entered: it has the shapes of the policy that was opened, and stands for the edits of the front. Its
    /// log has the edits of the last publish, and none where nothing was published since the opening.
    pub fn state(&self) -> &PolicyState
        ensures shapes { result.now.shapes ≡ J.shapes }
        ensures stands { StandsFor result.now J.opening (edits_in self.now.front) }
        ensures start { result.now.log.start ≡ start_of self.now.front }
        ensures version { versions result.now.log ≡ version_of self.now.front }
    {
        self.inside.state()
    }

    /// The version that was entered: how many edits the front has.
    pub fn version(&self) -> u32
        ensures version { result ≡ version_of self.now.front }
    {
        self.inside.version()
    }

    /// Ends the entry; the seat keeps the front.
    pub fn leave(self) -> Seat<J>
        ensures same { result ≡ self }
    {
        let Self {
            inside,
            entries,
            last,
        } = self;
        Seat {
            way: inside.leave(),
            entries,
            last,
        }
    }
}

impl<J: Naming + Send + Sync> Share for Seat<J> {}
