//! The ways into a pair.
ghost use Rattle.std.specs.Prelude.{◌≡◌, ◌⊎◌, [], IfErr, IfOk, IfSome, true};
ghost use mathlib.Core.List.{IsPrefix};
ghost use Rattle.live_pair.specs.Helps.Sides.{is_published};
ghost use Rattle.live_pair.specs.Seats.{raised, start_of, version_of};
ghost use Rattle.live_pair.specs.Story.{edits_in, publishes, unpublished};
ghost use Rattle.policy_state.specs.States.{StandsFor};
ghost use Rattle.version_log.specs.Log.{versions};

use crate::front::Front;
use crate::naming::Naming;
use crate::places::Refused;
use crate::side::Side;
use crossbeam_utils::rule::Unruled;
use left_right::reader::{Reader, Reading};
use policy_state::PolicyState;
use std::marker::Model;

pub type SideReader<J> = Reader<Side<J>, (), Unruled>;

pub type SideReading<J> = Reading<Side<J>, (), Unruled>;

/// A way into a pair. Contracts see the publishes that it knows of, and how often it was refused.
pub struct Entrance<J: Naming> {
    reader: SideReader<J>,
    front: Front<J>,
    refused: u64,
}

// Written out, so that a caller's proof sees one call and not the drop of each field.
impl<J: Naming> Drop for Entrance<J> {
    fn drop(self) {
        let Entrance {
            reader: _reader,
            front: _front,
            refused: _refused,
        } = self;
    }
}

impl<J: Naming> Model for Entrance<J> {
    ghost use Rattle.live_pair.specs.Seats.{Way};

    ghost Value = { Way };

    ghost view = { λ e. record { front = e.front; refused = e.refused } };
}

/// A way in that was taken. It is not `Drop`: end it by `leave`.
pub struct Inside<J: Naming> {
    reading: SideReading<J>,
    front: Front<J>,
    refused: u64,
}

impl<J: Naming> Model for Inside<J> {
    ghost use Rattle.std.specs.Prelude.{◌≡◌, [], true};
    ghost use Rattle.live_pair.specs.Helps.Sides.{is_published};
    ghost use Rattle.live_pair.specs.Seats.{Way};
    ghost use Rattle.live_pair.specs.Story.{publishes, unpublished};

    ghost Value = { Way };

    ghost view = { λ i. record { front = i.front; refused = i.refused } };

    ghost invariant = { λ i. (i.front ≡ publishes J.first i.reading.part.value)
        × (unpublished J.first i.reading.part.value ≡ [])
        × (is_published i.reading.part.value ≡ true) };
}

impl<J: Naming> Entrance<J> {
    pub(crate) fn new(reader: SideReader<J>, front: Front<J>) -> Entrance<J>
        ensures { result ≡ record { front = front; refused = 0 } }
    {
        Entrance {
            reader,
            front,
            refused: 0,
        }
    }

    /// A further way into the same pair, which knows of the same publishes. It is refused where the pair has no more places, or
    /// where memory runs out.
    pub fn again(&self) -> Result<Entrance<J>, Refused>
        ensures again { IfOk result (λ more. more
            ≡ record { front = self.now.front; refused = 0 }) }
    {
        match self.reader.factory().reader() {
            Ok(reader) => Ok(Entrance::new(reader, self.front.again())),
            Err(_) => Err(Refused),
        }
    }

    pub(crate) fn front(&self) -> &Front<J>
        ensures { result.now ≡ self.now.front }
    {
        &self.front
    }

    pub(crate) fn refused(&self) -> u64
        ensures { result ≡ self.now.refused }
    {
        self.refused
    }

    /// Its front becomes the longer of both, which both begin.
    pub(crate) fn learn(&mut self, front: &Front<J>)
        ensures one { (self.new.front ≡ self.old.front) ⊎ (self.new.front ≡ front.now) }
        ensures this { IsPrefix self.old.front self.new.front }
        ensures that { IsPrefix front.now self.new.front }
        ensures refused { self.new.refused ≡ self.old.refused }
    {
        self.front = self.front.longer(front);
    }

    /// Takes the way in, where the copy that is shown stands for a front that its own front begins.
    pub(crate) fn enter(self) -> Result<Inside<J>, Entrance<J>>
        ensures begun { IfOk result (λ inside. IsPrefix self.front inside.front) }
        ensures same { IfOk result (λ inside. inside.refused ≡ self.refused) }
        ensures shut { IfErr result (λ way. way
            ≡ record { front = self.front; refused = raised self.refused }) }
    {
        let Self {
            reader,
            front,
            refused,
        } = self;
        let reading = match reader.enter_as::<Unruled>() {
            Ok(reading) => reading,
            Err(reader) => {
                return Err(Entrance {
                    reader,
                    front,
                    refused: refused.saturating_add(1),
                });
            }
        };
        let Some(new) = newer(&front, reading.get()) else {
            return Err(Entrance {
                reader: reading.leave(),
                front,
                refused: refused.saturating_add(1),
            });
        };
        Ok(Inside {
            reading,
            front: new,
            refused,
        })
    }
}

// The front that the copy stands for, if it does for one that this one begins.
fn newer<J: Naming>(front: &Front<J>, side: &Side<J>) -> Option<Front<J>>
    ensures front { IfSome result (λ new. new ≡ publishes J.first side.now) }
    ensures whole { IfSome result (λ _. unpublished J.first side.now ≡ []) }
    ensures published { IfSome result (λ _. is_published side.now ≡ true) }
    ensures begun { IfSome result (λ new. IsPrefix front.now new) }
{
    let new = side.front()?;
    if front.begins(&new) { Some(new) } else { None }
}

impl<J: Naming> Inside<J> {
    /// The policy after the front. Its log has the edits of the last publish.
    pub(crate) fn state(&self) -> &PolicyState
        ensures shapes { result.now.shapes ≡ J.shapes }
        ensures stands { StandsFor result.now J.opening (edits_in self.now.front) }
        ensures start { result.now.log.start ≡ start_of self.now.front }
        ensures version { versions result.now.log ≡ version_of self.now.front }
    {
        self.reading.get().state()
    }

    pub(crate) fn version(&self) -> u32
        ensures { result ≡ version_of self.now.front }
    {
        self.front.version()
    }

    pub(crate) fn leave(self) -> Entrance<J>
        ensures { result ≡ self }
    {
        let Self {
            reading,
            front,
            refused,
        } = self;
        Entrance {
            reader: reading.leave(),
            front,
            refused,
        }
    }
}
