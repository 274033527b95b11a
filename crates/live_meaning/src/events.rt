ghost use Rattle.std.specs.Prelude.{◌≡◌};

use outside::{NoMemory, Share};
use policy_table::Edit;

/// What the administrator or a reader does. Seats and notes are numbers that count from 0, in the order in which they were
/// given.
#[derive(Drop)]
pub enum Event {
    /// The administrator makes an edit, which no reader sees before it is published.
    Edit(Edit),
    /// The administrator publishes all edits so far.
    Publish,
    /// The administrator notes what is published, so that a seat can learn of it.
    Note,
    /// A seat learns of a note.
    Learn { seat: u64, note: u64 },
    /// A seat enters what is published.
    Enter { seat: u64 },
    /// A reader is given a seat.
    Seat,
}

/// What an event is answered. A version is the number of edits that it has.
#[derive(Clone, Copy, Debug, PartialEq, Eq)]
pub enum Reply {
    /// An edit was made, or a note learned.
    Done,
    /// The version that is published from now on.
    Published { version: u64 },
    /// The note that was given.
    Noted { note: u64 },
    /// The version that was entered.
    Entered { version: u64 },
    /// The seat that was given.
    Seated { seat: u64 },
}

/// Why an event is refused.
#[derive(Clone, Copy, Debug, PartialEq, Eq)]
pub enum StepStop {
    /// The seat was not given.
    NoSeat,
    /// The seat was given, but not the note.
    NoNote,
    /// Memory ran out.
    NoMemory,
}

impl From<NoMemory> for StepStop {
    ghost use Rattle.live_meaning.specs.declared.events.StepStop.TheVariants.{NoMemory};

    ghost from_gives = { λ _ stop. stop ≡ NoMemory };

    fn from(_: NoMemory) -> StepStop {
        StepStop::NoMemory
    }
}

impl Share for Event {}

impl Share for Reply {}

impl Share for StepStop {}
