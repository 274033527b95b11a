ghost use Rattle.std.specs.Prelude.{IfErr, List, OnOk, map};
ghost use Rattle.answer_lines.specs.Printed.{ArePrinted, printed_line};
ghost use Rattle.answer_lines.specs.declared.answer.Line as line;
ghost use Rattle.live_rounds.specs.declared.taker.TakeStop as declared;

use answer_lines::PrintedLines;
use outside::NoMemory;
use std::alloc::Global;

/// Why lines were not taken to their end.
#[derive(Clone, Copy, Debug, PartialEq, Eq)]
pub enum TakeStop {
    /// What they were to go to has failed.
    Failed,
    /// Memory ran out.
    NoMemory,
}

impl From<NoMemory> for TakeStop {
    ghost use Rattle.std.specs.Prelude.{◌≡◌};
    ghost use Rattle.live_rounds.specs.declared.taker.TakeStop.TheVariants as stops;

    ghost from_gives = { λ _ stop. stop ≡ stops.NoMemory };

    fn from(_: NoMemory) -> TakeStop {
        TakeStop::NoMemory
    }
}

/// Takes the lines of a session to an `X`, those of each round once it is over.
pub trait Taker<X> {
    /// What lines make of it.
    ghost took: { X → List line.Line → X → Type 0 };

    /// What lines make of it that are not taken to their end.
    ghost stopped: { X → List line.Line → X → declared.TakeStop → Type 0 };

    /// Takes lines, which are told as they are printed.
    fn take(&self, alloc: Global, to: &mut X, lines: &PrintedLines) -> Result<(), TakeStop>
        ensures took { OnOk result ((told : List line.Line)
            → ArePrinted (map printed_line told) lines.now → took to.old told to.new) }
        ensures stopped { IfErr result (λ stop. (told : List line.Line)
            → ArePrinted (map printed_line told) lines.now → stopped to.old told to.new stop) };
}
