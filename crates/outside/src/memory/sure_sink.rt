ghost use Rattle.std.specs.Prelude.{◌≡◌, None, IfOk, IsOk, length};
ghost use Rattle.outside.specs.Pushes.{PushesSome};

use crate::fault::Failed;
use crate::sink::Sink;

/// A sink that never fails, keeps no bytes and tells none.
#[derive(Clone, Copy, Debug)]
pub struct SureSink;

impl SureSink {
    pub fn new() -> SureSink {
        SureSink
    }
}

impl Sink for SureSink {
    ghost taken = { λ _. None };

    ghost faults = { λ _. 0 };

    fn push(&mut self, piece: &[u8]) -> Result<usize, Failed>
        ensures pushes { PushesSome None None 0 0 piece.now result }
        ensures sure { IsOk result }
        ensures count { IfOk result (λ count. count ≡ length piece.now) }
    {
        Ok(piece.len())
    }
}
