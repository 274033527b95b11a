ghost use Rattle.std.specs.Prelude.{ℕ, List, Option};
ghost use Rattle.outside.specs.Pushes.{PushesAll, PushesSome};

use crate::fault::Failed;

/// Where bytes go to the outside, as a file or a stream.
pub trait Sink {
    /// The bytes that were taken so far, where the sink tells them.
    ghost taken: { Self → Option (List ℕ) };

    /// How often the sink has failed. The count stands still at 2^64 - 1.
    ghost faults: { Self → ℕ };

    /// Takes bytes from the front of a piece and answers how many: at least one of a piece that is not empty.
    fn push(&mut self, piece: &[u8]) -> Result<usize, Failed>
        ensures { PushesSome (taken self.old) (taken self.new) (faults self.old) (faults self.new)
            piece.now result };
}

/// Pushes all the bytes in their order. It takes no memory; after a failure the sink took some of the first.
pub fn push_all<K: Sink>(sink: &mut K, bytes: &[u8]) -> Result<(), Failed>
    ensures { PushesAll (K.taken sink.old) (K.taken sink.new)
        (K.faults sink.old) (K.faults sink.new) bytes.now result }
{
    let mut at = 0;
    while at < bytes.len() {
        at += sink.push(&bytes[at..])?;
    }
    Ok(())
}
