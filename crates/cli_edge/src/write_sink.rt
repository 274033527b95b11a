ghost use Rattle.std.specs.Prelude.{None};

use outside::{Failed, Sink};
use std::io::Write;

/// A sink over a writer, as standard output. It tells no bytes.
#[derive(Drop)]
pub struct WriteSink<W: Write + Drop> {
    writer: W,
    faults: u64,
}

impl<W: Write + Drop> WriteSink<W> {
    pub fn new(writer: W) -> WriteSink<W> {
        WriteSink { writer, faults: 0 }
    }
}

impl<W: Write + Drop> Sink for WriteSink<W> {
    ghost taken = { λ _. None };

    ghost faults = { λ s. s.faults };

    fn push(&mut self, piece: &[u8]) -> Result<usize, Failed> {
        match self.writer.write(piece) {
            // A writer that takes nothing of a piece will not take it later.
            Ok(count) if count > 0 || piece.is_empty() => Ok(count),
            _ => {
                self.faults = self.faults.saturating_add(1);
                Err(Failed)
            }
        }
    }
}
