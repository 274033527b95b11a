ghost use Rattle.std.specs.Prelude.{None, Some};

use outside::{Failed, Source, ends_after};
use std::io::Read;

/// A source over a reader, as standard input or a file. It tells no bytes, and how often it
/// has answered that it is at its end.
#[derive(Drop)]
pub struct ReadSource<R: Read + Drop> {
    reader: R,
    ends: u64,
    faults: u64,
}

impl<R: Read + Drop> ReadSource<R> {
    pub fn new(reader: R) -> ReadSource<R> {
        ReadSource {
            reader,
            ends: 0,
            faults: 0,
        }
    }
}

impl<R: Read + Drop> Source for ReadSource<R> {
    ghost left = { λ _. None };

    ghost ends = { λ s. Some s.ends };

    ghost faults = { λ s. s.faults };

    fn pull(&mut self, buf: &mut [u8]) -> Result<usize, Failed> {
        match self.reader.read(buf) {
            Ok(count) => {
                self.ends = ends_after(self.ends, count == 0 && !buf.is_empty());
                Ok(count)
            }
            Err(_) => {
                self.faults = self.faults.saturating_add(1);
                Err(Failed)
            }
        }
    }
}
