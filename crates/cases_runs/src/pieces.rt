ghost use Rattle.std.specs.Prelude.{None};

use outside::{Failed, ListSource, Source};

/// An input in memory of which a pull takes at most so many bytes. It tells none of them.
#[derive(Drop)]
pub(crate) struct Pieces {
    source: ListSource,
    most: usize,
}

impl Pieces {
    pub(crate) fn new(source: ListSource, most: usize) -> Pieces {
        Pieces { source, most }
    }
}

impl Source for Pieces {
    ghost left = { λ _. None };

    ghost ends = { λ _. None };

    ghost faults = { λ s. s.source.schedule.faults };

    fn pull(&mut self, buf: &mut [u8]) -> Result<usize, Failed> {
        let most = self.most.min(buf.len());
        self.source.pull(&mut buf[..most])
    }
}
