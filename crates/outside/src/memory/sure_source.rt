ghost use Rattle.std.specs.Prelude.{◌≡◌, Some, None, IfOk, IsOk, length, min};
ghost use Rattle.outside.specs.Pulls.{Pulls};

use crate::fault::Failed;
use crate::memory::unread::Unread;
use crate::source::Source;
use std::marker::Model;

/// A source in memory that never fails. Contracts see the bytes that are left.
#[derive(Drop)]
pub struct SureSource {
    unread: Unread,
}

impl Model for SureSource {
    ghost use Rattle.std.specs.Prelude.{List, ℕ};

    ghost Value = { List ℕ };

    ghost view = { λ s. s.unread };
}

impl SureSource {
    /// A source with these bytes. It takes no memory.
    pub fn new(bytes: Vec<u8>) -> SureSource
        ensures { result ≡ bytes.items }
    {
        SureSource {
            unread: Unread::new(bytes),
        }
    }
}

impl Source for SureSource {
    ghost left = { λ s. Some s };

    ghost ends = { λ _. None };

    ghost faults = { λ _. 0 };

    fn pull(&mut self, buf: &mut [u8]) -> Result<usize, Failed>
        ensures pulls { Pulls (Some self.old) (Some self.new) None None 0 0 buf.old buf.new result }
        ensures sure { IsOk result }
        ensures count { IfOk result (λ count. count ≡ min (length buf.old) (length self.old)) }
    {
        Ok(self.unread.give(buf))
    }
}
