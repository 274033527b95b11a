ghost use Rattle.std.specs.Prelude.{◌≡◌, ◌↔◌, Some, true, IfOk, IsErr, length, min};
ghost use Rattle.outside.specs.Listed.{fresh, after_call_that, is_listed};
ghost use Rattle.outside.specs.Pulls.{Pulls};

use crate::fault::Failed;
use crate::memory::calls::Calls;
use crate::memory::unread::Unread;
use crate::source::{Source, ends_after};
use std::marker::Model;

/// A source in memory that fails at listed calls. Contracts see the bytes that are left, how
/// often it has answered that it is at its end, and the schedule.
#[derive(Drop)]
pub struct ListSource {
    unread: Unread,
    ends: u64,
    calls: Calls,
}

impl Model for ListSource {
    ghost use Rattle.outside.specs.Listed.{ListedSource};

    ghost Value = { ListedSource };

    ghost view = { λ s. record { left = s.unread; ends = s.ends; schedule = s.calls } };
}

impl ListSource {
    /// A source with these bytes that fails at the calls with these numbers, counted from 1. It takes no memory.
    pub fn new(bytes: Vec<u8>, fails: Vec<u32>) -> ListSource
        ensures { result ≡ record { left = bytes.items; ends = 0; schedule = fresh fails.items } }
    {
        ListSource {
            unread: Unread::new(bytes),
            ends: 0,
            calls: Calls::new(fails),
        }
    }
}

impl Source for ListSource {
    ghost left = { λ s. Some s.left };

    ghost ends = { λ s. Some s.ends };

    ghost faults = { λ s. s.schedule.faults };

    fn pull(&mut self, buf: &mut [u8]) -> Result<usize, Failed>
        ensures pulls { Pulls (Some self.old.left) (Some self.new.left)
            (Some self.old.ends) (Some self.new.ends)
            self.old.schedule.faults self.new.schedule.faults buf.old buf.new result }
        ensures fails { IsErr result ↔ (is_listed self.old.schedule ≡ true) }
        ensures count { IfOk result (λ count. count ≡ min (length buf.old) (length self.old.left)) }
        ensures after { self.new.schedule
            ≡ after_call_that (is_listed self.old.schedule) self.old.schedule }
    {
        if self.calls.begin() {
            return Err(self.calls.fail());
        }
        let count = self.unread.give(buf);
        self.ends = ends_after(self.ends, count == 0 && !buf.is_empty());
        Ok(count)
    }
}
