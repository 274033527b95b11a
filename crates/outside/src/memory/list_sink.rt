ghost use Rattle.std.specs.Prelude.{◌≡◌, ◌<◌, ◌≤◌, ◌↔◌, Some, true, IfOk, IsErr};
ghost use Rattle.outside.specs.Listed.{after_push, empty_sink, push_fails, taken_of};
ghost use Rattle.outside.specs.Pushes.{PushesSome};

use crate::fault::{Failed, NoMemory};
use crate::memory::calls::Calls;
use crate::sink::Sink;
use std::alloc::Global;
use std::marker::Model;

/// A sink in memory with room for so many bytes, which takes at most so many at a call and fails at listed calls.
/// Contracts see the bytes that it took, these numbers, and the schedule.
#[derive(Drop)]
pub struct ListSink {
    bytes: Vec<u8>,
    room: u32,
    most: u32,
    calls: Calls,
}

impl Model for ListSink {
    ghost use Rattle.std.specs.Prelude.{◌≤◌, ◌<◌, vec_len, vec_capacity};
    ghost use Rattle.outside.specs.Listed.{ListedSink};

    ghost Value = { ListedSink };

    ghost view = { λ s. record {
      taken = s.bytes.items;
      room = s.room;
      most = s.most;
      schedule = s.calls;
    } };

    ghost invariant = { λ s.
        (vec_len s.bytes ≤ s.room) × (s.room ≤ vec_capacity s.bytes) × (0 < s.most) };
}

impl ListSink {
    /// An empty sink. It takes the memory for its `room` bytes, and no later call takes any. It fails at the calls
    /// with the numbers in `fails`, counted from 1, and at a piece that is not empty where it is full.
    pub fn new(alloc: Global, room: u32, most: u32, fails: Vec<u32>) -> Result<ListSink, NoMemory>
        requires { 0 < most }
        ensures { IfOk result (λ sink. sink ≡ empty_sink room most fails.items) }
    {
        Ok(ListSink {
            bytes: Vec::with_capacity(alloc, room as usize)?,
            room,
            most,
            calls: Calls::new(fails),
        })
    }

    /// The bytes that it took.
    pub fn bytes(&self) -> &[u8]
        ensures { result.now ≡ self.now.taken }
    {
        &self.bytes
    }
}

impl Sink for ListSink {
    ghost taken = { λ s. Some s.taken };

    ghost faults = { λ s. s.schedule.faults };

    fn push(&mut self, piece: &[u8]) -> Result<usize, Failed>
        ensures pushes { PushesSome (Some self.old.taken) (Some self.new.taken)
            self.old.schedule.faults self.new.schedule.faults piece.now result }
        ensures fails { IsErr result ↔ (push_fails self.old piece.now ≡ true) }
        ensures count { IfOk result (λ count. count ≡ taken_of self.old piece.now) }
        ensures after { self.new ≡ after_push self.old piece.now }
    {
        if self.calls.begin() {
            return Err(self.calls.fail());
        }
        let free = self.room as usize - self.bytes.len();
        if free == 0 && !piece.is_empty() {
            return Err(self.calls.fail());
        }
        let count = piece.len().min(self.most as usize).min(free);
        self.bytes.extend_from_slice(&piece[..count]).unwrap();
        Ok(count)
    }
}
