ghost use Rattle.std.specs.Prelude.{◌≡◌, [], IsErr, IsErrOf, false, true};
ghost use Rattle.outside.specs.Listed.{fresh, is_listed};
ghost use Rattle.regex_gate.specs.Finders.{Finds, after_find, refusals_of};
ghost use Rattle.regex_gate.specs.Found.{IsRefusable};

use crate::finder::{FindStop, Finder};
use crate::regex_finder::RegexFinder;
use std::alloc::Global;
use std::marker::Model;

/// A finder that refuses listed calls too. Every call counts, whatever its answer, and the counter stands still at
/// 2^32 - 1. Contracts see its schedule, and its log.
#[derive(Drop)]
pub struct ListFinder {
    refused: Vec<u32>,
    calls: u32,
    finder: RegexFinder,
}

impl Model for ListFinder {
    ghost use Rattle.regex_gate.specs.Finders.{ListedFinder};

    ghost Value = { ListedFinder };

    ghost view = { λ f. record {
      schedule = record { fails = f.refused.items; calls = f.calls; faults = f.finder.count };
      patterns = f.finder.patterns;
    } };
}

impl ListFinder {
    /// A finder that refuses the calls with these numbers, counted from 1, and what `regex` does not build. It takes
    /// no memory.
    pub fn new(alloc: Global, refused: Vec<u32>) -> ListFinder
        ensures { result ≡ record { schedule = fresh refused.items; patterns = [] } }
    {
        ListFinder {
            refused,
            calls: 0,
            finder: RegexFinder::new(alloc),
        }
    }
}

impl Finder for ListFinder {
    ghost refusals = { refusals_of };

    fn find(&mut self, pattern: &[u8], text: &[u8]) -> Result<bool, FindStop>
        ensures finds { Finds (refusals_of self.old) (refusals_of self.new)
            pattern.now text.now result }
        ensures counted { self.new ≡ after_find self.old pattern.now result }
        ensures listed { is_listed self.old.schedule ≡ true → IsErr result }
        ensures refused_for { is_listed self.old.schedule ≡ false
            → IsErrOf result FindStop.Refused → IsRefusable pattern.now }
    {
        self.calls = self.calls.saturating_add(1);
        if self.refused.contains(&self.calls) {
            return Err(self.finder.refuse(pattern));
        }
        self.finder.find(pattern, text)
    }
}
