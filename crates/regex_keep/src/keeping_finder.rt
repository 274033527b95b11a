ghost use Rattle.std.specs.Prelude.{◌≡◌, [], IfOk, IsErrOf};
ghost use Rattle.regex_gate.specs.Finders.{Finds};
ghost use Rattle.regex_gate.specs.Found.{IsRefusable};

use crate::kept_searches::KeptSearches;
use outside::NoMemory;
use regex_gate::{FindStop, Finder, RegexFinder};
use std::alloc::Global;
use std::marker::Model;

/// A finder that refuses what `regex` does not build, and keeps what it built for the 256 patterns that it sought
/// last. What is found does not depend on what is kept. Where there is no memory to keep a pattern, it is searched
/// for all the same. Contracts see how often it has refused, and its log.
#[derive(Drop)]
pub struct KeepingFinder {
    finder: RegexFinder,
    kept: KeptSearches,
}

impl Model for KeepingFinder {
    ghost use Rattle.regex_gate.specs.Refusals.{Refusals};

    ghost Value = { Refusals };

    ghost view = { λ f. f.finder };
}

impl KeepingFinder {
    /// A finder that has refused nothing and keeps nothing. It takes memory for the places of what it will keep.
    pub fn new(alloc: Global) -> Result<KeepingFinder, NoMemory>
        ensures { IfOk result (λ finder. finder ≡ record { count = 0; patterns = [] }) }
    {
        Ok(KeepingFinder {
            finder: RegexFinder::new(alloc),
            kept: KeptSearches::new(alloc)?,
        })
    }
}

impl Finder for KeepingFinder {
    ghost refusals = { λ f. f };

    fn find(&mut self, pattern: &[u8], text: &[u8]) -> Result<bool, FindStop>
        ensures finds { Finds self.old self.new pattern.now text.now result }
        ensures refused_for { IsErrOf result FindStop.Refused → IsRefusable pattern.now }
    {
        match self.kept.find(pattern, text) {
            Some(is_found) => Ok(is_found),
            None => self.finder.find(pattern, text),
        }
    }
}
