ghost use Rattle.std.specs.Prelude.{◌≡◌, ◌++◌, ◌∷◌, [], IsErrOf, OnErr, OnOk};
ghost use Rattle.regex_gate.specs.Finders.{Finds};
ghost use Rattle.regex_gate.specs.Found.{IsRefusable};
ghost use Rattle.regex_gate.specs.Refusals.{after_refusal};

use crate::finder::{FindStop, Finder};
use crate::pattern::Pattern;
use crate::search::search;
use outside::NoMemory;
use std::alloc::Global;
use std::marker::Model;

/// A finder that refuses what `regex` does not build. It builds the pattern at each call. Contracts see how often
/// it has refused, and its log.
#[derive(Drop)]
pub struct RegexFinder {
    alloc: Global,
    count: u64,
    patterns: Vec<Pattern>,
}

impl Model for RegexFinder {
    ghost use Rattle.regex_gate.specs.Refusals.{Refusals};

    ghost Value = { Refusals };

    ghost view = { λ f. record { count = f.count; patterns = f.patterns.items } };
}

impl RegexFinder {
    /// A finder that has refused nothing. It takes no memory.
    pub fn new(alloc: Global) -> RegexFinder
        ensures { result ≡ record { count = 0; patterns = [] } }
    {
        RegexFinder {
            alloc,
            count: 0,
            patterns: Vec::new(alloc),
        }
    }

    /// Counts a pattern as refused and puts it into the log. Where there is no room for it, nothing changes.
    pub(crate) fn refuse(&mut self, pattern: &[u8]) -> FindStop
        ensures refused { result ≡ FindStop.Refused
            → self.new ≡ after_refusal self.old pattern.now }
        ensures no_memory { result ≡ FindStop.NoMemory → self.new ≡ self.old }
    {
        match keep(self.alloc, &mut self.patterns, pattern) {
            Ok(()) => {
                self.count = self.count.saturating_add(1);
                FindStop::Refused
            }
            Err(NoMemory) => FindStop::NoMemory,
        }
    }
}

impl Finder for RegexFinder {
    ghost refusals = { λ f. f };

    fn find(&mut self, pattern: &[u8], text: &[u8]) -> Result<bool, FindStop>
        ensures finds { Finds self.old self.new pattern.now text.now result }
        ensures refused_for { IsErrOf result FindStop.Refused → IsRefusable pattern.now }
    {
        match search(self.alloc, pattern, text)? {
            Some(is_found) => Ok(is_found),
            None => Err(self.refuse(pattern)),
        }
    }
}

// Puts a pattern at the end of a list.
fn keep(alloc: Global, patterns: &mut Vec<Pattern>, pattern: &[u8]) -> Result<(), NoMemory>
    ensures ok { OnOk result (patterns.new.items ≡ patterns.old.items ++ pattern.now ∷ []) }
    ensures err { OnErr result (patterns.new.items ≡ patterns.old.items) }
{
    patterns.push(Pattern::from_slice(alloc, pattern)?)?;
    Ok(())
}
