ghost use Rattle.std.specs.Prelude.{◌≡◌, Some, IfSome};
ghost use Rattle.regex_gate.specs.Found.{has_match};
ghost use Rattle.regex_keep.specs.Helps.Dfas.{answer_of, IsDfaOf};

use regex_dfa::{Dfa, End, Forward};
use regex_syntax::{Config, Parsed};
use std::alloc::Global;
use std::marker::Model;

// How many bytes the states of what is compiled take at most.
const STATE_BYTES: usize = 1 << 16;

// How many bytes the rows that searches build take at most.
const ROW_BYTES: usize = 1 << 16;

/// What searches texts for one pattern, and keeps what it builds on the way. Contracts see the pattern.
pub(crate) struct KeptSearch {
    pattern: Vec<u8>,
    dfa: Dfa,
    forward: Forward,
}

impl Model for KeptSearch {
    ghost use Rattle.std.specs.Prelude.{List, ℕ};
    ghost use Rattle.regex_dfa.specs.Search.{IsForwardFor};
    ghost use Rattle.regex_keep.specs.Helps.Dfas.{IsDfaOf};

    ghost Value = { List ℕ };

    ghost view = { λ s. s.pattern.items };

    ghost invariant = { λ s. IsDfaOf s.pattern.items s.dfa × IsForwardFor s.forward s.dfa };
}

impl KeptSearch {
    /// A search for a pattern that `regex` reads. There is none where it would be too large to be kept, or memory
    /// runs out.
    pub(crate) fn new(alloc: Global, pattern: &[u8]) -> Option<KeptSearch>
        ensures { IfSome result (λ search. search ≡ pattern.now) }
    {
        let Ok(source) = str::from_utf8(pattern) else {
            return None;
        };
        let Some(dfa) = dfa_of(alloc, source) else {
            return None;
        };
        let Ok(forward) = Forward::with_budget(alloc, &dfa, false, ROW_BYTES) else {
            return None;
        };
        let Ok(pattern) = Vec::from_slice(alloc, pattern) else {
            return None;
        };
        Some(KeptSearch {
            pattern,
            dfa,
            forward,
        })
    }

    /// Whether the pattern is found in a text. None where the search gives up.
    pub(crate) fn find(&mut self, text: &[u8]) -> Option<bool>
        ensures found { IfSome result (λ is_found. has_match self.old text.now ≡ Some is_found) }
        ensures same { self.new ≡ self.old }
    {
        answer_of(
            self.forward
                .find_end(&self.dfa, text, 0, text.len(), false, true),
        )
    }
}

// Written out, so that a caller's proof sees one call and not the drop of each field.
impl Drop for KeptSearch {
    fn drop(self) {
        let KeptSearch {
            pattern: _pattern,
            dfa: _dfa,
            forward: _forward,
        } = self;
    }
}

// Whether a search that stops at the first match has met one.
fn answer_of(end: End) -> Option<bool>
    ensures { result ≡ answer_of end }
{
    match end {
        End::At(_) => Some(true),
        End::NoMatch => Some(false),
        End::Idle(_) | End::GaveUp => None,
    }
}

fn dfa_of(alloc: Global, pattern: &str) -> Option<Dfa>
    ensures { IfSome result (IsDfaOf pattern.now) }
{
    let config = Config {
        utf8: false,
        ..Config::default()
    };
    let Ok(Parsed { hir, names }) = regex_syntax::parse(alloc, pattern, &config) else {
        return None;
    };
    let Ok(groups) = u32::try_from(names.len()) else {
        return None;
    };
    let Ok(nfa) = regex_compile::compile(alloc, &hir, groups, STATE_BYTES) else {
        return None;
    };
    let Ok(dfa) = Dfa::new(alloc, nfa) else {
        return None;
    };
    Some(dfa)
}
