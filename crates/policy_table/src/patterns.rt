ghost use Rattle.std.specs.Prelude.{◌≡◌, ◌+◌, ◌<◌, ◌≤◌, ◌^◌, false, if◌then◌else◌, true};
ghost use Rattle.perm_base.specs.Patterns.{is_pattern};
ghost use Rattle.perm_base.specs.declared.shapes.Fit as declared;
ghost use Rattle.policy_table.specs.Helps.Domains.{pattern_count};

use outside::Share;
use perm_base::{Fit, is_pattern};

/// How many texts are patterns of each function.
#[derive(Clone, Copy)]
pub(crate) struct Patterns {
    pub(crate) key_match: u64,
    pub(crate) key_match2: u64,
    pub(crate) key_match3: u64,
    pub(crate) glob: u64,
}

impl Patterns {
    pub(crate) fn new() -> Patterns
        ensures { (fit : declared.Fit) → pattern_count result fit ≡ 0 }
    {
        Patterns {
            key_match: 0,
            key_match2: 0,
            key_match3: 0,
            glob: 0,
        }
    }

    /// How many are patterns of one function.
    pub(crate) fn count(self, fit: Fit) -> u64
        ensures { result ≡ pattern_count self fit }
    {
        match fit {
            Fit::Exact => 0,
            Fit::KeyMatch => self.key_match,
            Fit::KeyMatch2 => self.key_match2,
            Fit::KeyMatch3 => self.key_match3,
            Fit::Glob => self.glob,
        }
    }

    /// With one text more.
    pub(crate) fn with(self, text: &[u8]) -> Patterns
        requires { (fit : declared.Fit) → pattern_count self fit + 1 < 2 ^ 64 }
        ensures { (fit : declared.Fit) → pattern_count result fit
            ≡ pattern_count self fit + (if is_pattern fit text.now then 1 else 0) }
    {
        Patterns {
            key_match: self.key_match + u64::from(is_pattern(Fit::KeyMatch, text)),
            key_match2: self.key_match2 + u64::from(is_pattern(Fit::KeyMatch2, text)),
            key_match3: self.key_match3 + u64::from(is_pattern(Fit::KeyMatch3, text)),
            glob: self.glob + u64::from(is_pattern(Fit::Glob, text)),
        }
    }

    /// With one text more that is counted already: where none is a pattern it is none.
    pub(crate) fn with_again(self, text: &[u8]) -> Patterns
        requires { (fit : declared.Fit) → pattern_count self fit + 1 < 2 ^ 64 }
        ensures { ((fit : declared.Fit) → pattern_count self fit ≡ 0
            → is_pattern fit text.now ≡ false) → (fit : declared.Fit) → pattern_count result fit
            ≡ pattern_count self fit + (if is_pattern fit text.now then 1 else 0) }
    {
        if self.is_empty() {
            return self;
        }
        self.with(text)
    }

    // Whether no text is a pattern.
    fn is_empty(self) -> bool
        ensures { result ≡ true → (fit : declared.Fit) → pattern_count self fit ≡ 0 }
    {
        self.key_match == 0 && self.key_match2 == 0 && self.key_match3 == 0 && self.glob == 0
    }

    /// With one of them less.
    pub(crate) fn without(self, text: &[u8]) -> Patterns
        requires { (fit : declared.Fit)
            → (if is_pattern fit text.now then 1 else 0) ≤ pattern_count self fit }
        ensures { (fit : declared.Fit) → pattern_count self fit
            ≡ pattern_count result fit + (if is_pattern fit text.now then 1 else 0) }
    {
        Patterns {
            key_match: self.key_match - u64::from(is_pattern(Fit::KeyMatch, text)),
            key_match2: self.key_match2 - u64::from(is_pattern(Fit::KeyMatch2, text)),
            key_match3: self.key_match3 - u64::from(is_pattern(Fit::KeyMatch3, text)),
            glob: self.glob - u64::from(is_pattern(Fit::Glob, text)),
        }
    }
}

impl Share for Patterns {}
