ghost use Rattle.std.specs.Prelude.{◌≡◌, ℕ, ◌+◌, ◌<◌, ◌^◌, IfSome, get_or, length, nat_lt, replicate};
ghost use Rattle.policy_index.specs.Helps.Kept.{is_front, one_if};

use outside::Share;
use std::marker::Model;

const SIZES: usize = 256;

/// How many rows have a front of each length. Contracts see the counts, by length.
pub(crate) struct Fronts {
    counts: [u32; SIZES],
}

// Written out, so that a caller's proof sees one call and not the drop of each field.
impl Drop for Fronts {
    fn drop(self) {
        let Fronts { counts: _counts } = self;
    }
}

impl Model for Fronts {
    ghost use Rattle.std.specs.Prelude.{List, ℕ};

    ghost Value = { List ℕ };

    ghost view = { λ f. f.counts };
}

impl Fronts {
    pub(crate) fn new() -> Fronts
        ensures { result ≡ replicate 256 0 }
    {
        Fronts { counts: [0; SIZES] }
    }

    /// Whether some row has a front of a length.
    pub(crate) fn has(&self, size: u8) -> bool
        ensures { result ≡ nat_lt 0 (get_or self.now size 0) }
    {
        self.counts[size as usize] > 0
    }

    /// Counts a row with this front, or without one.
    pub(crate) fn add(&mut self, front: Option<u8>)
        requires few { IfSome front (λ size. get_or self.old size 0 + 1 < 2 ^ 32) }
        ensures sizes { length self.new ≡ length self.old }
        ensures counts { (size : ℕ) → get_or self.new size 0
            ≡ get_or self.old size 0 + one_if (is_front size front) }
    {
        let Some(size) = front else {
            return;
        };
        self.counts[size as usize] += 1;
    }

    /// Takes a row with this front, or without one, out of the counts.
    pub(crate) fn take(&mut self, front: Option<u8>)
        requires some { IfSome front (λ size. 0 < get_or self.old size 0) }
        ensures sizes { length self.new ≡ length self.old }
        ensures counts { (size : ℕ) → get_or self.new size 0 + one_if (is_front size front)
            ≡ get_or self.old size 0 }
    {
        let Some(size) = front else {
            return;
        };
        self.counts[size as usize] -= 1;
    }

    /// The same counts once more.
    pub(crate) fn copy(&self) -> Fronts
        ensures { result ≡ self.now }
    {
        Fronts {
            counts: self.counts,
        }
    }
}

impl Share for Fronts {}
