//! Marked places in a fixed space.

ghost use Rattle.std.specs.Prelude.{◌≡◌, ◌+◌, ◌*◌, ◌<◌, ◌≤◌, ◌⊎◌, ◌↔◌, ℕ, IfSome, IfNone, IsTrue, length};
ghost use Rattle.role_graph.specs.Helps.Marks.{Extends, IsSet};

use std::marker::Model;

/// How many words there are, each with the marks of 64 places.
const WORDS: usize = 3_125;

/// Places that are marked. Contracts see whether each is.
#[derive(Drop)]
pub(crate) struct Marks {
    words: [u64; WORDS],
}

impl Model for Marks {
    ghost use Rattle.std.specs.Prelude.{List, ℕ};

    ghost Value = { List ℕ };

    ghost view = { λ m. m.words };
}

impl Marks {
    /// No place is marked.
    pub(crate) fn new() -> Marks
        ensures { (at : ℕ) → IsSet result at → ⊥ }
    {
        Marks { words: [0; WORDS] }
    }

    /// Whether a place is marked.
    pub(crate) fn has(&self, at: usize) -> bool
        requires { at < 200000 }
        ensures { IsTrue result ↔ IsSet self.now at }
    {
        (self.words[at / 64] >> (at % 64)) & 1 == 1
    }

    /// Marks a place.
    pub(crate) fn set(&mut self, at: usize)
        requires { at < 200000 }
        ensures marked { IsSet self.new at }
        ensures kept { (other : ℕ) → IsSet self.old other → IsSet self.new other }
        ensures only { (other : ℕ) → IsSet self.new other → IsSet self.old other ⊎ (other ≡ at) }
    {
        self.words[at / 64] |= 1u64 << (at % 64);
    }

    /// Takes the marks of the places below one. Its time is that of so many places.
    pub(crate) fn clear(&mut self, upto: usize)
        requires { upto ≤ 200000 }
        ensures { (at : ℕ) → at < upto → IsSet self.new at → ⊥ }
    {
        for word in 0..(upto + 63) / 64 {
            self.words[word] = 0;
        }
    }

    /// The first marked place from here on.
    pub(crate) fn next(&self, from: usize) -> Option<usize>
        ensures found { IfSome result (λ at. (from ≤ at) × (at < 200000) × IsSet self.now at) }
        ensures first { IfSome result (λ at. (other : ℕ) → from ≤ other → other < at
            → IsSet self.now other → ⊥) }
        ensures none { IfNone result ((other : ℕ) → from ≤ other → IsSet self.now other → ⊥) }
    {
        let word = from / 64;
        if word >= WORDS {
            return self.next_word(word);
        }
        let left = self.words[word] >> (from % 64);
        if left != 0 {
            return Some(from + left.trailing_zeros() as usize);
        }
        self.next_word(word + 1)
    }

    // The first marked place from a word on.
    fn next_word(&self, from: usize) -> Option<usize>
        ensures found { IfSome result (λ at. (64 * from ≤ at) × (at < 200000)
            × IsSet self.now at) }
        ensures first { IfSome result (λ at. (other : ℕ) → 64 * from ≤ other → other < at
            → IsSet self.now other → ⊥) }
        ensures none { IfNone result ((other : ℕ) → 64 * from ≤ other → IsSet self.now other → ⊥) }
    {
        for word in from..WORDS {
            let marks = self.words[word];
            if marks != 0 {
                return Some(64 * word + marks.trailing_zeros() as usize);
            }
        }
        None
    }

    /// Whether no place is marked.
    pub(crate) fn is_empty(&self) -> bool
        ensures { IsTrue result → (at : ℕ) → IsSet self.now at → ⊥ }
    {
        self.next(0).is_none()
    }
}

/// Marks a place, and notes it as new, unless it is marked.
pub(crate) fn reach(at: usize, reached: &mut Marks, fresh: &mut Marks)
    requires { at < 200000 }
    ensures marked { IsSet reached.new at }
    ensures marks { Extends (λ other. other ≡ at) reached.old fresh.old reached.new fresh.new }
{
    if !reached.has(at) {
        reached.set(at);
        fresh.set(at);
    }
}
