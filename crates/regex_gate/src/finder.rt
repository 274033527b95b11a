ghost use Rattle.std.specs.Prelude.{◌≡◌, List, ℕ};
ghost use Rattle.regex_gate.specs.Finders.{Finds};
ghost use Rattle.regex_gate.specs.Refusals.{Refusals, IsRefused, IsUsed};
ghost use Rattle.regex_gate.specs.declared.finder.FindStop.TheVariants as stops;

use outside::NoMemory;

/// What searches texts for patterns that have the syntax of the crate `regex`. It counts what it refuses, and keeps
/// a log of the patterns that it refused.
pub trait Finder: Send + Drop {
    /// How often the finder has refused, and the patterns of its refusals, in their order. The count stands still at
    /// 2^64 - 1.
    ghost refusals: { Self → Refusals };

    /// Whether a text holds a match of a pattern, as the crate `regex` defines it in its forms over bytes. A pattern
    /// that cannot be read is refused; a finder may refuse others.
    fn find(&mut self, pattern: &[u8], text: &[u8]) -> Result<bool, FindStop>
        ensures finds { Finds (refusals self.old) (refusals self.new) pattern.now text.now result };
}

/// Why a text was not searched.
#[derive(Clone, Copy, Debug, PartialEq, Eq)]
pub enum FindStop {
    /// The finder refused the pattern, counted it and put it into its log.
    Refused,
    /// Memory ran out. Nothing is refused.
    NoMemory,
}

impl From<NoMemory> for FindStop {
    ghost from_gives = { λ _ stop. stop ≡ stops.NoMemory };

    fn from(_: NoMemory) -> FindStop {
        FindStop::NoMemory
    }
}

/// The law that uses of a finder, one after another, are one use, and that what it refused in one of them was refused
/// in all of them.
pub fn uses_add_up()
    ensures none { (refusals : Refusals) → IsUsed refusals refusals }
    ensures again { (before between now : Refusals)
        → IsUsed before between → IsUsed between now → IsUsed before now }
    ensures since { (before between now : Refusals) (pattern : List ℕ)
        → IsUsed before between → IsRefused between now pattern → IsRefused before now pattern }
    ensures still { (before between now : Refusals) (pattern : List ℕ)
        → IsRefused before between pattern → IsUsed between now → IsRefused before now pattern }
{}
