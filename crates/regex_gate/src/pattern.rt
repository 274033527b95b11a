ghost use Rattle.std.specs.Prelude.{◌≡◌, IfOk};

use outside::NoMemory;
use std::alloc::Global;
use std::marker::Model;

/// A pattern that a finder keeps. Contracts see its bytes.
#[derive(Drop)]
pub(crate) struct Pattern {
    bytes: Vec<u8>,
}

impl Model for Pattern {
    ghost use Rattle.std.specs.Prelude.{List, ℕ};

    ghost Value = { List ℕ };

    ghost view = { λ p. p.bytes.items };
}

impl Pattern {
    /// A copy of these bytes.
    pub(crate) fn from_slice(alloc: Global, bytes: &[u8]) -> Result<Pattern, NoMemory>
        ensures { IfOk result (λ copy. copy ≡ bytes.now) }
    {
        Ok(Pattern {
            bytes: Vec::from_slice(alloc, bytes)?,
        })
    }

    /// The bytes as they are.
    pub(crate) fn bytes(&self) -> &[u8]
        ensures { result.now ≡ self.now }
    {
        &self.bytes
    }
}
