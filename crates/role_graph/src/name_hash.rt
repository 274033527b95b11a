//! How names are hashed.

ghost use Rattle.std.specs.Prelude.{◌≡◌, slice_get, unwrap_or};
ghost use Rattle.role_graph.specs.Helps.NameHash.{mixed};

use std::hash::{BuildHasherDefault, Hasher};

const MULTIPLIER: u64 = 0x9e37_79b9_7f4a_7c15;

/// Hashes a name, which is fed as its length and then its bytes, one after the other: of each piece the first byte counts. A
/// hasher for texts as a whole does more than twice the work for each byte.
#[derive(Clone, Copy)]
pub struct NameHasher {
    state: u64,
}

/// What makes a hasher for each name of a map.
pub type NameHash = BuildHasherDefault<NameHasher>;

impl Default for NameHasher {
    ghost use Rattle.role_graph.specs.Helps.NameHash.{initial};

    ghost is_default = { λ hasher. hasher ≡ initial };

    fn default() -> NameHasher {
        NameHasher {
            state: 0x243f_6a88_85a3_08d3,
        }
    }
}

impl Hasher for NameHasher {
    ghost use Rattle.role_graph.specs.Helps.NameHash.{finished, written};

    ghost write = { written };

    ghost finish = { finished };

    #[inline(always)]
    fn finish(&self) -> u64 {
        self.state
    }

    #[inline(always)]
    fn write(&mut self, bytes: &[u8]) {
        self.state = mix(self.state, first_byte(bytes));
    }
}

// The state behind a byte.
#[inline(always)]
fn mix(state: u64, byte: u8) -> u64
    ensures { result ≡ mixed state byte }
{
    (state ^ u64::from(byte)).wrapping_mul(MULTIPLIER)
}

// The first byte of a piece.
#[inline(always)]
fn first_byte(bytes: &[u8]) -> u8
    ensures { result ≡ unwrap_or (slice_get bytes.now 0) 0 }
{
    bytes.first().copied().unwrap_or(0)
}
