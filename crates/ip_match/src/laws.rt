//! The law that what the texts of a match say is decided.

ghost use Rattle.std.specs.Prelude.{◌↔◌, ◌⊎◌, ℕ, Bool, List, IsTrue};
ghost use Rattle.ip_match.specs.declared.address.Address.{Address};
ghost use Rattle.ip_match.specs.declared.block.Block.{Block};
ghost use Rattle.ip_match.specs.Addresses.{IsAddress};
ghost use Rattle.ip_match.specs.Blocks.{IsBlock, IsInside};

/// The law that a text writes an address or none, and a block or none, and that a test tells whether an address begins
/// with the leading bits of another.
pub fn addresses_are_decided()
    ensures address { (text : List ℕ) → ((a : Address) × IsAddress text a)
        ⊎ ((a : Address) → ¬ (IsAddress text a)) }
    ensures block { (text : List ℕ) → ((b : Block) × IsBlock text b)
        ⊎ ((b : Block) → ¬ (IsBlock text b)) }
    ensures inside { (a b : Address) (bits : ℕ) → (t : Bool) × (IsTrue t ↔ IsInside a b bits) }
{}
