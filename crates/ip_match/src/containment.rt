//! Whether an address lies in a block.

ghost use Rattle.std.specs.Prelude.{◌≡◌, ◌↔◌, IfOk, IsOkAnd, IsTrue, Err};
ghost use Rattle.ip_match.specs.declared.address.Address.{Address};
ghost use Rattle.ip_match.specs.declared.block.Block.{Block};
ghost use Rattle.ip_match.specs.Addresses.{IsAddress};
ghost use Rattle.ip_match.specs.Blocks.{IsBlock, IsInside};

use crate::address::read_address;
use crate::block::{is_inside, read_block};

/// Why a match has no answer.
#[derive(Clone, Copy, Debug, PartialEq, Eq)]
pub enum IpFault {
    /// The first text is no address.
    BadAddress,
    /// The first text is an address, and the second is no block.
    BadBlock,
}

/// Whether the address that `a` writes lies in the block that `b` writes: both are of one family and agree in the
/// block's leading bits.
pub fn ip_match(a: &[u8], b: &[u8]) -> Result<bool, IpFault>
    ensures found { IfOk result (λ inside. (address : Address) × (block : Block)
        × IsAddress a.now address × IsBlock b.now block
        × (IsTrue inside ↔ IsInside address block.address block.bits)) }
    ensures only { (address : Address) → (block : Block)
        → IsAddress a.now address → IsBlock b.now block
        → IsOkAnd result (λ inside. IsTrue inside ↔ IsInside address block.address block.bits) }
    ensures bad_address { (result ≡ Err IpFault.BadAddress)
        ↔ ((address : Address) → ¬ (IsAddress a.now address)) }
    ensures bad_block { (result ≡ Err IpFault.BadBlock)
        ↔ (((address : Address) × IsAddress a.now address)
        × ((block : Block) → ¬ (IsBlock b.now block))) }
{
    let address = read_address(a).ok_or(IpFault::BadAddress)?;
    let block = read_block(b).ok_or(IpFault::BadBlock)?;
    Ok(is_inside(address, block))
}
