//! Blocks of addresses as text.

ghost use Rattle.std.specs.Prelude.{◌≡◌, ◌↔◌, ◌≤◌, ◌/◌, ◌^◌, ℕ, List, IfSome, IsTrue, Some};
ghost use Rattle.ip_match.specs.Blocks.{IsBlock, IsInside, width_of};

use crate::address::{Address, read_address};
use crate::numeral::read_decimal;
use crate::parts::cut;

/// The addresses of one family that begin with the same bits as `address`. The bits behind the first `bits` are kept
/// as they were written, and say nothing.
#[derive(Clone, Copy, Debug, PartialEq, Eq)]
pub struct Block {
    pub address: Address,
    /// How many leading bits count: at most 32 or 128.
    pub bits: u8,
}

/// The block that the whole text writes, or `None` where it writes no block: an address, or an address, `/` and a
/// number of bits (RFC 4632, section 3.1). An address alone is a block of all its bits.
pub fn read_block(text: &[u8]) -> Option<Block>
    // What is read is written so.
    ensures found { IfSome result (λ block. IsBlock text.now block) }
    // What is written so is what is read.
    ensures only { (block : Block) → IsBlock text.now block → result ≡ Some block }
    ensures bits { IfSome result (λ block. block.bits ≤ width_of block.address) }
{
    match cut(text, b'/') {
        None => {
            let address = read_address(text)?;
            Some(Block {
                address,
                bits: address.width(),
            })
        }
        Some((front, back)) => {
            let address = read_address(front)?;
            let bits = read_decimal(back, address.width())?;
            Some(Block { address, bits })
        }
    }
}

/// A law: a text writes one block at most.
pub fn block_is_unique()
    ensures { (text : List ℕ) (a b : Block) → IsBlock text a → IsBlock text b → a ≡ b }
{}

// Whether the numbers agree but for so many bits at their end.
fn same_quotients(a: u128, b: u128, bits_behind: u32) -> bool
    ensures { IsTrue result ↔ (a / 2 ^ bits_behind ≡ b / 2 ^ bits_behind) }
{
    bits_behind >= u128::BITS || a >> bits_behind == b >> bits_behind
}

/// Whether the address is of the block's family and begins with its leading bits.
pub(crate) fn is_inside(address: Address, block: Block) -> bool
    requires { block.bits ≤ width_of block.address }
    ensures { IsTrue result ↔ IsInside address block.address block.bits }
{
    let bits = u32::from(block.bits);
    match (address, block.address) {
        (Address::V4(a), Address::V4(b)) => {
            same_quotients(u128::from(a), u128::from(b), 32 - bits)
        }
        (Address::V6(a), Address::V6(b)) => same_quotients(a, b, 128 - bits),
        _ => false,
    }
}
