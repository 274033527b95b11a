//! Addresses as text.

ghost use Rattle.std.specs.Prelude.{◌≡◌, ℕ, List, IfSome, Some};
ghost use Rattle.ip_match.specs.Addresses.{IsAddress};

use crate::colons::read_v6;
use crate::dotted::read_v4;

/// An address of one of the two families, as a number.
#[derive(Clone, Copy, Debug, PartialEq, Eq)]
pub enum Address {
    /// Four octets, the first the highest.
    V4(u32),
    /// Eight groups of 16 bits, the first the highest.
    V6(u128),
}

impl Address {
    ghost use Rattle.ip_match.specs.Blocks.{width_of};

    /// How many bits an address of this family has.
    pub(crate) fn width(self) -> u8
        ensures { result ≡ width_of self }
    {
        match self {
            Address::V4(_) => 32,
            Address::V6(_) => 128,
        }
    }
}

/// The address that the whole text writes, or `None` where it writes no address: four decimal numbers joined by dots,
/// or hexadecimal groups joined by colons (RFC 4291, section 2.2), without a zone and without a dotted tail.
pub fn read_address(text: &[u8]) -> Option<Address>
    // What is read is written so.
    ensures found { IfSome result (λ address. IsAddress text.now address) }
    // What is written so is what is read.
    ensures only { (address : Address) → IsAddress text.now address → result ≡ Some address }
{
    match read_v4(text) {
        Some(number) => Some(Address::V4(number)),
        None => Some(Address::V6(read_v6(text)?)),
    }
}

/// A law: a text writes one address at most.
pub fn address_is_unique()
    ensures { (text : List ℕ) (a b : Address) → IsAddress text a → IsAddress text b → a ≡ b }
{}
