//! IPv4 addresses as text.

ghost use Rattle.std.specs.Prelude.{◌≡◌, ℕ, IfSome, Some};
ghost use Rattle.ip_match.specs.Addresses.{IsV4};

use crate::numeral::read_decimal;
use crate::parts::cut;

const LARGEST_OCTET: u8 = 255;

/// The number of an IPv4 address.
pub(crate) fn read_v4(text: &[u8]) -> Option<u32>
    ensures found { IfSome result (λ number. IsV4 text.now number) }
    ensures only { (number : ℕ) → IsV4 text.now number → result ≡ Some number }
{
    let (first, rest) = cut(text, b'.')?;
    let (second, rest) = cut(rest, b'.')?;
    let (third, fourth) = cut(rest, b'.')?;
    let first = read_decimal(first, LARGEST_OCTET)?;
    let second = read_decimal(second, LARGEST_OCTET)?;
    let third = read_decimal(third, LARGEST_OCTET)?;
    let fourth = read_decimal(fourth, LARGEST_OCTET)?;
    Some(u32::from_be_bytes([first, second, third, fourth]))
}
