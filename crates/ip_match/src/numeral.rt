//! Numbers as digits.

ghost use Rattle.std.specs.Prelude.{◌≡◌, ℕ, ◌<◌, ◌≤◌, ◌^◌, length, decimal, IfSome, Some};
ghost use Rattle.std.specs.Option.{SomeIff};
ghost use Rattle.std.specs.Str.Parse.{IsNumeral, digits_value};
ghost use Rattle.ip_match.specs.Addresses.{IsGroup};

const ZERO: u8 = b'0';

// What the digits write, where it is at most `most`.
fn read_digits(text: &[u8], radix: u32, most: u32) -> Option<u32>
    requires radix_above { 2 ≤ radix }
    requires radix_below { radix ≤ 16 }
    requires most_below { most < 2 ^ 16 }
    ensures { SomeIff result
        (IsNumeral radix text.now × (digits_value radix text.now ≤ most))
        (digits_value radix text.now) }
{
    if text.is_empty() {
        return None;
    }
    let mut number = 0;
    for byte in text {
        number = number * radix + (*byte as char).to_digit(radix)?;
        if number > most {
            return None;
        }
    }
    Some(number)
}

/// A decimal number without leading zeros, at most `most`.
pub(crate) fn read_decimal(text: &[u8], most: u8) -> Option<u8>
    ensures found { IfSome result (λ number. (text.now ≡ decimal number) × (number ≤ most)) }
    ensures only { (number : ℕ) → number ≤ most → text.now ≡ decimal number → result ≡ Some number }
{
    if text.len() > 1 && text[0] == ZERO {
        return None;
    }
    let number = read_digits(text, 10, u32::from(most))?;
    Some(number as u8)
}

/// A group of an IPv6 address.
pub(crate) fn read_group(text: &[u8]) -> Option<u16>
    ensures { SomeIff result (IsGroup text.now) (digits_value 16 text.now) }
{
    if text.len() > 4 {
        return None;
    }
    let number = read_digits(text, 16, 0xffff)?;
    Some(number as u16)
}
