//! IPv6 addresses as text.

ghost use Rattle.std.specs.Prelude.{◌≡◌, ℕ, ◌+◌, ◌*◌, ◌<◌, ◌≤◌, ◌^◌, List, length, IfSome, IsSomeAnd, Some};
ghost use Rattle.std.specs.Option.{SomeIff};
ghost use Rattle.std.specs.Int.Digits.{number_from_digits};
ghost use Rattle.ip_match.specs.Addresses.{AreGroups, group_numbers, IsShortened, IsV6, IsWhole};

use crate::numeral::read_group;
use crate::parts::{cut, cut_at_gap};

const EIGHT: u32 = 8;

// How many groups were read, and the number that they write.
#[derive(Clone, Copy)]
struct Groups {
    count: u32,
    number: u128,
}

impl Groups {
    // One more group behind these, where there is room.
    fn push(self, group: u16) -> Option<Groups>
        requires { self.number < 2 ^ (16 * self.count) }
        ensures { SomeIff result (self.count < 8)
            (record { count = self.count + 1; number = self.number * 65536 + group }) }
    {
        if self.count >= EIGHT {
            return None;
        }
        Some(Groups {
            count: self.count + 1,
            number: self.number * 65536 + u128::from(group),
        })
    }
}

// Groups joined by colons, at most eight; none is the empty text.
fn read_groups(text: &[u8]) -> Option<Groups>
    ensures found { IfSome result (λ read. (groups : List (List ℕ)) × AreGroups text.now groups
        × (read ≡ record {
          count = length groups;
          number = number_from_digits 65536 (group_numbers groups);
        })) }
    ensures only { (groups : List (List ℕ)) → AreGroups text.now groups → length groups ≤ 8
        → result ≡ Some (record {
          count = length groups;
          number = number_from_digits 65536 (group_numbers groups);
        }) }
    ensures most { IfSome result (λ read. read.count ≤ 8) }
    ensures small { IfSome result (λ read. read.number < 2 ^ (16 * read.count)) }
{
    let mut groups = Groups {
        count: 0,
        number: 0,
    };
    if text.is_empty() {
        return Some(groups);
    }
    let mut rest = text;
    while let Some((part, after)) = cut(rest, b':') {
        groups = groups.push(read_group(part)?)?;
        rest = after;
    }
    groups.push(read_group(rest)?)
}

// The number of eight groups.
fn read_whole(text: &[u8]) -> Option<u128>
    ensures found { IfSome result (λ number. IsWhole text.now number) }
    ensures only { (number : ℕ) → IsWhole text.now number → result ≡ Some number }
{
    let groups = read_groups(text)?;
    if groups.count == EIGHT {
        Some(groups.number)
    } else {
        None
    }
}

// The number of the groups on both sides of a `::`.
fn read_shortened(front: &[u8], back: &[u8]) -> Option<u128>
    ensures found { IfSome result (λ number. IsShortened front.now back.now number) }
    ensures only { (number : ℕ) → IsShortened front.now back.now number → result ≡ Some number }
{
    let left = read_groups(front)?;
    let right = read_groups(back)?;
    if left.count + right.count >= EIGHT {
        return None;
    }
    // A shift by all 128 bits has no meaning.
    if left.count == 0 {
        return Some(right.number);
    }
    Some((left.number << (16 * (EIGHT - left.count))) + right.number)
}

/// The number of an IPv6 address.
pub(crate) fn read_v6(text: &[u8]) -> Option<u128>
    ensures found { IfSome result (λ number. IsV6 text.now number) }
    ensures only { (number : ℕ) → IsV6 text.now number → result ≡ Some number }
{
    match cut_at_gap(text) {
        None => read_whole(text),
        Some((front, back)) => read_shortened(front, back),
    }
}
