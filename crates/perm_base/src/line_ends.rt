ghost use Rattle.std.specs.Prelude.{◌≡◌, ◌+◌, ◌≤◌, false, length, position, take};
ghost use Rattle.std.specs.List.{list_any};
ghost use Rattle.std.specs.Simd.Lanes.{chunk};
ghost use Rattle.perm_base.specs.LineEnds.{has_line_end, is_line_end};
ghost use Rattle.perm_base.specs.FieldSteps.{ends_plain};

use std::simd::prelude::*;

/// The text holds CR or LF.
pub(crate) fn has_line_end(text: &str) -> bool
    ensures { result ≡ has_line_end text.now }
{
    text.as_bytes().iter().any(|byte| is_line_end(*byte))
}

/// The place of the first CR or LF.
pub(crate) fn first_line_end(text: &str) -> Option<usize>
    ensures { result ≡ position is_line_end text.now }
{
    text.as_bytes().iter().position(|byte| is_line_end(*byte))
}

/// The place of the first comma, CR or LF.
#[inline(always)]
pub(crate) fn plain_end(text: &str) -> Option<usize>
    ensures { result ≡ position ends_plain text.now }
{
    let bytes = text.as_bytes();
    let front = plain_front(bytes);
    match first_end(&bytes[front..]) {
        Some(at) => Some(front + at),
        None => None,
    }
}

// So many bytes in front are none of these: groups of eight are looked at, up to one where a comma stands, or a byte below it.
#[inline(always)]
fn plain_front(bytes: &[u8]) -> usize
    ensures within { result ≤ length bytes.now }
    ensures none { list_any ends_plain (take result bytes.now) ≡ false }
{
    let mut at = 0;
    while bytes.len() - at >= 8 {
        let above = above_comma(bytes, at);
        at += above;
        if above < 8 {
            return at;
        }
    }
    at
}

// How many of the eight bytes from a place on stand before the first that is a comma or below it.
#[inline(always)]
fn above_comma(bytes: &[u8], at: usize) -> usize
    requires { at + 8 ≤ length bytes.now }
    ensures few { result ≤ 8 }
    ensures none { list_any ends_plain (chunk at result bytes.now) ≡ false }
{
    let group = u8x8::from_slice(&bytes[at..]);
    let low = group.simd_lt(u8x8::splat(45)).to_bitmask();
    if low == 0 {
        return 8;
    }
    low.trailing_zeros() as usize
}

fn first_end(bytes: &[u8]) -> Option<usize>
    ensures { result ≡ position ends_plain bytes.now }
{
    bytes.iter().position(|byte| ends_plain(*byte))
}

fn ends_plain(byte: u8) -> bool
    ensures { result ≡ ends_plain byte }
{
    byte <= b',' && (byte == b',' || is_line_end(byte))
}

fn is_line_end(byte: u8) -> bool
    ensures { result ≡ is_line_end byte }
{
    byte == b'\r' || byte == b'\n'
}
