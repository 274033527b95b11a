//! Commas and quotes in a text, looked for at several places at once.
ghost use Rattle.std.specs.Prelude.{◌≡◌, ◌+◌, ◌<◌, ◌≤◌, ◌||◌, length};
ghost use Rattle.std.specs.List.{list_any};
ghost use Rattle.std.specs.Simd.Lanes.{chunk};
ghost use Rattle.text_parts.specs.Lines.{has_byte};
ghost use Rattle.perm_base.specs.FieldSteps.{is_mark};

use std::simd::prelude::*;

/// The text holds a comma or a double quote.
pub(crate) fn has_mark(text: &str) -> bool
    ensures { result ≡ (has_byte 44 text.now || has_byte 34 text.now) }
{
    let bytes = text.as_bytes();
    if bytes.len() < 4 {
        return is_marked(bytes);
    }
    if bytes.len() < 8 {
        return is_marked_by::<4>(bytes);
    }
    is_marked_by::<8>(bytes)
}

// One of a few bytes is a comma or a quote.
fn is_marked(bytes: &[u8]) -> bool
    ensures { result ≡ list_any is_mark bytes.now }
{
    bytes.iter().any(|byte| is_mark(*byte))
}

// One of the bytes is a comma or a quote. The last group may overlap the one before it.
fn is_marked_by<const N: usize>(bytes: &[u8]) -> bool
    requires { (0 < N) × (N ≤ 64) × (N ≤ length bytes.now) }
    ensures { result ≡ list_any is_mark bytes.now }
{
    let mut at = 0;
    while N < bytes.len() - at {
        if is_group_marked::<N>(bytes, at) {
            return true;
        }
        at += N;
    }
    is_group_marked::<N>(bytes, bytes.len() - N)
}

// One of the N bytes from a place on is a comma or a quote.
#[inline(always)]
fn is_group_marked<const N: usize>(bytes: &[u8], at: usize) -> bool
    requires { (0 < N) × (N ≤ 64) × (at + N ≤ length bytes.now) }
    ensures { result ≡ list_any is_mark (chunk at N bytes.now) }
{
    group_has::<N>(bytes, at, b',') || group_has::<N>(bytes, at, b'"')
}

// One of the N bytes from a place on is this byte.
#[inline(always)]
fn group_has<const N: usize>(bytes: &[u8], at: usize, byte: u8) -> bool
    requires { (0 < N) × (N ≤ 64) × (at + N ≤ length bytes.now) }
    ensures { result ≡ has_byte byte (chunk at N bytes.now) }
{
    let group = Simd::<u8, N>::from_slice(&bytes[at..]);
    group.simd_eq(Simd::splat(byte)).to_bitmask() != 0
}

fn is_mark(byte: u8) -> bool
    ensures { result ≡ is_mark byte }
{
    byte <= b',' && (byte == b',' || byte == b'"')
}
