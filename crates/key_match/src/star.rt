//! Patterns that count up to their first `*`.

ghost use Rattle.std.specs.Prelude.{◌≡◌, ◌↔◌, IsTrue};
ghost use Rattle.key_match.specs.Stars.{AgreesToStar, part_at_star};

use crate::bytes::place_from;

/// Whether a key fits a pattern in which the first `*`, with all after it, stands for any bytes, as Casbin's
/// `keyMatch` says. A pattern without `*` fits itself alone.
pub fn key_match(key: &[u8], pattern: &[u8]) -> bool
    ensures { IsTrue result ↔ AgreesToStar key.now pattern.now }
{
    let star = place_from(pattern, b'*', 0);
    if star == pattern.len() {
        key == pattern
    } else {
        key.starts_with(&pattern[..star])
    }
}

/// The part of a key that the first `*` of a pattern stands for, as Casbin's `keyGet` says; empty where the pattern
/// has no `*` or the key does not fit.
pub fn key_get<'a>(key: &'a [u8], pattern: &[u8]) -> &'a [u8]
    ensures { result.now ≡ part_at_star key.now pattern.now }
{
    let star = place_from(pattern, b'*', 0);
    if star < pattern.len() && key.starts_with(&pattern[..star]) {
        &key[star..]
    } else {
        &[]
    }
}
