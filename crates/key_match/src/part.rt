//! The part of a key that a named segment stands for.

ghost use Rattle.std.specs.Prelude.{◌≡◌, ◌≤◌, ◌<◌, ◌∷◌, ℕ, drop, length, true, MatchBool};
ghost use Rattle.key_match.specs.Pieces.{Rest};
ghost use Rattle.key_match.specs.Patterns.{colon_pieces, brace_pieces};
ghost use Rattle.key_match.specs.Helps.Tokens.{piece_of, pieces_of, pieces_at};
ghost use Rattle.key_match.specs.Helps.Fits.{pieces_fit};
ghost use Rattle.key_match.specs.Divisions.{
  LongerFirst,
  ShorterSegmentFirst,
  IsNamedPart,
  has_name,
};
ghost use Rattle.key_match.specs.Helps.Parts.{
  order_of,
  HasPart,
  AreEnds,
  NoneLater,
  NoneEarlier,
  IsChosen,
};

use crate::bytes::place_from;
use crate::fit::{Place, fits_from, fits_rest};
use crate::token::{Dialect, Reading, Token, token_at};

// Which part of a segment is taken, of those with which the rest of the key fits.
#[derive(Clone, Copy)]
enum Choice {
    Longest,
    Shortest,
}

/// The least and the greatest place where a part may end.
#[derive(Clone, Copy)]
pub(crate) struct Ends {
    pub(crate) least: usize,
    pub(crate) most: usize,
}

/// The part of a key that the first segment `:name` stands for, with the pattern of `key_match2`, as Casbin's `keyGet2`
/// says; empty where the key does not fit or no segment has the name. From the left, each piece takes the longest part
/// with which the rest of the key fits.
pub fn key_get2<'a>(key: &'a [u8], pattern: &[u8], name: &[u8]) -> &'a [u8]
    ensures { IsNamedPart LongerFirst (colon_pieces pattern.now) key.now name.now result.now }
{
    named_part(Dialect::Colon, Choice::Longest, key, pattern, name)
}

/// The part of a key that the first segment `{name}` stands for, with the pattern of `key_match3`, as Casbin's `keyGet3`
/// says; empty where the key does not fit or no segment has the name. From the left, each segment takes the shortest and
/// each `*` the longest part with which the rest of the key fits.
pub fn key_get3<'a>(key: &'a [u8], pattern: &[u8], name: &[u8]) -> &'a [u8]
    ensures { IsNamedPart ShorterSegmentFirst (brace_pieces pattern.now) key.now name.now
        result.now }
{
    named_part(Dialect::Brace, Choice::Shortest, key, pattern, name)
}

fn named_part<'a>(
    dialect: Dialect,
    segments: Choice,
    key: &'a [u8],
    pattern: &[u8],
    name: &[u8],
) -> &'a [u8]
    ensures { IsNamedPart (order_of segments) (pieces_of dialect pattern.now) key.now name.now
        result.now }
{
    let mut at = Place { pattern: 0, key: 0 };
    if !fits_from(dialect, pattern, key, at) {
        return &[];
    }
    while let Some(reading) = token_at(dialect, pattern, at.pattern) {
        let end = part_end(dialect, segments, pattern, key, at.key, reading);
        if is_named(reading.token, name) {
            return &key[at.key..end];
        }
        at = Place {
            pattern: reading.next,
            key: end,
        };
    }
    &[]
}

/// Whether a token is a segment with the name.
pub(crate) fn is_named(token: Token, name: &[u8]) -> bool
    ensures { result ≡ has_name name.now (piece_of token.entry) }
{
    match token {
        Token::Segment(found) => found == name,
        _ => false,
    }
}

// Where the part of a token ends that begins at a place of the key.
fn part_end(
    dialect: Dialect,
    segments: Choice,
    pattern: &[u8],
    key: &[u8],
    from: usize,
    reading: Reading,
) -> usize
    requires within { from ≤ length key.now }
    requires fitting { pieces_fit
        (piece_of reading.token ∷ pieces_at dialect pattern.now reading.next) (drop from key.now)
        ≡ true }
    ensures { IsChosen (order_of segments) (piece_of reading.entry.token)
        (pieces_at dialect pattern.now reading.entry.next) key.now from result }
{
    let ends = part_ends(reading.token, key, from);
    if is_shortest(segments, reading.token) {
        first_fit(dialect, pattern, key, reading.next, ends)
    } else {
        last_fit(dialect, pattern, key, reading.next, ends)
    }
}

// Whether the shortest part of a token is taken, rather than the longest.
fn is_shortest(segments: Choice, token: Token) -> bool
    ensures { MatchBool result
        ((one other : ℕ) → order_of segments (piece_of token.entry) one other → one < other)
        ((one other : ℕ) → order_of segments (piece_of token.entry) one other → other < one) }
{
    match (segments, token) {
        (Choice::Shortest, Token::Segment(_)) => true,
        _ => false,
    }
}

/// Where a part of a token may end, if there is one.
pub(crate) fn part_ends(token: Token, key: &[u8], from: usize) -> Ends
    requires { HasPart (piece_of token) key.now from }
    ensures { AreEnds (piece_of token.entry) key.now from result }
{
    match token {
        Token::One(_) => Ends {
            least: from + 1,
            most: from + 1,
        },
        Token::Segment(_) => Ends {
            least: from + 1,
            most: place_from(key, b'/', from),
        },
        Token::Stretch => Ends {
            least: from,
            most: place_from(key, b'/', from),
        },
        Token::Rest => Ends {
            least: from,
            most: key.len(),
        },
    }
}

// The last of some places of the key from which it fits the pattern from `next` on; the first place where there is none.
fn last_fit(dialect: Dialect, pattern: &[u8], key: &[u8], next: usize, ends: Ends) -> usize
    requires ordered { ends.least ≤ ends.most }
    requires within { ends.most ≤ length key.now }
    ensures last { NoneLater
        (pieces_at dialect pattern.now next) key.now ends.least ends.most result }
    ensures fitting { ends.least < result
        → pieces_fit (pieces_at dialect pattern.now next) (drop result key.now) ≡ true }
{
    let mut end = ends.most;
    while end > ends.least && !fits_behind(dialect, pattern, key, next, end) {
        if end == key.len() {
            return last_to_end(dialect, pattern, key, next, ends);
        }
        end -= 1;
    }
    end
}

// The same for places up to the key's end, found by halving: whether the key fits from a place or a later one is one
// match.
fn last_to_end(dialect: Dialect, pattern: &[u8], key: &[u8], next: usize, ends: Ends) -> usize
    requires ordered { ends.least ≤ ends.most }
    requires whole { ends.most ≡ length key.now }
    ensures last { NoneLater
        (pieces_at dialect pattern.now next) key.now ends.least ends.most result }
    ensures fitting { ends.least < result
        → pieces_fit (pieces_at dialect pattern.now next) (drop result key.now) ≡ true }
{
    let mut low = ends.least;
    let mut high = ends.most;
    while low < high {
        let middle = high - (high - low) / 2;
        if fits_later(dialect, pattern, key, next, middle) {
            low = middle;
        } else {
            high = middle - 1;
        }
    }
    low
}

// The first of some places of the key from which it fits the pattern from `next` on; the last place where there is
// none.
fn first_fit(dialect: Dialect, pattern: &[u8], key: &[u8], next: usize, ends: Ends) -> usize
    requires ordered { ends.least ≤ ends.most }
    requires within { ends.most ≤ length key.now }
    ensures first { NoneEarlier
        (pieces_at dialect pattern.now next) key.now ends.least ends.most result }
    ensures fitting { result < ends.most
        → pieces_fit (pieces_at dialect pattern.now next) (drop result key.now) ≡ true }
{
    let mut end = ends.least;
    while end < ends.most && !fits_behind(dialect, pattern, key, next, end) {
        end += 1;
    }
    end
}

// Whether the key from a place on fits the pattern from `next` on.
fn fits_behind(dialect: Dialect, pattern: &[u8], key: &[u8], next: usize, end: usize) -> bool
    requires { end ≤ length key.now }
    ensures { result ≡ pieces_fit (pieces_at dialect pattern.now next) (drop end key.now) }
{
    let from = Place {
        pattern: next,
        key: end,
    };
    fits_from(dialect, pattern, key, from)
}

// Whether the key from a place or a later one on fits the pattern from `next` on.
fn fits_later(dialect: Dialect, pattern: &[u8], key: &[u8], next: usize, end: usize) -> bool
    requires { end ≤ length key.now }
    ensures { result ≡ pieces_fit (Rest ∷ pieces_at dialect pattern.now next) (drop end key.now) }
{
    let from = Place {
        pattern: next,
        key: end,
    };
    fits_rest(dialect, pattern, key, from)
}
