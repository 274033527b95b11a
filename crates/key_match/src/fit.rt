//! Whether a key fits a pattern. A key that does not fit is tried again from the latest rest, and within what
//! follows it from the latest stretch: an earlier one has nothing to gain from another part.

ghost use Rattle.std.specs.Prelude.{◌≡◌, ◌≤◌, ◌∷◌, drop, length};
ghost use Rattle.key_match.specs.Pieces.{Stretch, Rest};
ghost use Rattle.key_match.specs.Helps.Fits.{pieces_fit, pieces_from, StopsAt, Reaches};

use crate::bytes::place_from;
use crate::token::{Dialect, Token, passes, token_at};

/// A place in the pattern, and one in the key.
#[derive(Clone, Copy)]
pub(crate) struct Place {
    pub(crate) pattern: usize,
    pub(crate) key: usize,
}

// What comes of matching byte by byte from a place.
#[derive(Clone, Copy)]
enum RunEnd {
    // The pattern and the key end together.
    Fits,
    // The key does not fit from this place on.
    Mismatch,
    // Nor does it from any later place in the key.
    KeyEnded,
    // What stands here may take bytes without `/`.
    Stretch(Place),
    // What stands here may take any bytes.
    Rest(Place),
}

// What comes of matching from a place up to the next rest.
#[derive(Clone, Copy)]
enum Reach {
    // The key fits.
    Fits,
    // It does not fit from this place on.
    NotHere,
    // Nor does it from a later place before the next `/`.
    NotBeforeSlash,
    // Nor does it from any later place in the key.
    Nowhere,
    // What stands here may take any bytes.
    Rest(Place),
}

// Matches byte by byte, up to a piece whose part may be chosen.
fn run(dialect: Dialect, pattern: &[u8], key: &[u8], from: Place) -> RunEnd
    requires { from.key ≤ length key.now }
    ensures { StopsAt dialect pattern.now key.now from result }
{
    let mut at = from;
    while let Some(reading) = token_at(dialect, pattern, at.pattern) {
        let behind = Place {
            pattern: reading.next,
            key: at.key,
        };
        match reading.token {
            Token::Rest => return RunEnd::Rest(behind),
            Token::Stretch => return RunEnd::Stretch(behind),
            Token::Segment(_) => {
                if at.key == key.len() {
                    return RunEnd::KeyEnded;
                }
                if key[at.key] == b'/' {
                    return RunEnd::Mismatch;
                }
                return RunEnd::Stretch(Place {
                    pattern: reading.next,
                    key: at.key + 1,
                });
            }
            Token::One(test) => {
                if at.key == key.len() {
                    return RunEnd::KeyEnded;
                }
                if !passes(test, key[at.key]) {
                    return RunEnd::Mismatch;
                }
                at = Place {
                    pattern: reading.next,
                    key: at.key + 1,
                };
            }
        }
    }
    if at.key == key.len() {
        RunEnd::Fits
    } else {
        RunEnd::Mismatch
    }
}

// Matches from within a stretch up to the next rest.
fn stretch(dialect: Dialect, pattern: &[u8], key: &[u8], from: Place) -> Reach
    requires { from.key ≤ length key.now }
    ensures { Reaches dialect pattern.now key.now (Stretch ∷ pieces_from dialect pattern.now from)
        from result }
{
    let mut mark = from;
    loop {
        match run(dialect, pattern, key, mark) {
            RunEnd::Fits => return Reach::Fits,
            RunEnd::KeyEnded => return Reach::Nowhere,
            RunEnd::Rest(to) => return Reach::Rest(to),
            RunEnd::Stretch(to) => mark = to,
            RunEnd::Mismatch => {
                if mark.key == key.len() || key[mark.key] == b'/' {
                    return Reach::NotBeforeSlash;
                }
                mark.key += 1;
            }
        }
    }
}

// Matches from a place up to the next rest.
fn reach_rest(dialect: Dialect, pattern: &[u8], key: &[u8], from: Place) -> Reach
    requires { from.key ≤ length key.now }
    ensures { Reaches dialect pattern.now key.now
        (pieces_from dialect pattern.now from) from result }
{
    match run(dialect, pattern, key, from) {
        RunEnd::Fits => Reach::Fits,
        RunEnd::Mismatch => Reach::NotHere,
        RunEnd::KeyEnded => Reach::Nowhere,
        RunEnd::Rest(to) => Reach::Rest(to),
        RunEnd::Stretch(to) => stretch(dialect, pattern, key, to),
    }
}

/// Whether the key fits from within a rest.
pub(crate) fn fits_rest(dialect: Dialect, pattern: &[u8], key: &[u8], from: Place) -> bool
    requires { from.key ≤ length key.now }
    ensures { result ≡ pieces_fit (Rest ∷ pieces_from dialect pattern.now from) (drop from.key key.now) }
{
    let mut mark = from;
    loop {
        match reach_rest(dialect, pattern, key, mark) {
            Reach::Fits => return true,
            Reach::Nowhere => return false,
            Reach::Rest(to) => mark = to,
            Reach::NotHere => {
                if mark.key == key.len() {
                    return false;
                }
                mark.key += 1;
            }
            Reach::NotBeforeSlash => {
                let slash = place_from(key, b'/', mark.key);
                if slash == key.len() {
                    return false;
                }
                mark.key = slash + 1;
            }
        }
    }
}

/// Whether the key fits from a place on.
pub(crate) fn fits_from(dialect: Dialect, pattern: &[u8], key: &[u8], from: Place) -> bool
    requires { from.key ≤ length key.now }
    ensures { result ≡ pieces_fit (pieces_from dialect pattern.now from) (drop from.key key.now) }
{
    match reach_rest(dialect, pattern, key, from) {
        Reach::Fits => true,
        Reach::Rest(to) => fits_rest(dialect, pattern, key, to),
        Reach::NotHere | Reach::NotBeforeSlash | Reach::Nowhere => false,
    }
}
