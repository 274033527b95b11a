//! Patterns in which equal names stand for equal parts.

ghost use Rattle.std.specs.Prelude.{◌≡◌, ◌≤◌, ◌↔◌, ◌∷◌, IsTrue, drop, length, option_copied, None, true};
ghost use Rattle.std.specs.List.{list_any};
ghost use Rattle.key_match.specs.Pieces.{Segment};
ghost use Rattle.key_match.specs.Patterns.{brace_pieces};
ghost use Rattle.key_match.specs.Helps.Tokens.{piece_of, pieces_at};
ghost use Rattle.key_match.specs.Names.{CoversAlike};
ghost use Rattle.key_match.specs.Helps.Parts.{AreEnds};
ghost use Rattle.key_match.specs.Helps.Fits.{pieces_fit, pieces_from};
ghost use Rattle.key_match.specs.Divisions.{has_name};
ghost use Rattle.key_match.specs.Helps.Given.{given_part, is_free_of, AreParts, CoversGiven, IsNameless, PassesTo};

use crate::fit::{Place, fits_from};
use crate::part::{Ends, is_named, part_ends};
use crate::token::{Dialect, Reading, Token, token_at};

// The parts that names were given.
#[derive(Clone, Copy)]
enum Given<'a> {
    Nothing,
    And {
        name: &'a [u8],
        part: &'a [u8],
        before: &'a Given<'a>,
    },
}

/// Whether a key fits a pattern with `/*` and `{name}` so that equal names stand for equal parts, as Casbin's
/// `keyMatch4` says.
pub fn key_match4(key: &[u8], pattern: &[u8]) -> bool
    ensures { IsTrue result ↔ CoversAlike (brace_pieces pattern.now) key.now }
{
    fits_given(pattern, key, Place { pattern: 0, key: 0 }, &Given::Nothing)
}

// Whether the key fits from a place on, with the parts that names were given before.
#[cycle(search)]
fn fits_given<'a>(pattern: &'a [u8], key: &'a [u8], from: Place, given: &'a Given<'a>) -> bool
    requires within { from.key ≤ length key.now }
    requires parts { AreParts given.now }
    ensures { IsTrue result ↔ CoversGiven given.now
        (pieces_from Dialect.Brace pattern.now from) (drop from.key key.now) }
{
    if !fits_from(Dialect::Brace, pattern, key, from) {
        return false;
    }
    let at = pass_bytes(pattern, key, from);
    if is_free(pattern, at.pattern, given) {
        return true;
    }
    let Some(reading) = token_at(Dialect::Brace, pattern, at.pattern) else {
        return true;
    };
    let ends = part_ends(reading.token, key, at.key);
    match reading.token {
        Token::Segment(name) => match part_of(given, name) {
            Some(part) => {
                key[at.key..].starts_with(part)
                    && {
                        let end = at.key + part.len();
                        let behind = Place {
                            pattern: reading.next,
                            key: end,
                        };
                        fits_given(pattern, key, behind, given)
                    }
            }
            None => fits_new_name(pattern, key, at.key, reading.next, ends, name, given),
        },
        Token::One(_) | Token::Stretch | Token::Rest => {
            fits_some_end(pattern, key, at.key, reading, ends, given)
        }
    }
}

// Whether the key fits with some part for a segment whose name was given none.
#[cycle(search)]
fn fits_new_name<'a>(
    pattern: &'a [u8],
    key: &'a [u8],
    from: usize,
    next: usize,
    ends: Ends,
    name: &'a [u8],
    given: &'a Given<'a>,
) -> bool
    requires within { from ≤ length key.now }
    requires ends { AreEnds (Segment name.now) key.now from ends }
    requires new { given_part given.now name.now ≡ None }
    requires parts { AreParts given.now }
    ensures { IsTrue result ↔ CoversGiven given.now
        (Segment name.now ∷ pieces_at Dialect.Brace pattern.now next) (drop from key.now) }
{
    let mut end = ends.least;
    loop {
        let more = Given::And {
            name,
            part: &key[from..end],
            before: given,
        };
        if fits_given(
            pattern,
            key,
            Place {
                pattern: next,
                key: end,
            },
            &more,
        ) {
            return true;
        }
        if end == ends.most {
            return false;
        }
        end += 1;
    }
}

// Whether the key fits with some part for a token that has no name.
#[cycle(search)]
fn fits_some_end<'a>(
    pattern: &'a [u8],
    key: &'a [u8],
    from: usize,
    reading: Reading,
    ends: Ends,
    given: &'a Given<'a>,
) -> bool
    requires within { from ≤ length key.now }
    requires nameless { IsNameless (piece_of reading.token) }
    requires ends { AreEnds (piece_of reading.token) key.now from ends }
    requires parts { AreParts given.now }
    ensures { IsTrue result ↔ CoversGiven given.now
        (piece_of reading.entry.token ∷ pieces_at Dialect.Brace pattern.now reading.entry.next)
        (drop from key.now) }
{
    let mut end = ends.least;
    loop {
        if fits_given(
            pattern,
            key,
            Place {
                pattern: reading.next,
                key: end,
            },
            given,
        ) {
            return true;
        }
        if end == ends.most {
            return false;
        }
        end += 1;
    }
}

// The part that a name was given.
fn part_of<'a>(given: &Given<'a>, name: &[u8]) -> Option<&'a [u8]>
    ensures { option_copied result ≡ given_part given.now name.now }
{
    let mut at = given;
    while let Given::And {
        name: found,
        part,
        before,
    } = at
    {
        if *found == name {
            return Some(*part);
        }
        at = *before;
    }
    None
}

// Whether the pattern has a segment of the name from a place on.
fn occurs(pattern: &[u8], from: usize, name: &[u8]) -> bool
    ensures { result ≡ list_any (has_name name.now) (pieces_at Dialect.Brace pattern.now from) }
{
    let mut at = from;
    while let Some(reading) = token_at(Dialect::Brace, pattern, at) {
        if is_named(reading.token, name) {
            return true;
        }
        at = reading.next;
    }
    false
}

// Whether the names from a place of the pattern on are all new, and none comes twice.
fn is_free(pattern: &[u8], from: usize, given: &Given) -> bool
    ensures { result ≡ is_free_of given.now (pieces_at Dialect.Brace pattern.now from) }
{
    let mut at = from;
    while let Some(reading) = token_at(Dialect::Brace, pattern, at) {
        if let Token::Segment(name) = reading.token {
            if part_of(given, name).is_some() || occurs(pattern, reading.next, name) {
                return false;
            }
        }
        at = reading.next;
    }
    true
}

// Passes over what stands for itself, where the key fits.
fn pass_bytes(pattern: &[u8], key: &[u8], from: Place) -> Place
    requires within { from.key ≤ length key.now }
    requires fitting { pieces_fit
        (pieces_from Dialect.Brace pattern.now from) (drop from.key key.now) ≡ true }
    ensures { PassesTo pattern.now key.now from result }
{
    let mut at = from;
    while let Some(reading) = token_at(Dialect::Brace, pattern, at.pattern) {
        let Token::One(_) = reading.token else {
            return at;
        };
        at = Place {
            pattern: reading.next,
            key: at.key + 1,
        };
    }
    at
}
