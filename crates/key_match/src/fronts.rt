//! The bytes that each key begins with that fits a pattern.

ghost use Rattle.std.specs.Prelude.{◌≡◌};
ghost use Rattle.key_match.specs.Fronts.{brace_front, colon_front, glob_front, plain_bytes, star_front};
ghost use Rattle.key_match.specs.Helps.Tokens.{piece_of, pieces_of};
ghost use Rattle.key_match.specs.Helps.Fronts.{is_itself};

use crate::bytes::place_from;
use crate::token::{ByteTest, Dialect, Token, token_at};

/// The front of a pattern of `key_match`: all before its first `*`.
pub fn key_match_front(pattern: &[u8]) -> &[u8]
    ensures { result.now ≡ star_front pattern.now }
{
    &pattern[..place_from(pattern, b'*', 0)]
}

/// The front of a pattern of `key_match2`: all before its first sign.
pub fn key_match2_front(pattern: &[u8]) -> &[u8]
    ensures { result.now ≡ colon_front pattern.now }
{
    plain_front(Dialect::Colon, pattern)
}

/// The front of a pattern of `key_match3`, `key_match4` or `key_match5`: all before its first sign.
pub fn key_match3_front(pattern: &[u8]) -> &[u8]
    ensures { result.now ≡ brace_front pattern.now }
{
    plain_front(Dialect::Brace, pattern)
}

/// The front of a pattern of `glob_match`: all before its first sign.
pub fn glob_match_front(pattern: &[u8]) -> &[u8]
    ensures { result.now ≡ glob_front pattern.now }
{
    plain_front(Dialect::Glob, pattern)
}

fn plain_front(dialect: Dialect, pattern: &[u8]) -> &[u8]
    ensures { result.now ≡ plain_bytes (pieces_of dialect pattern.now) }
{
    let mut at = 0;
    while let Some(reading) = token_at(dialect, pattern, at) {
        if !is_itself(reading.token) {
            return &pattern[..at];
        }
        at += 1;
    }
    &pattern[..at]
}

// Whether a token is one byte for itself.
fn is_itself(token: Token) -> bool
    ensures { result ≡ is_itself (piece_of token.entry) }
{
    match token {
        Token::One(ByteTest::Only(_)) => true,
        _ => false,
    }
}
