//! The functions that read a pattern as pieces.

ghost use Rattle.std.specs.Prelude.{◌≡◌, ◌↔◌, ◌==◌, IsTrue};
ghost use Rattle.std.specs.List.{before_first};
ghost use Rattle.key_match.specs.Pieces.{Covers};
ghost use Rattle.key_match.specs.Patterns.{colon_pieces, brace_pieces, glob_pieces};
ghost use Rattle.key_match.specs.Helps.Tokens.{pieces_of};

use crate::bytes::place_from;
use crate::fit::{Place, fits_from};
use crate::token::Dialect;

/// Whether a key fits a pattern with `/*` and `:name`, as Casbin's `keyMatch2` says.
pub fn key_match2(key: &[u8], pattern: &[u8]) -> bool
    ensures { IsTrue result ↔ Covers (colon_pieces pattern.now) key.now }
{
    fits_whole(Dialect::Colon, pattern, key)
}

/// Whether a key fits a pattern with `/*` and `{name}`, as Casbin's `keyMatch3` says.
pub fn key_match3(key: &[u8], pattern: &[u8]) -> bool
    ensures { IsTrue result ↔ Covers (brace_pieces pattern.now) key.now }
{
    fits_whole(Dialect::Brace, pattern, key)
}

/// Whether a key, without its first `?` and what follows, fits a pattern with `/*` and `{name}`, as Casbin's `keyMatch5`
/// says.
pub fn key_match5(key: &[u8], pattern: &[u8]) -> bool
    ensures { IsTrue result
        ↔ Covers (brace_pieces pattern.now) (before_first (λ byte. byte == 63) key.now) }
{
    fits_whole(Dialect::Brace, pattern, without_query(key))
}

/// Whether a key fits a glob with `*`, `?` and classes, none of which takes a `/`, as Casbin's `globMatch` says.
pub fn glob_match(key: &[u8], pattern: &[u8]) -> bool
    ensures { IsTrue result ↔ Covers (glob_pieces pattern.now) key.now }
{
    fits_whole(Dialect::Glob, pattern, key)
}

fn fits_whole(dialect: Dialect, pattern: &[u8], key: &[u8]) -> bool
    ensures { IsTrue result ↔ Covers (pieces_of dialect pattern.now) key.now }
{
    fits_from(dialect, pattern, key, Place { pattern: 0, key: 0 })
}

// A key without its first `?` and what follows.
fn without_query(key: &[u8]) -> &[u8]
    ensures { result.now ≡ before_first (λ byte. byte == 63) key.now }
{
    &key[..place_from(key, b'?', 0)]
}
