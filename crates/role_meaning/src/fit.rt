//! Whether a name fits a name of a row.

ghost use Rattle.std.specs.Prelude.{◌↔◌, IsTrue};
ghost use Rattle.role_meaning.specs.Fits.{Fits, IsMatched};

use key_match::{glob_match, key_match, key_match2, key_match3};
use perm_base::Fit;

/// Whether a name is the pattern's text, or the matching function holds of the two, as Casbin's
/// role manager compares them. It takes no memory.
#[tactic(auto, unfolding(crate::specs::Fits::Fits))]
pub fn fits(fit: Fit, name: &[u8], pattern: &[u8]) -> bool
    ensures { IsTrue result ↔ Fits fit name.now pattern.now }
{
    name == pattern || is_matched(fit, name, pattern)
}

// Whether the function holds of a name and a pattern.
fn is_matched(fit: Fit, name: &[u8], pattern: &[u8]) -> bool
    ensures { IsTrue result ↔ IsMatched fit name.now pattern.now }
{
    match fit {
        Fit::Exact => false,
        Fit::KeyMatch => key_match(name, pattern),
        Fit::KeyMatch2 => key_match2(name, pattern),
        Fit::KeyMatch3 => key_match3(name, pattern),
        Fit::Glob => glob_match(name, pattern),
    }
}
