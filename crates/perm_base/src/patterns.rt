ghost use Rattle.std.specs.Prelude.{◌≡◌};
ghost use Rattle.perm_base.specs.Patterns.{is_pattern, signs_of};

use crate::shapes::Fit;

/// Whether a text holds a sign of the function: `*` of `keyMatch`, `*` or `:` of `keyMatch2`, `*` or `{` of
/// `keyMatch3`, and `*`, `?` or `[` of `globMatch`. A text without one fits itself alone.
pub fn is_pattern(fit: Fit, text: &[u8]) -> bool
    ensures { result ≡ is_pattern fit text.now }
{
    let signs = signs_of(fit);
    text.iter().any(|byte| signs.contains(byte))
}

fn signs_of(fit: Fit) -> &'static [u8]
    ensures { result.now ≡ signs_of fit }
{
    match fit {
        Fit::Exact => b"",
        Fit::KeyMatch => b"*",
        Fit::KeyMatch2 => b"*:",
        Fit::KeyMatch3 => b"*{",
        Fit::Glob => b"*?[",
    }
}
