ghost use Rattle.std.specs.Prelude.{◌≡◌, [], get_or};

use perm_base::Rule;

/// The text at a place, or the empty text behind the last.
pub(crate) fn text_or_empty(rule: &Rule, at: u32) -> &str
    ensures { result.now ≡ get_or rule.now at [] }
{
    if at < rule.len() { rule.text(at) } else { "" }
}
