ghost use Rattle.std.specs.Prelude.{◌≡◌};
ghost use Rattle.policy_table.specs.Ranks.{integer_of, rank};

use perm_base::Rule;

/// The rank of a rule: the number of its first field, where that is one.
pub(crate) fn rank(rule: &Rule) -> Option<i64>
    ensures { result ≡ rank rule.now }
{
    if rule.len() == 0 {
        return None;
    }
    integer_of(rule.text(0))
}

// The whole number that a text writes in digits, with `-` before them or not, where it fits 64 bits: what a rule is ranked by.
fn integer_of(text: &str) -> Option<i64>
    ensures { result ≡ integer_of text.now }
{
    // `parse` takes a `+` too.
    if text.starts_with('+') {
        return None;
    }
    text.parse().ok()
}
