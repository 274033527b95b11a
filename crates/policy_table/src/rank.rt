ghost use Rattle.std.specs.Prelude.{◌≡◌};
ghost use Rattle.std.specs.Ordering.{is_lt};
ghost use Rattle.policy_table.specs.Ranks.{is_above, is_above_rank, integer_of, rank};

use perm_base::Rule;
use std::cmp::Ordering;

/// The rank of a rule: the number of its first field, where that is one.
pub(crate) fn rank(rule: &Rule) -> Option<i64>
    ensures { result ≡ rank rule.now }
{
    if rule.len() == 0 {
        return None;
    }
    integer_of(rule.text(0))
}

/// Whether one rank is above another.
pub(crate) fn is_above_rank(first: Option<i64>, second: Option<i64>) -> bool
    ensures { result ≡ is_above_rank first second }
{
    match (first, second) {
        (Some(first), Some(second)) => second < first,
        (None, Some(_)) => true,
        (_, None) => false,
    }
}

/// How the ranks of two rules compare.
pub(crate) fn compare(first: &Rule, second: &Rule) -> Ordering
    ensures { is_lt result ≡ is_above second.now first.now }
{
    let (first, second) = (rank(first), rank(second));
    if is_above_rank(second, first) {
        return Ordering::Less;
    }
    if is_above_rank(first, second) {
        return Ordering::Greater;
    }
    Ordering::Equal
}

// The whole number that a text writes in digits, with `-` before them or not, where it fits 64 bits.
fn integer_of(text: &str) -> Option<i64>
    ensures { result ≡ integer_of text.now }
{
    // `parse` takes a `+` too.
    if text.starts_with('+') {
        return None;
    }
    text.parse().ok()
}
