ghost use Rattle.std.specs.Prelude.{◌≡◌, ◌∷◌, MatchBool, [], codes, false};
ghost use Rattle.matcher_read.specs.Grammar.{cmp_rule};
ghost use Rattle.matcher_read.specs.Helps.Machine.{is_in as is_in_word, rank};
ghost use Rattle.matcher_read.specs.Helps.TakenTokens.{joins_by, rule_of};
ghost use Rattle.matcher_read.specs.Helps.TokenLists.{pieces};

use crate::calls::Called;
use crate::tree::Operator;

/// The rules whose operators may be repeated; they group from the left.
#[derive(Clone, Copy)]
pub(crate) enum Chain {
    Or,
    And,
    Sum,
    Term,
}

/// What follows a sum: an operator that compares, or the word `in`.
#[derive(Clone, Copy)]
pub(crate) enum Comparing {
    By { at: u32, operator: Operator },
    In { at: u32 },
    Nothing,
}

/// A sign before an operand.
#[derive(Clone, Copy)]
pub(crate) enum Sign {
    Not { at: u32 },
    Negate { at: u32 },
}

/// What comes before a parenthesis where an operand is expected.
#[derive(Clone, Copy)]
pub(crate) enum Opener {
    Parenthesis,
    Call { at: u32, called: Called },
    Nothing,
}

/// Whether an operator stands between the parts of a rule.
pub(crate) fn joins(operator: Operator, chain: Chain) -> bool
    ensures { result ≡ joins_by (rule_of chain) (rank operator) }
{
    match chain {
        Chain::Or => matches!(operator, Operator::Or),
        Chain::And => matches!(operator, Operator::And),
        Chain::Sum => matches!(operator, Operator::Plus | Operator::Minus),
        Chain::Term => matches!(
            operator,
            Operator::Times | Operator::Over | Operator::Remainder
        ),
    }
}

/// Whether an operator compares.
pub(crate) fn compares(operator: Operator) -> bool
    ensures { result ≡ joins_by cmp_rule (rank operator) }
{
    matches!(
        operator,
        Operator::Equal
            | Operator::NotEqual
            | Operator::Less
            | Operator::AtMost
            | Operator::Greater
            | Operator::AtLeast
    )
}

/// Whether a name is the word `in`.
pub(crate) fn is_in(name: &str) -> bool
    ensures { MatchBool result (pieces name.now ≡ codes "in" ∷ [])
        (is_in_word (pieces name.now) ≡ false) }
{
    name == "in"
}
