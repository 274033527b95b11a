ghost use Rattle.std.specs.Prelude.{◌≡◌, ◌≢◌, Err, false, IfOk, MatchOption, MatchResult, Ok, ℕ, map, true};
ghost use Rattle.matcher_read.specs.Calls.{takes as accepts};
ghost use Rattle.matcher_read.specs.Expression as tree;
ghost use Rattle.matcher_read.specs.Expression.{count, expression, expressions_of};
ghost use Rattle.matcher_read.specs.Helps.TakenTokens.{callee, operand_of, signed_by};
ghost use Rattle.matcher_read.specs.Helps.TokenLists.{HasDigits, token_of};

use crate::calls::{Called, takes};
use crate::fault::MatcherFault;
use crate::names::operand_by;
use crate::number::number_by;
use crate::token::{PlacedToken, Token};
use crate::tree::{Operator, Tree};
use crate::words::Sign;
use outside::{NoMemory, Text};
use std::alloc::Global;

/// An operator between two sides.
pub(crate) fn binary(
    alloc: Global,
    at: u32,
    operator: Operator,
    left: Tree,
    right: Tree,
) -> Result<Tree, NoMemory>
    ensures { IfOk result (λ made. expression made
        ≡ tree.binary at operator (expression left) (expression right)) }
{
    Ok(Tree::Binary {
        at,
        operator,
        left: Box::new(alloc, left)?,
        right: Box::new(alloc, right)?,
    })
}

/// A value that is looked up among members.
pub(crate) fn among(
    alloc: Global,
    at: u32,
    value: Tree,
    members: Vec<Tree>,
) -> Result<Tree, NoMemory>
    ensures { IfOk result (λ made. expression made
        ≡ tree.among at (expression value) (expressions_of (map expression members.items))) }
{
    Ok(Tree::Among {
        at,
        value: Box::new(alloc, value)?,
        members,
    })
}

/// An operand behind its sign.
pub(crate) fn signed(alloc: Global, sign: Sign, operand: Tree) -> Result<Tree, NoMemory>
    ensures { IfOk result (λ made. expression made ≡ signed_by sign (expression operand)) }
{
    let operand = Box::new(alloc, operand)?;
    Ok(match sign {
        Sign::Not { at } => Tree::Not { at, operand },
        Sign::Negate { at } => Tree::Negate { at, operand },
    })
}

/// A call with its arguments.
pub(crate) fn call(at: u32, called: Called, arguments: Vec<Tree>) -> Result<Tree, MatcherFault>
    ensures { let given = expressions_of (map expression arguments.items) in
        let right = accepts (callee called) (count given) in MatchResult result
        (λ made. (right ≡ true) × (expression made ≡ tree.call at (callee called) given))
        (λ fault. (right ≡ false) × (fault ≡ MatcherFault.WrongArguments at)) }
{
    if !takes(called, arguments.len()) {
        return Err(MatcherFault::WrongArguments { at });
    }
    match called_with(at, called, arguments) {
        Some(tree) => Ok(tree),
        None => Err(MatcherFault::WrongArguments { at }),
    }
}

// A call of a function, or a question to a role relation.
fn called_with(at: u32, called: Called, arguments: Vec<Tree>) -> Option<Tree>
    ensures { MatchOption result ((given : ℕ) → accepts (callee called) given ≡ false)
        (λ made. expression made
        ≡ tree.call at (callee called) (expressions_of (map expression arguments.items))) }
{
    match called {
        Called::Function(function) => Some(Tree::Call {
            at,
            function,
            arguments,
        }),
        Called::Relation(relation) => Some(Tree::Role {
            at,
            relation,
            arguments,
        }),
        Called::Eval => None,
    }
}

/// The literal, the name or the `eval` of a column that a token is, with so many levels left.
pub(crate) fn literal(alloc: Global, next: PlacedToken, levels: u8) -> Result<Tree, MatcherFault>
    requires { HasDigits (token_of next.token) }
    ensures { let operand = operand_of levels next.entry.at (token_of next.entry.token) in
        MatchResult result (λ made. operand ≡ Ok (expression made))
        (λ fault. fault ≢ MatcherFault.NoMemory → operand ≡ Err fault) }
{
    let at = next.at;
    match next.token {
        Token::Text(text) => Ok(Tree::Text {
            at,
            text: Text::from_str(alloc, text)?,
        }),
        Token::Unclosed(_) => Err(MatcherFault::OpenText { at }),
        Token::Number(digits) => match number_by(digits) {
            Some(number) => Ok(Tree::Whole { at, number }),
            None => Err(MatcherFault::NumberTooWide { at }),
        },
        Token::Eval { opening, column } => {
            if levels == 0 {
                return Err(MatcherFault::TooDeep { at: opening });
            }
            Ok(Tree::Eval {
                at,
                column: Text::from_str(alloc, column)?,
            })
        }
        Token::Name(name) => match operand_by(alloc, at, name)? {
            Some(tree) => Ok(tree),
            None => Err(MatcherFault::Unexpected { at }),
        },
        _ => Err(MatcherFault::Unexpected { at }),
    }
}
