//! The words of which an expression is written.

ghost use Rattle.std.specs.Prelude.{◌≡◌, ◌++◌, OnOk, codes};
ghost use Rattle.std.specs.Fmt.{signed_decimal};
ghost use Rattle.matcher_read.specs.Expression.{expression, relation};
ghost use Rattle.matcher_read.specs.Tokens.{sign};
ghost use Rattle.near_miss.specs.Written.{callee_word, is_inside, left_rank, path_words, quoted, rank, request_words, right_rank, truth_word, when};
ghost use Rattle.near_miss.specs.Written as ranks;
ghost use Rattle.near_miss.specs.Helps.Pushed.{Appends};

use itoa::Buffer;
use matcher_read::{Operator, Tree};
use outside::{NoMemory, Text};
use perm_base::TableId;
use text_parts::has_byte;

// How tightly the rules of the grammar bind.
const OR: u32 = 0;

const AND: u32 = 1;

const COMPARISON: u32 = 2;

pub(crate) const SUM: u32 = 3;

const TERM: u32 = 4;

pub(crate) const UNARY: u32 = 5;

const PRIME: u32 = 6;

/// Whether an operand is in brackets: each is, or it binds less tightly than its side has to.
pub(crate) fn is_inside(all: bool, operand: &Tree, least: u32) -> bool
    ensures { result ≡ is_inside all (expression operand.now) least }
{
    all || rank(operand) < least
}

// How tightly the root of a tree binds.
fn rank(tree: &Tree) -> u32
    ensures { result ≡ rank (expression tree.now) }
{
    match tree {
        Tree::Not { .. } | Tree::Negate { .. } => UNARY,
        Tree::Binary { operator, .. } => operator_rank(*operator),
        Tree::Among { .. } => COMPARISON,
        _ => PRIME,
    }
}

fn operator_rank(operator: Operator) -> u32
    ensures { result ≡ ranks.operator_rank operator }
{
    match operator {
        Operator::Or => OR,
        Operator::And => AND,
        Operator::Plus | Operator::Minus => SUM,
        Operator::Times | Operator::Over | Operator::Remainder => TERM,
        _ => COMPARISON,
    }
}

/// The least rank of an operator's left side.
pub(crate) fn left_rank(operator: Operator) -> u32
    ensures { result ≡ left_rank operator }
{
    match operator {
        Operator::Or => OR,
        Operator::And => AND,
        Operator::Times | Operator::Over | Operator::Remainder => TERM,
        _ => SUM,
    }
}

/// The least rank of its right side.
pub(crate) fn right_rank(operator: Operator) -> u32
    ensures { result ≡ right_rank operator }
{
    match operator {
        Operator::Or => AND,
        Operator::And => COMPARISON,
        Operator::Plus | Operator::Minus => TERM,
        Operator::Times | Operator::Over | Operator::Remainder => UNARY,
        _ => SUM,
    }
}

/// Appends a word.
pub(crate) fn push_word(text: &mut String, word: &str) -> Result<(), NoMemory>
    ensures { OnOk result (Appends text.old text.new word.now) }
{
    text.push_str(word)?;
    Ok(())
}

/// Appends a word where it is needed.
pub(crate) fn push_when(text: &mut String, needed: bool, word: &str) -> Result<(), NoMemory>
    ensures { OnOk result (Appends text.old text.new (when needed word.now)) }
{
    if needed {
        return push_word(text, word);
    }
    Ok(())
}

/// Appends an operator, with a blank at each side.
pub(crate) fn push_operator(text: &mut String, operator: Operator) -> Result<(), NoMemory>
    ensures { OnOk result (Appends text.old text.new
        (codes " " ++ sign operator ++ codes " ")) }
{
    text.push_str(" ")?;
    text.push_str(sign(operator))?;
    text.push_str(" ")?;
    Ok(())
}

fn sign(operator: Operator) -> &'static str
    ensures { result.now ≡ sign operator }
{
    match operator {
        Operator::Or => "||",
        Operator::And => "&&",
        Operator::Equal => "==",
        Operator::NotEqual => "!=",
        Operator::Less => "<",
        Operator::AtMost => "<=",
        Operator::Greater => ">",
        Operator::AtLeast => ">=",
        Operator::Plus => "+",
        Operator::Minus => "-",
        Operator::Times => "*",
        Operator::Over => "/",
        Operator::Remainder => "%",
    }
}

/// Appends a text between quotes that it does not hold.
pub(crate) fn push_quoted(text: &mut String, bytes: &Text) -> Result<(), NoMemory>
    ensures { OnOk result (Appends text.old text.new (quoted bytes.now)) }
{
    let quote = if has_byte(bytes.as_str(), b'"') {
        "'"
    } else {
        "\""
    };
    text.push_str(quote)?;
    text.push_str(bytes.as_str())?;
    text.push_str(quote)?;
    Ok(())
}

/// Appends a whole number.
pub(crate) fn push_whole(text: &mut String, number: i64) -> Result<(), NoMemory>
    ensures { OnOk result (Appends text.old text.new (signed_decimal number)) }
{
    let mut digits = Buffer::new();
    text.push_str(digits.format(number))?;
    Ok(())
}

/// Appends a truth.
pub(crate) fn push_truth(text: &mut String, truth: bool) -> Result<(), NoMemory>
    ensures { OnOk result (Appends text.old text.new (truth_word truth)) }
{
    push_word(text, if truth { "true" } else { "false" })
}

/// Appends a column of a request, with the names of attributes behind it.
pub(crate) fn push_request(text: &mut String, column: &Text, path: &[Text]) -> Result<(), NoMemory>
    ensures { OnOk result (Appends text.old text.new (request_words column.now path.now)) }
{
    text.push_str("r.")?;
    text.push_str(column.as_str())?;
    push_path(text, path)
}

fn push_path(text: &mut String, path: &[Text]) -> Result<(), NoMemory>
    ensures { OnOk result (Appends text.old text.new (path_words path.now)) }
{
    for name in path {
        text.push_str(".")?;
        text.push_str(name.as_str())?;
    }
    Ok(())
}

/// Appends a column of the policy between two words.
pub(crate) fn push_policy(
    text: &mut String,
    front: &str,
    column: &Text,
    back: &str,
) -> Result<(), NoMemory>
    ensures { OnOk result (Appends text.old text.new (front.now ++ column.now ++ back.now)) }
{
    text.push_str(front)?;
    text.push_str(column.as_str())?;
    text.push_str(back)?;
    Ok(())
}

/// The name of a role relation.
pub(crate) fn relation_name(number: u8) -> &'static str
    ensures { result.now ≡ callee_word (relation number) }
{
    TableId::G(number).name().unwrap_or("")
}
