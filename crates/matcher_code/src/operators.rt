ghost use Rattle.std.specs.Prelude.{◌≡◌, Bool, option_map};
ghost use Rattle.std.specs.declared.cmp.Ordering.{Ordering};
ghost use Rattle.perm_value.specs.Seen.{datum_of_view, items};
ghost use Rattle.matcher_meaning.specs.Operators.{negated, opposed, as_truth, ended_by, ordered, joined, has_item, is_member};
ghost use Rattle.matcher_code.specs.Helps.Ends.{answer_of};
ghost use Rattle.matcher_code.specs.Helps.Steps.{tested};

use crate::arithmetic::{divided, fitted, wholes};
use crate::faults::kind;
use effect_fold::Fault;
use matcher_read::Operator;
use perm_value::{Value, View};
use std::cmp::Ordering;

/// `!`
pub(crate) fn negated<'a>(at: u32, value: &View<'a>) -> Result<View<'a>, Fault>
    ensures { answer_of result ≡ negated at (datum_of_view value.now) }
{
    match *value {
        View::Truth(truth) => Ok(View::Truth(!truth)),
        _ => Err(kind(at)),
    }
}

/// `-` before an operand
pub(crate) fn opposed<'a>(at: u32, value: &View<'a>) -> Result<View<'a>, Fault>
    ensures { answer_of result ≡ opposed at (datum_of_view value.now) }
{
    match *value {
        View::Whole(number) => fitted(at, number.checked_neg()),
        _ => Err(kind(at)),
    }
}

/// What a left side ends an operator with, where it is this truth; a fault where it is none.
pub(crate) fn ended_by<'a>(at: u32, end: bool, left: &View<'a>) -> Option<Result<View<'a>, Fault>>
    ensures { option_map answer_of result ≡ ended_by at end (datum_of_view left.now) }
{
    match *left {
        View::Truth(truth) if truth == end => Some(Ok(View::Truth(truth))),
        View::Truth(_) => None,
        _ => Some(Err(kind(at))),
    }
}

/// What both sides of an operator give.
pub(crate) fn joined<'a>(
    at: u32,
    operator: Operator,
    left: &View<'a>,
    right: &View<'a>,
) -> Result<View<'a>, Fault>
    ensures { answer_of result
        ≡ joined at operator (datum_of_view left.now) (datum_of_view right.now) }
{
    match operator {
        Operator::Or | Operator::And => as_truth(at, right),
        Operator::Equal => Ok(View::Truth(*left == *right)),
        Operator::NotEqual => Ok(View::Truth(*left != *right)),
        Operator::Less => Ok(View::Truth(order(at, left, right)?.is_lt())),
        Operator::AtMost => Ok(View::Truth(order(at, left, right)?.is_le())),
        Operator::Greater => Ok(View::Truth(order(at, left, right)?.is_gt())),
        Operator::AtLeast => Ok(View::Truth(order(at, left, right)?.is_ge())),
        Operator::Plus => {
            let (number, other) = wholes(at, left, right)?;
            fitted(at, number.checked_add(other))
        }
        Operator::Minus => {
            let (number, other) = wholes(at, left, right)?;
            fitted(at, number.checked_sub(other))
        }
        Operator::Times => {
            let (number, other) = wholes(at, left, right)?;
            fitted(at, number.checked_mul(other))
        }
        Operator::Over => {
            let (number, by) = wholes(at, left, right)?;
            divided(at, by, number.checked_div(by))
        }
        Operator::Remainder => {
            let (number, by) = wholes(at, left, right)?;
            divided(at, by, number.checked_rem(by))
        }
    }
}

/// A value that has to be a truth.
pub(crate) fn as_truth<'a>(at: u32, side: &View<'a>) -> Result<View<'a>, Fault>
    ensures { answer_of result ≡ as_truth at (datum_of_view side.now) }
{
    match *side {
        View::Truth(truth) => Ok(View::Truth(truth)),
        _ => Err(kind(at)),
    }
}

// The order of two numbers, or of two texts by their bytes.
fn order(at: u32, left: &View<'_>, right: &View<'_>) -> Result<Ordering, Fault>
    ensures { (is_so : Ordering → Bool) → tested result is_so
        ≡ ordered at is_so (datum_of_view left.now) (datum_of_view right.now) }
{
    match (*left, *right) {
        (View::Whole(number), View::Whole(other)) => Ok(number.cmp(&other)),
        (View::Text(text), View::Text(other)) => Ok(text.cmp(other)),
        _ => Err(kind(at)),
    }
}

/// Whether a member of `in` is the value, or a list that has it.
pub(crate) fn is_member(value: &View<'_>, member: &View<'_>) -> bool
    ensures { result ≡ is_member (datum_of_view value.now) (datum_of_view member.now) }
{
    if *value == *member {
        return true;
    }
    match *member {
        View::List(list) => has_item(value, list),
        _ => false,
    }
}

fn has_item(value: &View<'_>, list: &[Value]) -> bool
    ensures { result ≡ has_item (datum_of_view value.now) (items list.now) }
{
    for item in list {
        if *value == item.view() {
            return true;
        }
    }
    false
}
