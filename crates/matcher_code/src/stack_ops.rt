//! Instructions that ask nobody: what they do to the values on the stack.

ghost use Rattle.std.specs.Prelude.{◌≡◌, ◌+◌, ◌<◌, ◌≤◌, ◌^◌, ◌∷◌, ℕ, length, map, option_map, None, Ok};
ghost use Rattle.perm_value.specs.Seen.{datum_of_view};
ghost use Rattle.matcher_meaning.specs.Cases.{Case};
ghost use Rattle.matcher_meaning.specs.Operators.{ended_among};
ghost use Rattle.matcher_code.specs.Helps.Ends.{IsDone, NextIs, answer_of, refused_by, skipping};
ghost use Rattle.matcher_code.specs.Machine.{goes, jumping, onward};
ghost use Rattle.matcher_code.specs.declared.op.Instruction.TheVariants as does;

use crate::attributes::attribute_of;
use crate::halt::Halt;
use crate::operators::{as_truth, ended_by, is_member, joined, negated, opposed};
use crate::stack::Stack;
use crate::step::Step;
use effect_fold::Fault;
use matcher_read::Operator;
use outside::Text;
use perm_value::View;

/// Puts the value of an answer on the stack.
pub(crate) fn put<'a, const N: usize>(
    place: usize,
    answer: Result<View<'a>, Fault>,
    stack: &mut Stack<'a, N>,
) -> Result<Step, Halt<'a>>
    requires place { place < 2 ^ 32 }
    requires room { length stack.old < N }
    ensures next { NextIs (onward place (map datum_of_view stack.old) (answer_of answer.entry))
        (map datum_of_view stack.new) result }
    ensures asks_nobody { refused_by result ≡ None }
{
    match answer {
        Ok(value) => {
            stack.push(value);
            Ok(Step::Goes(place + 1))
        }
        Err(fault) => Err(Halt::Fault(fault)),
    }
}

// Goes on at another place, where an answer is there already.
fn skip<'a, const N: usize>(
    place: usize,
    answer: Option<Result<View<'a>, Fault>>,
    to: u32,
    stack: &mut Stack<'a, N>,
) -> Result<Step, Halt<'a>>
    requires place { place < 2 ^ 32 }
    requires room { length stack.old < N }
    ensures next { NextIs (jumping to (map datum_of_view stack.old) (option_map answer_of answer.entry)
        (goes (place + 1) (map datum_of_view stack.old))) (map datum_of_view stack.new) result }
    ensures asks_nobody { refused_by result ≡ None }
{
    match answer {
        Some(Ok(value)) => {
            stack.push(value);
            Ok(Step::Goes(to as usize))
        }
        Some(Err(fault)) => Err(Halt::Fault(fault)),
        None => Ok(Step::Goes(place + 1)),
    }
}

// Goes on at another place, where a member is or holds the value.
fn meet<'a, const N: usize>(
    place: usize,
    value: &View<'a>,
    member: &View<'a>,
    to: u32,
    stack: &mut Stack<'a, N>,
) -> Result<Step, Halt<'a>>
    requires place { place < 2 ^ 32 }
    requires room { length stack.old < N }
    ensures next { NextIs (jumping to (map datum_of_view stack.old)
        (ended_among (datum_of_view value.now) (Ok (datum_of_view member.now)))
        (goes (place + 1) (datum_of_view value.now ∷ map datum_of_view stack.old)))
        (map datum_of_view stack.new) result }
    ensures asks_nobody { refused_by result ≡ None }
{
    if is_member(value, member) {
        stack.push(View::Truth(true));
        Ok(Step::Goes(to as usize))
    } else {
        stack.push(*value);
        Ok(Step::Goes(place + 1))
    }
}

/// The top value becomes its attribute with this name.
pub(crate) fn put_attribute<'a, const N: usize>(
    place: usize,
    at: u32,
    name: &Text,
    stack: &mut Stack<'a, N>,
) -> Result<Step, Halt<'a>>
    requires place { place < 2 ^ 32 }
    requires operands { 1 ≤ length stack.old }
    requires within { length stack.old ≤ N }
    ensures done { (case : Case) → IsDone case place at (does.Attribute name.now) stack.old
        stack.new result }
    ensures asks_nobody { refused_by result ≡ None }
{
    let value = stack.pop();
    put(place, attribute_of(at, &value, name), stack)
}

/// `!` of the top value.
pub(crate) fn put_negated<'a, const N: usize>(
    place: usize,
    at: u32,
    stack: &mut Stack<'a, N>,
) -> Result<Step, Halt<'a>>
    requires place { place < 2 ^ 32 }
    requires operands { 1 ≤ length stack.old }
    requires within { length stack.old ≤ N }
    ensures done { (case : Case) → IsDone case place at does.Not stack.old stack.new result }
    ensures asks_nobody { refused_by result ≡ None }
{
    let value = stack.pop();
    put(place, negated(at, &value), stack)
}

/// `-` of the top value.
pub(crate) fn put_opposed<'a, const N: usize>(
    place: usize,
    at: u32,
    stack: &mut Stack<'a, N>,
) -> Result<Step, Halt<'a>>
    requires place { place < 2 ^ 32 }
    requires operands { 1 ≤ length stack.old }
    requires within { length stack.old ≤ N }
    ensures done { (case : Case) → IsDone case place at does.Negate stack.old stack.new result }
    ensures asks_nobody { refused_by result ≡ None }
{
    let value = stack.pop();
    put(place, opposed(at, &value), stack)
}

/// The top value has to be a truth.
pub(crate) fn put_truth<'a, const N: usize>(
    place: usize,
    at: u32,
    stack: &mut Stack<'a, N>,
) -> Result<Step, Halt<'a>>
    requires place { place < 2 ^ 32 }
    requires operands { 1 ≤ length stack.old }
    requires within { length stack.old ≤ N }
    ensures done { (case : Case) → IsDone case place at does.NeedTruth stack.old stack.new result }
    ensures asks_nobody { refused_by result ≡ None }
{
    let value = stack.pop();
    put(place, as_truth(at, &value), stack)
}

/// The two top values become what an operator gives for them, the right side being on top.
pub(crate) fn put_joined<'a, const N: usize>(
    place: usize,
    at: u32,
    operator: Operator,
    stack: &mut Stack<'a, N>,
) -> Result<Step, Halt<'a>>
    requires place { place < 2 ^ 32 }
    requires operands { 2 ≤ length stack.old }
    requires within { length stack.old ≤ N }
    ensures done { (case : Case) → IsDone case place at (does.Binary operator) stack.old stack.new result }
    ensures asks_nobody { refused_by result ≡ None }
{
    let right = stack.pop();
    let left = stack.pop();
    put(place, joined(at, operator, &left, &right), stack)
}

/// The top value becomes false.
pub(crate) fn put_miss<'a, const N: usize>(
    place: usize,
    stack: &mut Stack<'a, N>,
) -> Result<Step, Halt<'a>>
    requires place { place < 2 ^ 32 }
    requires operands { 1 ≤ length stack.old }
    requires within { length stack.old ≤ N }
    ensures done { (case : Case) (at : ℕ) → IsDone case place at does.Miss stack.old stack.new result }
    ensures asks_nobody { refused_by result ≡ None }
{
    stack.pop();
    put(place, Ok(View::Truth(false)), stack)
}

/// Where the top value is this truth, the machine goes on at another place; else the value goes.
pub(crate) fn skip_where<'a, const N: usize>(
    place: usize,
    at: u32,
    truth: bool,
    to: u32,
    stack: &mut Stack<'a, N>,
) -> Result<Step, Halt<'a>>
    requires place { place < 2 ^ 32 }
    requires operands { 1 ≤ length stack.old }
    requires within { length stack.old ≤ N }
    ensures done { (case : Case) → IsDone case place at (skipping truth to) stack.old stack.new result }
    ensures asks_nobody { refused_by result ≡ None }
{
    let value = stack.pop();
    skip(place, ended_by(at, truth, &value), to, stack)
}

/// A member goes from the top; where it is or holds the value below it, the machine goes on at another place.
pub(crate) fn skip_member<'a, const N: usize>(
    place: usize,
    to: u32,
    stack: &mut Stack<'a, N>,
) -> Result<Step, Halt<'a>>
    requires place { place < 2 ^ 32 }
    requires operands { 2 ≤ length stack.old }
    requires within { length stack.old ≤ N }
    ensures done { (case : Case) (at : ℕ) → IsDone case place at (does.Member to) stack.old
        stack.new result }
    ensures asks_nobody { refused_by result ≡ None }
{
    let member = stack.pop();
    let value = stack.pop();
    meet(place, &value, &member, to, stack)
}
