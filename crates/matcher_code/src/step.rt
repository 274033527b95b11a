//! One instruction over the stack.

ghost use Rattle.std.specs.Prelude.{◌≡◌, ◌⊎◌, ◌+◌, ◌-◌, ◌<◌, ◌≤◌, ◌^◌, ◌∷◌, [], false, true, length, map, option_map, Ok};
ghost use Rattle.model_conf.specs.ModelText.{ModelParts};
ghost use Rattle.perm_value.specs.Seen.{datum_of_view};
ghost use Rattle.regex_gate.specs.Refusals.{RefusedOnly};
ghost use Rattle.matcher_meaning.specs.Cases.{Case, where_refused};
ghost use Rattle.matcher_meaning.specs.Meaning.{is_search};
ghost use Rattle.matcher_meaning.specs.Operators.{ended_by, ended_among};
ghost use Rattle.matcher_code.specs.Helps.Ends.{IsAskedRightly, NextEnds, NextIs, StepEnds, answer_of, callee, case_for, over_tables, refused_by};
ghost use Rattle.matcher_code.specs.Machine.{Called as Calls, goes, jumping, onward, taken};
ghost use Rattle.matcher_code.specs.Rules.{finds, leaves};

use crate::asked::{Asked, field_of, request_value};
use crate::calls::{Called, call_of_three, call_of_two};
use crate::halt::Halt;
use crate::heights::arity;
use crate::links::Links;
use crate::op::{Instruction, Op};
use crate::stack::Stack;
use crate::stack_ops::{
    put, put_attribute, put_joined, put_miss, put_negated, put_opposed, put_truth, skip_member,
    skip_where,
};
use effect_fold::Fault;
use perm_value::View;
use regex_gate::Finder;

/// What an instruction leads to: on at a place, or to what the rule in a column of the row comes to.
#[derive(Clone, Copy)]
pub(crate) enum Step {
    Goes(usize),
    Eval(u32),
}

/// Does what an instruction at a place says, but for an `eval`.
pub(crate) fn execute<'a, K: Links, P: Finder, const N: usize>(
    place: usize,
    op: &'a Op,
    asked: Asked<'a>,
    links: &K,
    finder: &mut P,
    stack: &mut Stack<'a, N>,
) -> Result<Step, Halt<'a>>
    requires place { place < 2 ^ 32 }
    requires operands { finds op.now.instruction ≤ length stack.old }
    requires room { length stack.old - finds op.now.instruction + leaves op.now.instruction ≤ N }
    requires within { length stack.old ≤ N }
    requires names { IsAskedRightly op.now.instruction }
    ensures step { (model : ModelParts)
        → StepEnds (case_for model asked.entry (K.shapes links.now) (K.policy links.now)) place op.now
        stack.old stack.new result }
    ensures refused { RefusedOnly (P.refusals finder.old) (P.refusals finder.new)
        (refused_by result) }
{
    let at = op.at;
    match &op.instruction {
        Instruction::Text(text) => put(place, Ok(View::Text(text.bytes())), stack),
        Instruction::Whole(number) => put(place, Ok(View::Whole(*number)), stack),
        Instruction::Truth(truth) => put(place, Ok(View::Truth(*truth)), stack),
        Instruction::Request(column) => {
            put(place, request_value(at, asked.request, *column), stack)
        }
        Instruction::Policy(column) => {
            put(place, Ok(View::Text(field_of(asked.row, *column))), stack)
        }
        Instruction::Attribute(name) => put_attribute(place, at, name, stack),
        Instruction::Not => put_negated(place, at, stack),
        Instruction::Negate => put_opposed(place, at, stack),
        Instruction::Binary(operator) => put_joined(place, at, *operator, stack),
        Instruction::SkipFalse(to) => skip_where(place, at, false, *to, stack),
        Instruction::SkipTrue(to) => skip_where(place, at, true, *to, stack),
        Instruction::NeedTruth => put_truth(place, at, stack),
        Instruction::Member(to) => skip_member(place, *to, stack),
        Instruction::Miss => put_miss(place, stack),
        Instruction::Function(function) => {
            let called = Called::Function(*function);
            call(place, at, called, arity(*function), links, finder, stack)
        }
        Instruction::Role { relation, names } => {
            let called = Called::Relation(*relation);
            call(place, at, called, *names as u32, links, finder, stack)
        }
        Instruction::Eval(column) => Ok(Step::Eval(*column)),
    }
}

// Calls for the two or three top values.
fn call<'a, K: Links, P: Finder, const N: usize>(
    place: usize,
    at: u32,
    called: Called,
    names: u32,
    links: &K,
    finder: &mut P,
    stack: &mut Stack<'a, N>,
) -> Result<Step, Halt<'a>>
    requires place { place < 2 ^ 32 }
    requires names { (names ≡ 2) ⊎ (names ≡ 3) }
    requires operands { names ≤ length stack.old }
    requires within { length stack.old ≤ N }
    ensures called { (case : Case) → NextEnds (λ refused next. Calls
        (where_refused (over_tables case (K.shapes links.now) (K.policy links.now)) refused)
        place at (callee called) (taken names [] (map datum_of_view stack.old)) next)
        (map datum_of_view stack.new) (is_search (callee called)) result }
    ensures refused { RefusedOnly (P.refusals finder.old) (P.refusals finder.new)
        (refused_by result) }
{
    if names == 2 {
        call_two(place, at, called, links, finder, stack)
    } else {
        call_three(place, at, called, links, finder, stack)
    }
}

fn call_two<'a, K: Links, P: Finder, const N: usize>(
    place: usize,
    at: u32,
    called: Called,
    links: &K,
    finder: &mut P,
    stack: &mut Stack<'a, N>,
) -> Result<Step, Halt<'a>>
    requires place { place < 2 ^ 32 }
    requires operands { 2 ≤ length stack.old }
    requires within { length stack.old ≤ N }
    ensures called { (case : Case) → NextEnds (λ refused next. Calls
        (where_refused (over_tables case (K.shapes links.now) (K.policy links.now)) refused)
        place at (callee called) (taken 2 [] (map datum_of_view stack.old)) next)
        (map datum_of_view stack.new) (is_search (callee called)) result }
    ensures refused { RefusedOnly (P.refusals finder.old) (P.refusals finder.new)
        (refused_by result) }
{
    let second = stack.pop();
    let first = stack.pop();
    let value = call_of_two(at, called, &first, &second, links, finder)?;
    stack.push(value);
    Ok(Step::Goes(place + 1))
}

fn call_three<'a, K: Links, P: Finder, const N: usize>(
    place: usize,
    at: u32,
    called: Called,
    links: &K,
    finder: &mut P,
    stack: &mut Stack<'a, N>,
) -> Result<Step, Halt<'a>>
    requires place { place < 2 ^ 32 }
    requires operands { 3 ≤ length stack.old }
    requires within { length stack.old ≤ N }
    ensures called { (case : Case) → NextEnds (λ refused next. Calls
        (where_refused (over_tables case (K.shapes links.now) (K.policy links.now)) refused)
        place at (callee called) (taken 3 [] (map datum_of_view stack.old)) next)
        (map datum_of_view stack.new) (is_search (callee called)) result }
    ensures refused { RefusedOnly (P.refusals finder.old) (P.refusals finder.new)
        (refused_by result) }
{
    let third = stack.pop();
    let second = stack.pop();
    let first = stack.pop();
    let value = call_of_three(at, called, &first, &second, &third, links)?;
    stack.push(value);
    Ok(Step::Goes(place + 1))
}
