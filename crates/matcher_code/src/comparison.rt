//! A comparison of a column of the request with one of the row: three instructions that are done as one, beside the stack.

ghost use Rattle.std.specs.Prelude.{◌≡◌, ◌+◌, ◌-◌, ◌<◌, ◌≤◌, ◌^◌, IfSome, Some, length, map, option_copied, slice_get};
ghost use Rattle.model_conf.specs.ModelText.{ModelParts};
ghost use Rattle.perm_value.specs.Datum as datums;
ghost use Rattle.perm_value.specs.Seen.{datum};
ghost use Rattle.regex_gate.specs.Refusals.{RefusedOnly};
ghost use Rattle.matcher_code.specs.Helps.Compared.{Advances, AreCompared, Compares};
ghost use Rattle.matcher_code.specs.Helps.Ends.{IsAskedRightly, case_for, refused_by};
ghost use Rattle.matcher_code.specs.Rules.{finds, leaves};
ghost use Rattle.matcher_code.specs.declared.op.Instruction.TheVariants as does;

use crate::asked::{Asked, field_of};
use crate::halt::Halt;
use crate::links::Links;
use crate::op::{Instruction, Op};
use crate::stack::Stack;
use crate::step::{Step, execute};
use matcher_read::Operator;
use perm_value::{Request, View};
use regex_gate::Finder;

/// Does what the instruction at a place says, or what it and the two behind it come to, where these compare a column of the
/// request with one of the row.
pub(crate) fn advance<'a, K: Links, P: Finder, const N: usize>(
    ops: &[Op],
    place: usize,
    op: &'a Op,
    asked: Asked<'a>,
    links: &K,
    finder: &mut P,
    stack: &mut Stack<'a, N>,
) -> Result<Step, Halt<'a>>
    requires there { slice_get ops.now place ≡ Some op.now }
    requires place { place < 2 ^ 32 }
    requires operands { finds op.now.instruction ≤ length stack.old }
    requires room { length stack.old - finds op.now.instruction + leaves op.now.instruction ≤ N }
    requires within { length stack.old ≤ N }
    requires names { IsAskedRightly op.now.instruction }
    ensures step { (model : ModelParts)
        → Advances (case_for model asked.entry (K.shapes links.now) (K.policy links.now)) ops.now place
        op.now stack.old stack.new result }
    ensures refused { RefusedOnly (P.refusals finder.old) (P.refusals finder.new)
        (refused_by result) }
{
    match compared(ops, place, op, asked) {
        Some(same) => {
            stack.push(View::Truth(same));
            Ok(Step::Goes(place + 3))
        }
        None => execute(place, op, asked, links, finder, stack),
    }
}

// Whether two texts are equal that an instruction at a place and the two behind it compare; none where these do something
// else, or the request has no text there.
fn compared(ops: &[Op], place: usize, op: &Op, asked: Asked<'_>) -> Option<bool>
    requires { place < length ops.now }
    ensures { IfSome result (Compares (map datum asked.entry.request.now)
        (option_copied asked.entry.row) ops.now place op.now) }
{
    let column = request_column(op)?;
    let field = compared_field(ops, place)?;
    let text = text_at(asked.request, column)?;
    Some(text == field_of(asked.row, field))
}

// The column of the row that the two instructions behind a place take and compare.
fn compared_field(ops: &[Op], place: usize) -> Option<u32>
    requires { place < length ops.now }
    ensures { IfSome result (AreCompared ops.now place) }
{
    if ops.len() - place < 3 {
        return None;
    }
    let second = place + 1;
    let third = place + 2;
    let field = policy_column(&ops[second])?;
    let operator = operator_of(&ops[third])?;
    let Operator::Equal = operator else {
        return None;
    };
    Some(field)
}

// The column of the request that an instruction asks for.
fn request_column(op: &Op) -> Option<u32>
    ensures { IfSome result (λ column. op.now.instruction ≡ does.Request column) }
{
    match &op.instruction {
        Instruction::Request(column) => Some(*column),
        _ => None,
    }
}

// The column of the row that an instruction takes.
fn policy_column(op: &Op) -> Option<u32>
    ensures { IfSome result (λ column. op.now.instruction ≡ does.Policy column) }
{
    match &op.instruction {
        Instruction::Policy(column) => Some(*column),
        _ => None,
    }
}

// The operator of an instruction.
fn operator_of(op: &Op) -> Option<Operator>
    ensures { IfSome result (λ operator. op.now.instruction ≡ does.Binary operator) }
{
    match &op.instruction {
        Instruction::Binary(operator) => Some(*operator),
        _ => None,
    }
}

// The text that a request has in a column.
fn text_at(request: &Request, column: u32) -> Option<&[u8]>
    ensures { IfSome result
        (λ text. slice_get (map datum request.now) column ≡ Some (datums.text text.now)) }
{
    if column >= request.len() {
        return None;
    }
    match request.value(column) {
        View::Text(text) => Some(text),
        _ => None,
    }
}
