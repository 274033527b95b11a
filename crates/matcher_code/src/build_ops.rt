//! The instructions of operators, and code that grows.

ghost use Rattle.std.specs.Prelude.{◌≡◌, ◌^◌, ◌<◌, ◌≤◌, ◌++◌, ◌∷◌, [], List, OnOk, length, map};
ghost use Rattle.matcher_code.specs.Compiled.{joins, names_asked, op_at, op_or_none, skip};
ghost use Rattle.matcher_code.specs.Helps.Targets.{landed};
ghost use Rattle.matcher_code.specs.declared.op.Op.{Op};

use crate::op::{Instruction, Op};
use matcher_read::Operator;
use outside::NoMemory;

/// What stands between the sides of an operator.
pub(crate) fn skip_of(operator: Operator, to: u32) -> Option<Instruction>
    ensures { result ≡ skip operator to }
{
    match operator {
        Operator::And => Some(Instruction::SkipFalse(to)),
        Operator::Or => Some(Instruction::SkipTrue(to)),
        _ => None,
    }
}

/// What stands behind its sides.
pub(crate) fn join_of(operator: Operator) -> Instruction
    ensures { result ≡ joins operator }
{
    match operator {
        Operator::And | Operator::Or => Instruction::NeedTruth,
        other => Instruction::Binary(other),
    }
}

/// How many names a relation is asked with.
pub(crate) fn names_of(given: usize) -> u8
    ensures { result ≡ names_asked given }
{
    if given == 3 { 3 } else { 2 }
}

/// One more instruction. Code of 2^32 instructions has no room for it.
pub(crate) fn push(ops: &mut Vec<Op>, at: u32, instruction: Instruction) -> Result<(), NoMemory>
    ensures code { OnOk result (ops.new.items ≡ ops.old.items ++ op_at at instruction ∷ []) }
    ensures few { OnOk result (length ops.new.items < 2 ^ 32) }
{
    if ops.len() >= u32::MAX as usize {
        return Err(NoMemory);
    }
    ops.push(Op { at, instruction })?;
    Ok(())
}

/// The instruction between the sides of an operator, whose target is not known yet.
pub(crate) fn push_skip(ops: &mut Vec<Op>, at: u32, operator: Operator) -> Result<(), NoMemory>
    requires { length ops.old.items < 2 ^ 32 }
    ensures code { OnOk result
        (ops.new.items ≡ ops.old.items ++ op_or_none at (skip operator 0)) }
    ensures few { OnOk result (length ops.new.items < 2 ^ 32) }
{
    match skip_of(operator, 0) {
        Some(instruction) => push(ops, at, instruction),
        None => Ok(()),
    }
}

/// What stands behind the sides of an operator, the instruction between them being at a place of the code: it goes on
/// behind this one.
pub(crate) fn push_join(
    ops: &mut Vec<Op>,
    at: u32,
    operator: Operator,
    skipping: usize,
) -> Result<(), NoMemory>
    requires { skipping ≤ length ops.old.items }
    ensures code { OnOk result ((front right : List Op) → length front ≡ skipping
        → ops.old.items ≡ front ++ (op_or_none at (skip operator 0) ++ right)
        → ops.new.items ≡ front ++ (op_or_none at (skip operator (length ops.new.items))
        ++ (right ++ op_at at (joins operator) ∷ []))) }
    ensures few { OnOk result (length ops.new.items < 2 ^ 32) }
{
    push(ops, at, join_of(operator))?;
    if let Some(instruction) = skip_of(operator, ops.len() as u32) {
        ops[skipping] = Op { at, instruction };
    }
    Ok(())
}

/// What stands behind the members of an `in`, the code of which begins at a place of the code: where one is found, the
/// machine goes on behind this.
pub(crate) fn push_miss(ops: &mut Vec<Op>, at: u32, first: usize) -> Result<(), NoMemory>
    requires { first ≤ length ops.old.items }
    ensures code { OnOk result ((front members : List Op) → length front ≡ first
        → ops.old.items ≡ front ++ members
        → ops.new.items ≡ front ++ (map (landed (length ops.new.items)) members
        ++ op_at at Instruction.Miss ∷ [])) }
    ensures few { OnOk result (length ops.new.items < 2 ^ 32) }
{
    push(ops, at, Instruction::Miss)?;
    let to = ops.len() as u32;
    land(&mut ops[first..], to);
    Ok(())
}

// The members that go on nowhere yet go on at this place.
fn land(ops: &mut [Op], to: u32)
    ensures { ops.new ≡ map (landed to) ops.old }
{
    for op in ops.iter_mut() {
        land_one(op, to);
    }
}

fn land_one(op: &mut Op, to: u32)
    ensures { op.new ≡ landed to op.old }
{
    if let Instruction::Member(0) = op.instruction {
        op.instruction = Instruction::Member(to);
    }
}
