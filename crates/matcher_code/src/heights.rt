ghost use Rattle.std.specs.Prelude.{◌≡◌, ◌+◌, ◌<◌, ◌≤◌, Some};
ghost use Rattle.matcher_read.specs.Calls.{arity};
ghost use Rattle.matcher_code.specs.Rules.{finds, height_behind, height_landing, is_logical, is_role, jump, leaves, lies_behind, names_rightly};

use crate::op::Instruction;
use matcher_read::{Function, Operator};

/// How many arguments a function takes.
pub(crate) fn arity(function: Function) -> u32
    ensures arity { result ≡ arity function }
    ensures few { result ≤ 3 }
{
    function.arguments()
}

// How many values an instruction has to find on the stack.
fn finds(instruction: &Instruction) -> u32
    ensures value { result ≡ finds instruction.now }
    ensures few { result < 256 }
{
    match instruction {
        Instruction::Text(_)
        | Instruction::Whole(_)
        | Instruction::Truth(_)
        | Instruction::Request(_)
        | Instruction::Policy(_)
        | Instruction::Eval(_) => 0,
        Instruction::Attribute(_)
        | Instruction::Not
        | Instruction::Negate
        | Instruction::SkipFalse(_)
        | Instruction::SkipTrue(_)
        | Instruction::NeedTruth
        | Instruction::Miss => 1,
        Instruction::Binary(_) | Instruction::Member(_) => 2,
        Instruction::Function(function) => arity(*function),
        Instruction::Role { names, .. } => *names as u32,
    }
}

// How many of them, or of its own, are there behind it.
fn leaves(instruction: &Instruction) -> u32
    ensures value { result ≡ leaves instruction.now }
    ensures few { result ≤ 1 }
{
    match instruction {
        Instruction::SkipFalse(_) | Instruction::SkipTrue(_) => 0,
        _ => 1,
    }
}

/// The height behind an instruction from the one before it; none where its operands lack.
pub(crate) fn height_behind(instruction: &Instruction, height: u32) -> Option<u32>
    requires { height < 4294967295 }
    ensures { result ≡ height_behind instruction.now (Some height) }
{
    let found = finds(instruction);
    if found <= height {
        Some(height - found + leaves(instruction))
    } else {
        None
    }
}

/// The place where an instruction may make the machine go on.
pub(crate) fn jump(instruction: &Instruction) -> Option<u32>
    ensures { result ≡ jump instruction.now }
{
    match instruction {
        Instruction::SkipFalse(to) | Instruction::SkipTrue(to) | Instruction::Member(to) => {
            Some(*to)
        }
        _ => None,
    }
}

/// The height with which it goes on there.
pub(crate) fn height_landing(instruction: &Instruction, height: u32) -> u32
    ensures { result ≡ height_landing instruction.now height }
{
    match instruction {
        Instruction::Member(_) => height.saturating_sub(1),
        _ => height,
    }
}

/// What an instruction names is there, in code of this size with so many columns.
pub(crate) fn names_rightly(
    columns: u32,
    policy_columns: u32,
    at: u32,
    size: u32,
    instruction: &Instruction,
) -> bool
    ensures { result ≡ names_rightly columns policy_columns at size instruction.now }
{
    match instruction {
        Instruction::Request(column) => *column < columns,
        Instruction::Policy(column) | Instruction::Eval(column) => *column < policy_columns,
        Instruction::Binary(operator) => !is_logical(*operator),
        Instruction::SkipFalse(to) | Instruction::SkipTrue(to) | Instruction::Member(to) => {
            lies_behind(at, size, *to)
        }
        Instruction::Role { relation, names } => is_role(*relation, *names),
        _ => true,
    }
}

fn is_logical(operator: Operator) -> bool
    ensures { result ≡ is_logical operator }
{
    match operator {
        Operator::Or | Operator::And => true,
        _ => false,
    }
}

fn lies_behind(at: u32, size: u32, to: u32) -> bool
    ensures { result ≡ lies_behind at size to }
{
    at < to && to <= size
}

fn is_role(relation: u8, names: u8) -> bool
    ensures { result ≡ is_role relation names }
{
    (0 < relation && relation <= 8) && (names == 2 || names == 3)
}
