//! Instructions, read from the lines of a case, as `skip-false 6 at 16`.

ghost use Rattle.std.specs.Prelude.{◌^◌, ◌<◌, IfOk, vec_len};

use anyhow::{Context, Result, bail, ensure};
use matcher_code::{Instruction, Op};
use matcher_read::{Function, Operator};
use outside::Text;
use std::alloc::Global;

/// The instructions of a text, a line each.
pub fn ops_of(alloc: Global, text: &str) -> Result<Vec<Op>>
    ensures { IfOk result (λ ops. vec_len ops < 2 ^ 32) }
{
    let mut ops = Vec::new(alloc);
    for line in text.lines() {
        ops.push(op_of(alloc, line).context(format_args!("no such instruction: {line}"))?)?;
    }
    ensure!(ops.len() < 1_000_000, "too many instructions");
    Ok(ops)
}

fn op_of(alloc: Global, line: &str) -> Result<Op> {
    let (what, at) = line.split_once(" at ").context("no place")?;
    let (word, rest) = what.split_once(' ').unwrap_or((what, ""));
    let at = at.parse::<u32>()?;
    let instruction = match word {
        "text" => Instruction::Text(text_of(alloc, rest)?),
        "attribute" => Instruction::Attribute(text_of(alloc, rest)?),
        _ => instruction_of(word, rest)?,
    };
    Ok(Op { at, instruction })
}

fn text_of(alloc: Global, text: &str) -> Result<Text> {
    Text::from_str(alloc, text).ok().context("memory ran out")
}

// An instruction without a text.
fn instruction_of(word: &str, rest: &str) -> Result<Instruction> {
    match word {
        "whole" => Ok(Instruction::Whole(rest.parse::<i64>()?)),
        "truth" => Ok(Instruction::Truth(rest == "true")),
        "not" => Ok(Instruction::Not),
        "negate" => Ok(Instruction::Negate),
        "binary" => Ok(Instruction::Binary(operator_of(rest)?)),
        "need-truth" => Ok(Instruction::NeedTruth),
        "miss" => Ok(Instruction::Miss),
        "function" => {
            let function = Function::of_name(rest).context("no function has this name")?;
            Ok(Instruction::Function(function))
        }
        "role" => {
            let (relation, names) = rest.split_once(' ').context("no number of names")?;
            let relation = relation.parse::<u8>()?;
            let names = names.parse::<u8>()?;
            Ok(Instruction::Role { relation, names })
        }
        _ => numbered(word, rest.parse::<u32>()?),
    }
}

// An instruction with the number of a column or a place.
fn numbered(word: &str, number: u32) -> Result<Instruction> {
    match word {
        "request" => Ok(Instruction::Request(number)),
        "policy" => Ok(Instruction::Policy(number)),
        "skip-false" => Ok(Instruction::SkipFalse(number)),
        "skip-true" => Ok(Instruction::SkipTrue(number)),
        "member" => Ok(Instruction::Member(number)),
        "eval" => Ok(Instruction::Eval(number)),
        _ => bail!("no instruction has this name"),
    }
}

fn operator_of(sign: &str) -> Result<Operator> {
    match sign {
        "||" => Ok(Operator::Or),
        "&&" => Ok(Operator::And),
        "==" => Ok(Operator::Equal),
        "!=" => Ok(Operator::NotEqual),
        "<" => Ok(Operator::Less),
        "<=" => Ok(Operator::AtMost),
        ">" => Ok(Operator::Greater),
        ">=" => Ok(Operator::AtLeast),
        "+" => Ok(Operator::Plus),
        "-" => Ok(Operator::Minus),
        "*" => Ok(Operator::Times),
        "/" => Ok(Operator::Over),
        "%" => Ok(Operator::Remainder),
        _ => bail!("no operator has this sign"),
    }
}
