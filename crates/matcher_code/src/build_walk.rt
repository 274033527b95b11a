//! The walk over a matcher's tree that pushes its code.

ghost use Rattle.std.specs.Prelude.{◌≡◌, ◌^◌, ◌<◌, ◌++◌, ◌∷◌, [], OnOk, length, map};
ghost use Rattle.matcher_read.specs.Expression.{expression, expressions_of};
ghost use Rattle.matcher_code.specs.Compiled.{arguments, attributes, column_number, compiled, joins, members, names_asked, op_at, op_or_none, right_begins, skip};
ghost use Rattle.matcher_code.specs.Helps.NodePlaces.{each_placed, placed};

use crate::build_ops::{names_of, push, push_join, push_miss, push_skip};
use crate::op::{Instruction, Op};
use matcher_read::{Function, Operator, Tree};
use model_conf::Model;
use outside::{NoMemory, Text};
use perm_base::Rule;
use std::alloc::Global;

/// What a walk needs beside the tree: the model, and the place that each instruction has, where it is not that of its
/// node.
#[derive(Clone, Copy)]
pub(crate) struct Source<'a> {
    pub(crate) model: &'a Model,
    pub(crate) place: Option<u32>,
}

impl<'a> Source<'a> {
    fn in_request(&self, name: &Text) -> u32
        ensures { result ≡ column_number self.now.model.now.request name.now }
    {
        column_number(self.model.request_columns(), name)
    }

    fn in_policy(&self, name: &Text) -> u32
        ensures { result ≡ column_number self.now.model.now.policy name.now }
    {
        column_number(self.model.policy_columns(), name)
    }
}

/// Pushes the code of a tree.
#[cycle(build)]
pub(crate) fn push_tree(
    alloc: Global,
    source: Source<'_>,
    tree: &Tree,
    ops: &mut Vec<Op>,
) -> Result<(), NoMemory>
    requires { length ops.old.items < 2 ^ 32 }
    ensures code { OnOk result (ops.new.items ≡ ops.old.items
        ++ compiled source.entry.model.now (length ops.old.items)
        (placed source.entry.place (expression tree.now))) }
    ensures few { OnOk result (length ops.new.items < 2 ^ 32) }
{
    let at = source.place.unwrap_or(tree.place());
    match tree {
        Tree::Text { text, .. } => push_text(alloc, at, text, ops),
        Tree::Whole { number, .. } => push(ops, at, Instruction::Whole(*number)),
        Tree::Truth { truth, .. } => push(ops, at, Instruction::Truth(*truth)),
        Tree::Request { column, path, .. } => push_request(alloc, source, at, column, path, ops),
        Tree::Policy { column, .. } => push(ops, at, Instruction::Policy(source.in_policy(column))),
        Tree::Eval { column, .. } => push(ops, at, Instruction::Eval(source.in_policy(column))),
        Tree::Not { operand, .. } => {
            push_signed(alloc, source, at, operand, Instruction::Not, ops)
        }
        Tree::Negate { operand, .. } => {
            push_signed(alloc, source, at, operand, Instruction::Negate, ops)
        }
        Tree::Binary {
            operator,
            left,
            right,
            ..
        } => {
            push_tree(alloc, source, left, ops)?;
            push_right(alloc, source, at, *operator, right, ops)
        }
        Tree::Among { value, members, .. } => {
            push_tree(alloc, source, value, ops)?;
            push_found(alloc, source, at, members, ops)
        }
        Tree::Call {
            function,
            arguments,
            ..
        } => push_call(alloc, source, at, *function, arguments, ops),
        Tree::Role {
            relation,
            arguments,
            ..
        } => push_role(alloc, source, at, *relation, arguments, ops),
    }
}

// An operand, and the instruction of its sign.
#[cycle(build)]
fn push_signed(
    alloc: Global,
    source: Source<'_>,
    at: u32,
    operand: &Tree,
    sign: Instruction,
    ops: &mut Vec<Op>,
) -> Result<(), NoMemory>
    requires { length ops.old.items < 2 ^ 32 }
    ensures code { OnOk result (ops.new.items ≡ ops.old.items
        ++ (compiled source.entry.model.now (length ops.old.items)
        (placed source.entry.place (expression operand.now)) ++ op_at at sign ∷ [])) }
    ensures few { OnOk result (length ops.new.items < 2 ^ 32) }
{
    push_tree(alloc, source, operand, ops)?;
    push(ops, at, sign)
}

// The right side of an operator, and what stands in front of it and behind it.
#[cycle(build)]
fn push_right(
    alloc: Global,
    source: Source<'_>,
    at: u32,
    operator: Operator,
    right: &Tree,
    ops: &mut Vec<Op>,
) -> Result<(), NoMemory>
    requires { length ops.old.items < 2 ^ 32 }
    ensures code { OnOk result (ops.new.items ≡ ops.old.items
        ++ (op_or_none at (skip operator (length ops.new.items))
        ++ (compiled source.entry.model.now (right_begins operator (length ops.old.items))
        (placed source.entry.place (expression right.now)) ++ op_at at (joins operator) ∷ []))) }
    ensures few { OnOk result (length ops.new.items < 2 ^ 32) }
{
    let skipping = ops.len();
    push_skip(ops, at, operator)?;
    push_tree(alloc, source, right, ops)?;
    push_join(ops, at, operator, skipping)
}

// The members of an `in`, and what stands behind them.
#[cycle(build)]
fn push_found(
    alloc: Global,
    source: Source<'_>,
    at: u32,
    trees: &[Tree],
    ops: &mut Vec<Op>,
) -> Result<(), NoMemory>
    requires { length ops.old.items < 2 ^ 32 }
    ensures code { OnOk result (ops.new.items ≡ ops.old.items
        ++ (members source.entry.model.now at (length ops.new.items) (length ops.old.items)
        (each_placed source.entry.place (expressions_of (map expression trees.now)))
        ++ op_at at Instruction.Miss ∷ [])) }
    ensures few { OnOk result (length ops.new.items < 2 ^ 32) }
{
    let first = ops.len();
    push_members(alloc, source, at, trees, ops)?;
    push_miss(ops, at, first)
}

// A call of a function.
#[cycle(build)]
fn push_call(
    alloc: Global,
    source: Source<'_>,
    at: u32,
    function: Function,
    trees: &[Tree],
    ops: &mut Vec<Op>,
) -> Result<(), NoMemory>
    requires { length ops.old.items < 2 ^ 32 }
    ensures code { OnOk result (ops.new.items ≡ ops.old.items
        ++ (arguments source.entry.model.now (length ops.old.items)
        (each_placed source.entry.place (expressions_of (map expression trees.now)))
        ++ op_at at (Instruction.Function function) ∷ [])) }
    ensures few { OnOk result (length ops.new.items < 2 ^ 32) }
{
    push_arguments(alloc, source, trees, ops)?;
    push(ops, at, Instruction::Function(function))
}

// A question to a role relation.
#[cycle(build)]
fn push_role(
    alloc: Global,
    source: Source<'_>,
    at: u32,
    relation: u8,
    trees: &[Tree],
    ops: &mut Vec<Op>,
) -> Result<(), NoMemory>
    requires { length ops.old.items < 2 ^ 32 }
    ensures code { OnOk result (ops.new.items ≡ ops.old.items
        ++ (arguments source.entry.model.now (length ops.old.items)
        (each_placed source.entry.place (expressions_of (map expression trees.now)))
        ++ op_at at (Instruction.Role relation (names_asked (length trees.now))) ∷ [])) }
    ensures few { OnOk result (length ops.new.items < 2 ^ 32) }
{
    push_arguments(alloc, source, trees, ops)?;
    let names = names_of(trees.len());
    push(ops, at, Instruction::Role { relation, names })
}

// The members of an `in`, each with its comparison, which goes on nowhere yet.
#[cycle(build)]
fn push_members(
    alloc: Global,
    source: Source<'_>,
    at: u32,
    trees: &[Tree],
    ops: &mut Vec<Op>,
) -> Result<(), NoMemory>
    requires { length ops.old.items < 2 ^ 32 }
    ensures code { OnOk result (ops.new.items ≡ ops.old.items
        ++ members source.entry.model.now at 0 (length ops.old.items)
        (each_placed source.entry.place (expressions_of (map expression trees.now)))) }
    ensures few { OnOk result (length ops.new.items < 2 ^ 32) }
{
    for tree in trees {
        push_tree(alloc, source, tree, ops)?;
        push(ops, at, Instruction::Member(0))?;
    }
    Ok(())
}

// The arguments of a call.
#[cycle(build)]
fn push_arguments(
    alloc: Global,
    source: Source<'_>,
    trees: &[Tree],
    ops: &mut Vec<Op>,
) -> Result<(), NoMemory>
    requires { length ops.old.items < 2 ^ 32 }
    ensures code { OnOk result (ops.new.items ≡ ops.old.items
        ++ arguments source.entry.model.now (length ops.old.items)
        (each_placed source.entry.place (expressions_of (map expression trees.now)))) }
    ensures few { OnOk result (length ops.new.items < 2 ^ 32) }
{
    for tree in trees {
        push_tree(alloc, source, tree, ops)?;
    }
    Ok(())
}

// A text that stands in the matcher.
fn push_text(alloc: Global, at: u32, text: &Text, ops: &mut Vec<Op>) -> Result<(), NoMemory>
    ensures code { OnOk result (ops.new.items
        ≡ ops.old.items ++ op_at at (Instruction.Text text.now) ∷ []) }
    ensures few { OnOk result (length ops.new.items < 2 ^ 32) }
{
    let text = Text::from_str(alloc, text.as_str())?;
    push(ops, at, Instruction::Text(text))
}

// A column of the request, and the attributes that are asked of it.
fn push_request(
    alloc: Global,
    source: Source<'_>,
    at: u32,
    column: &Text,
    path: &[Text],
    ops: &mut Vec<Op>,
) -> Result<(), NoMemory>
    ensures code { OnOk result (ops.new.items ≡ ops.old.items
        ++ (op_at at (Instruction.Request (column_number source.entry.model.now.request column.now))
        ∷ attributes at path.now)) }
    ensures few { OnOk result (length ops.new.items < 2 ^ 32) }
{
    push(ops, at, Instruction::Request(source.in_request(column)))?;
    push_path(alloc, at, path, ops)
}

// The attributes of a path.
fn push_path(alloc: Global, at: u32, path: &[Text], ops: &mut Vec<Op>) -> Result<(), NoMemory>
    requires { length ops.old.items < 2 ^ 32 }
    ensures code { OnOk result (ops.new.items ≡ ops.old.items ++ attributes at path.now) }
    ensures few { OnOk result (length ops.new.items < 2 ^ 32) }
{
    for name in path {
        let name = Text::from_str(alloc, name.as_str())?;
        push(ops, at, Instruction::Attribute(name))?;
    }
    Ok(())
}

// The number of a column.
fn column_number(columns: &Rule, name: &Text) -> u32
    ensures { result ≡ column_number columns.now name.now }
{
    columns.place_of(name.bytes()).unwrap_or(0)
}
