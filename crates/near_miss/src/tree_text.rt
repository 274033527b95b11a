//! The walk over a matcher's tree that writes it.

ghost use Rattle.std.specs.Prelude.{◌≡◌, ◌++◌, OnOk, codes, false, map};
ghost use Rattle.matcher_read.specs.Expression.{expression, expressions_of};
ghost use Rattle.near_miss.specs.Helps.Pushed.{Appends};
ghost use Rattle.near_miss.specs.Written.{bracketed, is_inside, unary_rank, written, written_list};

use crate::words::{
    SUM, UNARY, is_inside, left_rank, push_operator, push_policy, push_quoted, push_request,
    push_truth, push_when, push_whole, push_word, relation_name, right_rank,
};
use matcher_read::Tree;
use outside::NoMemory;

/// Appends a tree as a text, with all operands in brackets, or those alone that need them.
#[cycle(writing)]
pub(crate) fn push_tree(text: &mut String, all: bool, tree: &Tree) -> Result<(), NoMemory>
    ensures { OnOk result (Appends text.old text.new (written all (expression tree.now))) }
{
    match tree {
        Tree::Text { text: quoted, .. } => push_quoted(text, quoted),
        Tree::Whole { number, .. } => push_whole(text, *number),
        Tree::Truth { truth, .. } => push_truth(text, *truth),
        Tree::Request { column, path, .. } => push_request(text, column, path),
        Tree::Policy { column, .. } => push_policy(text, "p.", column, ""),
        Tree::Eval { column, .. } => push_policy(text, "eval(p.", column, ")"),
        Tree::Not { operand, .. } => push_signed(text, all, "!", operand),
        Tree::Negate { operand, .. } => push_signed(text, all, "-", operand),
        Tree::Binary {
            operator,
            left,
            right,
            ..
        } => {
            push_side(text, all, left, left_rank(*operator))?;
            push_operator(text, *operator)?;
            push_side(text, all, right, right_rank(*operator))
        }
        Tree::Among { value, members, .. } => {
            push_side(text, all, value, SUM)?;
            push_called(text, all, " in ", members)
        }
        Tree::Call {
            function,
            arguments,
            ..
        } => push_called(text, all, function.name(), arguments),
        Tree::Role {
            relation,
            arguments,
            ..
        } => push_called(text, all, relation_name(*relation), arguments),
    }
}

// Appends a sign and what stands behind it.
#[cycle(writing)]
fn push_signed(text: &mut String, all: bool, front: &str, operand: &Tree) -> Result<(), NoMemory>
    ensures { OnOk result (Appends text.old text.new (front.now
        ++ bracketed (is_inside all (expression operand.now) unary_rank)
        (written all (expression operand.now)))) }
{
    push_word(text, front)?;
    push_side(text, all, operand, UNARY)
}

// Appends an operand, in brackets where it binds less tightly than its side has to.
#[cycle(writing)]
fn push_side(text: &mut String, all: bool, operand: &Tree, least: u32) -> Result<(), NoMemory>
    ensures { OnOk result (Appends text.old text.new
        (bracketed (is_inside all (expression operand.now) least)
        (written all (expression operand.now)))) }
{
    let inside = is_inside(all, operand, least);
    push_when(text, inside, "(")?;
    push_tree(text, all, operand)?;
    push_when(text, inside, ")")
}

// Appends a name, and trees in brackets behind it.
#[cycle(writing)]
fn push_called(text: &mut String, all: bool, name: &str, trees: &[Tree]) -> Result<(), NoMemory>
    ensures { OnOk result (Appends text.old text.new (name.now ++ codes "("
        ++ written_list all false (expressions_of (map expression trees.now)) ++ codes ")")) }
{
    push_word(text, name)?;
    push_word(text, "(")?;
    push_list(text, all, trees)?;
    push_word(text, ")")
}

// Appends trees with commas between them.
#[cycle(writing)]
fn push_list(text: &mut String, all: bool, trees: &[Tree]) -> Result<(), NoMemory>
    ensures { OnOk result (Appends text.old text.new
        (written_list all false (expressions_of (map expression trees.now)))) }
{
    for (at, tree) in trees.iter().enumerate() {
        push_when(text, at > 0, ", ")?;
        push_tree(text, all, tree)?;
    }
    Ok(())
}
