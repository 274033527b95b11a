//! The models of the parts of a matcher.

ghost use Rattle.std.specs.Prelude.{◌≡◌, ◌↔◌, ◌++◌, ◌∷◌, [], ℕ, Any, IfOk, IsTrue, List, MatchOption, OnOk, string_bytes, true};
ghost use Rattle.std.specs.List.{AllZip};
ghost use Rattle.matcher_read.specs.Expression.{expression};
ghost use Rattle.model_conf.specs.Printed.{printed};
ghost use Rattle.decision.specs.Plans.{conjuncts};
ghost use Rattle.near_miss.specs.Parts.{HasNoModel, IsPart, is_conjunction, is_told, part_text, with_matcher};
ghost use Rattle.near_miss.specs.Written.{written};
ghost use Rattle.near_miss.specs.Helps.MadeParts.{IsUnread, seen};

use crate::part::Part;
use crate::tree_text::push_tree;
use matcher_code::build;
use matcher_read::{NodeKind, Operator, Tree, has_node};
use model_conf::{
    Model, ModelFault, faulty_text_is_no_model, print_model, read_model, text_says_one_model,
};
use outside::NoMemory;
use std::alloc::Global;

/// Whether a matcher is a conjunction that names a column of the policy. It takes no memory.
pub(crate) fn is_told(matcher: &Tree) -> bool
    ensures { result ≡ is_told (expression matcher.now) }
{
    is_conjunction(matcher) && has_node(matcher, NodeKind::PolicyColumn)
}

fn is_conjunction(matcher: &Tree) -> bool
    ensures { result ≡ is_conjunction (expression matcher.now) }
{
    match matcher {
        Tree::Binary {
            operator: Operator::And,
            ..
        } => true,
        _ => false,
    }
}

/// The parts that `&&` joins in a matcher, each as the matcher of a model of its own; None where one of them has none.
pub(crate) fn parts_in(
    alloc: Global,
    model: &Model,
    matcher: &Tree,
) -> Result<Option<Vec<Part>>, NoMemory>
    ensures { IfOk result (λ found. MatchOption found
        (Any (HasNoModel model.now) (conjuncts (expression matcher.now)))
        (λ parts. AllZip (IsPart model.now) (conjuncts (expression matcher.now)) parts.items)) }
{
    let mut trees = Vec::new(alloc);
    push_conjuncts(matcher, &mut trees)?;
    parts_of(alloc, model, trees.as_slice())
}

// Pushes the parts of a matcher that `&&` joins.
fn push_conjuncts<'a>(tree: &'a Tree, trees: &mut Vec<&'a Tree>) -> Result<(), NoMemory>
    ensures { OnOk result (seen trees.new.items
        ≡ seen trees.old.items ++ conjuncts (expression tree.now)) }
{
    match tree {
        Tree::Binary {
            operator: Operator::And,
            left,
            right,
            ..
        } => {
            push_conjuncts(left, trees)?;
            push_conjuncts(right, trees)
        }
        _ => push_one(tree, trees),
    }
}

// Pushes one part.
fn push_one<'a>(tree: &'a Tree, trees: &mut Vec<&'a Tree>) -> Result<(), NoMemory>
    ensures { OnOk result (seen trees.new.items ≡ seen trees.old.items ++ expression tree.now ∷ []) }
{
    trees.push(tree)?;
    Ok(())
}

// These parts as the matchers of models of their own; None where one of them has none.
fn parts_of(alloc: Global, model: &Model, trees: &[&Tree]) -> Result<Option<Vec<Part>>, NoMemory>
    ensures { IfOk result (λ found. MatchOption found
        (Any (HasNoModel model.now) (seen trees.now))
        (λ parts. AllZip (IsPart model.now) (seen trees.now) parts.items)) }
{
    let mut parts = Vec::new(alloc);
    for tree in trees {
        match part_of(alloc, model, tree)? {
            Some(part) => parts.push(part)?,
            None => return Ok(None),
        }
    }
    Ok(Some(parts))
}

// A part as the matcher of a model of its own, where there is one.
fn part_of(alloc: Global, model: &Model, tree: &Tree) -> Result<Option<Part>, NoMemory>
    ensures { IfOk result (λ found. MatchOption found
        (HasNoModel model.now (expression tree.now))
        (IsPart model.now (expression tree.now))) }
{
    text_says_one_model();
    faulty_text_is_no_model();
    let text = text_with(alloc, model, tree)?;
    let own = match read_model(alloc, &text) {
        Ok(own) => own,
        Err(fault) => return unread(fault),
    };
    if !is_same(alloc, own.matcher(), tree)? {
        return Ok(None);
    }
    let code = build(alloc, &own)?;
    Ok(Some(Part::new(own, code)))
}

// What comes of a text that is not read: no part, where memory did not run out.
fn unread(fault: ModelFault) -> Result<Option<Part>, NoMemory>
    ensures { IfOk result (IsUnread fault) }
{
    if let ModelFault::NoMemory = fault {
        return Err(NoMemory);
    }
    Ok(None)
}

// The text of a model with a part as its matcher.
fn text_with(alloc: Global, model: &Model, tree: &Tree) -> Result<Vec<u8>, NoMemory>
    ensures { IfOk result (λ text. text.items
        ≡ printed (with_matcher model.now (part_text (expression tree.now)))) }
{
    let whole = print_model(alloc, model)?;
    let part = text_of(alloc, false, tree)?;
    let front = front_of(whole.bytes(), model.matcher_text().bytes());
    let mut text = Vec::from_slice(alloc, front)?;
    text.extend_from_slice(part.as_bytes())?;
    text.push(b'\n')?;
    Ok(text)
}

// The text of a tree.
fn text_of(alloc: Global, all: bool, tree: &Tree) -> Result<String, NoMemory>
    ensures { IfOk result (λ text. string_bytes text ≡ written all (expression tree.now)) }
{
    let mut text = String::new(alloc);
    push_tree(&mut text, all, tree)?;
    Ok(text)
}

// What stands before the matcher in the text of a model, which ends in the matcher and LF.
fn front_of<'a>(whole: &'a [u8], matcher: &[u8]) -> &'a [u8]
    ensures { (front : List ℕ) → whole.now ≡ front ++ (matcher.now ++ 10 ∷ []) → result.now ≡ front }
{
    let end = whole.len().saturating_sub(matcher.len()).saturating_sub(1);
    &whole[..end]
}

// Whether two trees are one but for the places of their nodes, as both show with all their operands in brackets.
fn is_same(alloc: Global, own: &Tree, tree: &Tree) -> Result<bool, NoMemory>
    ensures { IfOk result (λ same. IsTrue same
        ↔ (written true (expression own.now) ≡ written true (expression tree.now))) }
{
    let read = text_of(alloc, true, own)?;
    let wanted = text_of(alloc, true, tree)?;
    Ok(read.as_str() == wanted.as_str())
}
