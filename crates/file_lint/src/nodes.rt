ghost use Rattle.std.specs.Prelude.{◌≡◌, ◌++◌, ◌∷◌, [], IfOk, OnOk, flat_map, map, option_map};
ghost use Rattle.matcher_read.specs.Expression.{expression, expressions_of};
ghost use Rattle.file_lint.specs.Nodes.{all_nodes_of, first_of, held_by, looked_at, looked_both, looked_in, nodes_of, policy_place, second_column, second_of};
ghost use Rattle.file_lint.specs.Helps.Trees.{seen};

use matcher_read::{Function, Tree};
use model_conf::Model;
use outside::{NoMemory, Share};
use perm_base::Rule;
use std::alloc::Global;

/// What a matcher takes the fields of a column for.
#[derive(Clone, Copy, Debug, PartialEq, Eq)]
pub(crate) enum Held {
    /// An address or a block.
    Block,
    /// A pattern of `keyMatch2`.
    KeyPattern,
    /// A rule that is held in a column.
    RuleText,
}

/// A column of p, by its place, and what its fields are taken for.
#[derive(Clone, Copy)]
pub(crate) struct Looked {
    pub(crate) at: u32,
    pub(crate) held: Held,
}

impl Share for Held {}

impl Share for Looked {}

/// All nodes of a matcher, each before those below it.
pub(crate) fn nodes_of(alloc: Global, tree: &Tree) -> Result<Vec<&Tree>, NoMemory>
    ensures { IfOk result (λ nodes. seen nodes.items ≡ nodes_of (expression tree.now)) }
{
    let mut nodes = Vec::new(alloc);
    push_nodes(tree, &mut nodes)?;
    Ok(nodes)
}

// Pushes a node and those below it.
#[cycle(pushing)]
fn push_nodes<'a>(tree: &'a Tree, nodes: &mut Vec<&'a Tree>) -> Result<(), NoMemory>
    ensures { OnOk result (seen nodes.new.items
        ≡ seen nodes.old.items ++ nodes_of (expression tree.now)) }
{
    match tree {
        Tree::Not { operand, .. } => {
            push_one(tree, nodes)?;
            push_nodes(operand, nodes)
        }
        Tree::Negate { operand, .. } => {
            push_one(tree, nodes)?;
            push_nodes(operand, nodes)
        }
        Tree::Binary { left, right, .. } => {
            push_one(tree, nodes)?;
            push_nodes(left, nodes)?;
            push_nodes(right, nodes)
        }
        Tree::Among { value, members, .. } => {
            push_one(tree, nodes)?;
            push_nodes(value, nodes)?;
            push_all_nodes(members, nodes)
        }
        Tree::Call { arguments, .. } => {
            push_one(tree, nodes)?;
            push_all_nodes(arguments, nodes)
        }
        Tree::Role { arguments, .. } => {
            push_one(tree, nodes)?;
            push_all_nodes(arguments, nodes)
        }
        _ => push_one(tree, nodes),
    }
}

// Pushes one node.
fn push_one<'a>(tree: &'a Tree, nodes: &mut Vec<&'a Tree>) -> Result<(), NoMemory>
    ensures { OnOk result (seen nodes.new.items ≡ seen nodes.old.items ++ expression tree.now ∷ []) }
{
    nodes.push(tree)?;
    Ok(())
}

// Pushes the nodes of each of these.
#[cycle(pushing)]
fn push_all_nodes<'a>(trees: &'a [Tree], nodes: &mut Vec<&'a Tree>) -> Result<(), NoMemory>
    ensures { OnOk result (seen nodes.new.items
        ≡ seen nodes.old.items ++ all_nodes_of (expressions_of (map expression trees.now))) }
{
    for tree in trees {
        push_nodes(tree, nodes)?;
    }
    Ok(())
}

/// The columns of p that a model's matcher takes for something, in the order of its nodes.
pub(crate) fn looked_in(alloc: Global, model: &Model) -> Result<Vec<Looked>, NoMemory>
    ensures { IfOk result (λ found. found.items ≡ looked_in model.now) }
{
    let nodes = nodes_of(alloc, model.matcher())?;
    let mut found = Vec::new(alloc);
    push_all_looked(model.policy_columns(), nodes.as_slice(), &mut found)?;
    Ok(found)
}

// Pushes the columns that nodes take for something.
fn push_all_looked(columns: &Rule, nodes: &[&Tree], found: &mut Vec<Looked>) -> Result<(), NoMemory>
    ensures { OnOk result (found.new.items
        ≡ found.old.items ++ flat_map (looked_at columns.now) (seen nodes.now)) }
{
    for node in nodes {
        push_looked(columns, node, found)?;
    }
    Ok(())
}

// Pushes the column that a node takes for something.
fn push_looked(columns: &Rule, tree: &Tree, found: &mut Vec<Looked>) -> Result<(), NoMemory>
    ensures { OnOk result (found.new.items
        ≡ found.old.items ++ looked_at columns.now (expression tree.now)) }
{
    match tree {
        Tree::Eval { column, .. } => push_both(
            columns.place_of(column.bytes()),
            Some(Held::RuleText),
            found,
        ),
        Tree::Call {
            function,
            arguments,
            ..
        } => push_both(second_column(columns, arguments), held_by(*function), found),
        _ => Ok(()),
    }
}

// Pushes a column with what it is taken for, where both are told.
fn push_both(at: Option<u32>, held: Option<Held>, found: &mut Vec<Looked>) -> Result<(), NoMemory>
    ensures { OnOk result (found.new.items
        ≡ found.old.items ++ looked_both at held) }
{
    let Some(at) = at else {
        return Ok(());
    };
    let Some(held) = held else {
        return Ok(());
    };
    found.push(Looked { at, held })?;
    Ok(())
}

// The place of the second argument of a call, where it is a column of p.
fn second_column(columns: &Rule, arguments: &[Tree]) -> Option<u32>
    ensures { result ≡ second_column columns.now
        (expressions_of (map expression arguments.now)) }
{
    let second = second_of(arguments)?;
    policy_place(columns, second)
}

// The place of the column of p that a node is.
fn policy_place(columns: &Rule, tree: &Tree) -> Option<u32>
    ensures { result ≡ policy_place columns.now (expression tree.now) }
{
    match tree {
        Tree::Policy { column, .. } => columns.place_of(column.bytes()),
        _ => None,
    }
}

/// The second of some trees.
pub(crate) fn second_of(trees: &[Tree]) -> Option<&Tree>
    ensures { option_map (λ tree. expression tree.now) result
        ≡ second_of (expressions_of (map expression trees.now)) }
{
    let (_, rest) = trees.split_first()?;
    first_of(rest)
}

// The first of some trees.
fn first_of(trees: &[Tree]) -> Option<&Tree>
    ensures { option_map (λ tree. expression tree.now) result
        ≡ first_of (expressions_of (map expression trees.now)) }
{
    let (first, _) = trees.split_first()?;
    Some(first)
}

// What a function takes its second argument for.
fn held_by(function: Function) -> Option<Held>
    ensures { result ≡ held_by function }
{
    match function {
        Function::IpMatch => Some(Held::Block),
        Function::KeyMatch2 => Some(Held::KeyPattern),
        _ => None,
    }
}
