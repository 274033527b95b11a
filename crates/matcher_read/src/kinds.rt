ghost use Rattle.std.specs.Prelude.{◌≡◌, map};
ghost use Rattle.matcher_read.specs.Expression.{among_some, expression, expressions_of, some_node};
ghost use Rattle.matcher_read.specs.Kinds.{is_of};

use crate::tree::Tree;

/// What a matcher is searched for.
#[derive(Clone, Copy, Debug, PartialEq, Eq)]
pub enum NodeKind {
    /// `p.column`, by itself or in `eval(p.column)`.
    PolicyColumn,
    /// `eval(p.column)`.
    Eval,
}

/// A node of the matcher is of this kind. It takes no memory.
#[cycle(kinds)]
pub fn has_node(tree: &Tree, kind: NodeKind) -> bool
    ensures { result ≡ some_node (λ e. is_of e kind) (expression tree.now) }
{
    match tree {
        Tree::Text { .. } | Tree::Whole { .. } | Tree::Truth { .. } | Tree::Request { .. } => false,
        Tree::Policy { .. } => match kind {
            NodeKind::PolicyColumn => true,
            NodeKind::Eval => false,
        },
        Tree::Eval { .. } => true,
        Tree::Not { operand, .. } | Tree::Negate { operand, .. } => has_node(operand, kind),
        Tree::Binary { left, right, .. } => has_node(left, kind) || has_node(right, kind),
        Tree::Among { value, members, .. } => has_node(value, kind) || some_has_node(members, kind),
        Tree::Call { arguments, .. } | Tree::Role { arguments, .. } => {
            some_has_node(arguments, kind)
        }
    }
}

// A node of one of these is of this kind.
#[cycle(kinds)]
fn some_has_node(trees: &[Tree], kind: NodeKind) -> bool
    ensures { result
        ≡ among_some (λ e. is_of e kind) (expressions_of (map expression trees.now)) }
{
    for tree in trees {
        if has_node(tree, kind) {
            return true;
        }
    }
    false
}
