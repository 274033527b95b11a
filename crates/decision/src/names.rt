ghost use Rattle.std.specs.Prelude.{◌≡◌};
ghost use Rattle.matcher_read.specs.Expression.{expression};
ghost use Rattle.matcher_meaning.specs.Perm.{names_policy};

use matcher_read::{NodeKind, Tree, has_node};

/// The matcher names a column of the policy. It takes no memory.
pub(crate) fn names_policy(tree: &Tree) -> bool
    ensures { result ≡ names_policy (expression tree.now) }
{
    has_node(tree, NodeKind::PolicyColumn)
}
