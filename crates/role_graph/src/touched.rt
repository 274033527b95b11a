//! Nodes whose links an edit may change.

ghost use Rattle.std.specs.Prelude.{◌≡◌, ◌<◌, ◌≤◌, ℕ, length};
ghost use Rattle.std.specs.List.{Contains};
ghost use Rattle.dist_rows.specs.Squares.{most_nodes};
ghost use Rattle.role_meaning.specs.Fits.{Fits};
ghost use Rattle.role_graph.specs.Groups.{Group};
ghost use Rattle.role_graph.specs.Helps.Roles.{nodes_of};
ghost use Rattle.role_graph.specs.Helps.Squares.{IsMarked, name_at};

use crate::edits::Edits;
use crate::roles::Roles;
use perm_base::{Fit, is_pattern};
use role_meaning::fits;

/// The greatest number of different roles in the rows of a graph that is kept.
pub(crate) const MOST_NODES: usize = 1024;

/// Which nodes are marked, by their places.
pub(crate) type NodeMarks = [bool; MOST_NODES];

/// The nodes from `known` on, and those that fit a user whose rows change.
pub(crate) fn touched(roles: &Roles, names: Fit, edits: &Edits, known: usize) -> NodeMarks
    ensures fresh { (a : ℕ) → known ≤ a → a < most_nodes → IsMarked result a }
    ensures fitting { (a : ℕ) (group : Group) → a < most_nodes → a < length (nodes_of roles.now)
        → Contains edits.now group → Fits names (name_at (nodes_of roles.now) a) group.user
        → IsMarked result a }
{
    let mut marks = nodes_from(known);
    for place in 0..edits.len() {
        touch(roles, names, edits.user_at(place), &mut marks);
    }
    marks
}

/// No node.
pub(crate) fn no_nodes() -> NodeMarks
    ensures { (a : ℕ) → IsMarked result a → ⊥ }
{
    [false; MOST_NODES]
}

/// The nodes from one on.
pub(crate) fn nodes_from(known: usize) -> NodeMarks
    ensures { (a : ℕ) → known ≤ a → a < most_nodes → IsMarked result a }
{
    let mut marks = [false; MOST_NODES];
    for node in known..MOST_NODES {
        marks[node] = true;
    }
    marks
}

// Marks the nodes that fit a user.
fn touch(roles: &Roles, names: Fit, user: &[u8], marks: &mut NodeMarks)
    ensures keeps { (a : ℕ) → IsMarked marks.old a → IsMarked marks.new a }
    ensures fitting { (a : ℕ) → a < most_nodes → a < length (nodes_of roles.now)
        → Fits names (name_at (nodes_of roles.now) a) user.now → IsMarked marks.new a }
{
    if is_pattern(names, user) {
        touch_fitting(roles, names, user, marks);
    } else {
        touch_role(roles, user, marks);
    }
}

// Marks the node of a name.
fn touch_role(roles: &Roles, name: &[u8], marks: &mut NodeMarks)
    ensures keeps { (a : ℕ) → IsMarked marks.old a → IsMarked marks.new a }
    ensures named { (a : ℕ) → a < most_nodes → a < length (nodes_of roles.now)
        → name_at (nodes_of roles.now) a ≡ name.now → IsMarked marks.new a }
{
    let Some(node) = roles.place_of(name) else {
        return;
    };
    if node < MOST_NODES {
        marks[node] = true;
    }
}

// Marks the nodes that fit a pattern.
fn touch_fitting(roles: &Roles, names: Fit, pattern: &[u8], marks: &mut NodeMarks)
    ensures keeps { (a : ℕ) → IsMarked marks.old a → IsMarked marks.new a }
    ensures fitting { (a : ℕ) → a < most_nodes → a < length (nodes_of roles.now)
        → Fits names (name_at (nodes_of roles.now) a) pattern.now → IsMarked marks.new a }
{
    for node in 0..roles.len().min(MOST_NODES) {
        marks[node] |= fits(names, roles.name_at(node), pattern);
    }
}
