//! The nodes to which a node is linked.

ghost use Rattle.std.specs.Prelude.{◌≡◌, ◌⊎◌, ◌<◌, ◌↔◌, ℕ, length};
ghost use Rattle.std.specs.List.{Contains};
ghost use Rattle.dist_rows.specs.Squares.{most_nodes};
ghost use Rattle.role_graph.specs.Helps.Kept.{linked_of};
ghost use Rattle.role_graph.specs.Helps.Roles.{nodes_of};
ghost use Rattle.role_graph.specs.Helps.Squares.{IsMarked, IsNodeLink, name_at};

use crate::link_groups::LinkGroups;
use crate::roles::Roles;
use crate::touched::{MOST_NODES, NodeMarks, no_nodes};
use outside::Text;

/// The nodes to which a row links a node. Its time grows with the rows of the node, and with the patterns.
pub(crate) fn linked_nodes(links: &LinkGroups, roles: &Roles, node: u32) -> NodeMarks
    requires { node < length (nodes_of roles.now) }
    ensures { (b : ℕ) → b < most_nodes → b < length (nodes_of roles.now)
        → IsMarked result b ↔ IsNodeLink (linked_of links.now) (nodes_of roles.now) node b }
{
    let _few = links.len();
    let name = roles.name_at(node as usize);
    let mut marks = no_nodes();
    let mut place = 0;
    while let Some(at) = links.next_fitting(name, place) {
        mark_names(roles, links.roles_at(at), &mut marks);
        place = at + 1;
    }
    marks
}

// Marks also the nodes of names.
fn mark_names(roles: &Roles, names: &[Text], marks: &mut NodeMarks)
    ensures { (b : ℕ) → b < most_nodes → b < length (nodes_of roles.now) → IsMarked marks.new b
        ↔ (IsMarked marks.old b ⊎ Contains names.now (name_at (nodes_of roles.now) b)) }
{
    for name in names {
        mark_name(roles, name.bytes(), marks);
    }
}

// Marks also the node of a name.
fn mark_name(roles: &Roles, name: &[u8], marks: &mut NodeMarks)
    ensures { (b : ℕ) → b < most_nodes → b < length (nodes_of roles.now) → IsMarked marks.new b
        ↔ (IsMarked marks.old b ⊎ (name_at (nodes_of roles.now) b ≡ name.now)) }
{
    let Some(node) = roles.place_of(name) else {
        return;
    };
    if node < MOST_NODES {
        marks[node] = true;
    }
}
