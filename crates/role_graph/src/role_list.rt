//! The roles that a name has by links, in a graph whose distances are kept.

ghost use Rattle.std.specs.Prelude.{◌⊎◌, ◌<◌, ◌≤◌, ◌↔◌, ℕ, suc, List, None, IfOk, length};
ghost use Rattle.std.specs.List.{Contains};
ghost use Rattle.dist_rows.specs.Squares.{cell_of, most_nodes};
ghost use Rattle.role_meaning.specs.Implied.{AreImplied};
ghost use Rattle.role_graph.specs.Graph.{shape_of};
ghost use Rattle.role_graph.specs.Groups.{rows_of};
ghost use Rattle.role_graph.specs.Helps.Distances.{ArePicked, AreWithin, ReachesBy, ReachesByGroup, ReachesBySome};
ghost use Rattle.role_graph.specs.Helps.Kept.{linked_of};
ghost use Rattle.role_graph.specs.Helps.Roles.{nodes_of};
ghost use Rattle.role_graph.specs.Helps.Squares.{AreNodes, IsExact, IsMarked, name_at};

use crate::implied::sort;
use crate::link_groups::LinkGroups;
use crate::roles::Roles;
use crate::touched::{MOST_NODES, NodeMarks, no_nodes};
use dist_rows::DistRows;
use outside::{NoMemory, Text};
use std::alloc::Global;

/// The names other than `x` that it reaches by at most `most` links, the nearer first, those of one
/// distance by bytes.
pub(crate) fn listed(
    links: &LinkGroups,
    roles: &Roles,
    square: &DistRows,
    alloc: Global,
    x: &[u8],
    most: u8,
) -> Result<Vec<Text>, NoMemory>
    requires nodes { AreNodes (linked_of links.now) (nodes_of roles.now) }
    requires exact { IsExact (linked_of links.now) (nodes_of roles.now) square.now.cells }
    requires few { length (nodes_of roles.now) ≤ most_nodes }
    requires most { most ≤ 254 }
    ensures { IfOk result (λ names. AreImplied (shape_of links.now.names)
        (rows_of (linked_of links.now).groups) most None x.now names.items) }
{
    let mut names = Vec::new(alloc);
    let mut seen = within(links, roles, square, x, 0);
    for level in 0..most {
        let reached = within(links, roles, square, x, level + 1);
        let mut fresh = names_of(roles, alloc, &reached, &seen)?;
        sort(&mut fresh)?;
        names.append(&mut fresh)?;
        seen = reached;
    }
    Ok(names)
}

/// The nodes of roles that a name reaches by at most so many links.
pub(crate) fn within(
    links: &LinkGroups,
    roles: &Roles,
    square: &DistRows,
    x: &[u8],
    most: u8,
) -> NodeMarks
    requires nodes { AreNodes (linked_of links.now) (nodes_of roles.now) }
    requires exact { IsExact (linked_of links.now) (nodes_of roles.now) square.now.cells }
    requires few { length (nodes_of roles.now) ≤ most_nodes }
    requires most { most ≤ 254 }
    ensures { AreWithin (linked_of links.now) (nodes_of roles.now) x.now most result }
{
    let mut marks = no_nodes();
    if let Some(node) = roles.place_of(x) {
        mark_within(square, node, most, &mut marks);
        return marks;
    }
    if most > 0 {
        mark_by_rows(links, roles, square, x, most - 1, &mut marks);
    }
    marks
}

// Marks also the nodes to which a node is at most so near.
fn mark_within(square: &DistRows, node: usize, most: u8, marks: &mut NodeMarks)
    requires node { node < length square.now.cells }
    ensures { (a : ℕ) → a < length square.now.cells → IsMarked marks.new a
        ↔ (IsMarked marks.old a ⊎ (cell_of square.now.cells node a ≤ most)) }
{
    let size = square.size() as usize;
    let mut near = [false; MOST_NODES];
    square.within(node as u32, most, &mut near[..size]);
    for other in 0..size {
        marks[other] |= near[other];
    }
}

// Marks also the nodes that a name, which is no role, reaches by a link of a row and so many more.
fn mark_by_rows(
    links: &LinkGroups,
    roles: &Roles,
    square: &DistRows,
    x: &[u8],
    most: u8,
    marks: &mut NodeMarks,
)
    requires nodes { AreNodes (linked_of links.now) (nodes_of roles.now) }
    requires exact { IsExact (linked_of links.now) (nodes_of roles.now) square.now.cells }
    requires few { length (nodes_of roles.now) ≤ most_nodes }
    requires most { most ≤ 254 }
    ensures { (a : ℕ) → a < length (nodes_of roles.now) → IsMarked marks.new a
        ↔ (IsMarked marks.old a ⊎ ReachesByGroup (linked_of links.now) x.now
        (name_at (nodes_of roles.now) a) (length (linked_of links.now).groups) (suc most)) }
{
    let _few = links.len();
    let mut place = 0;
    while let Some(at) = links.next_fitting(x, place) {
        mark_by_roles(links, roles, square, links.roles_at(at), most, marks);
        place = at + 1;
    }
}

// Marks also the nodes that some of these roles reach by at most so many links.
fn mark_by_roles(
    links: &LinkGroups,
    roles: &Roles,
    square: &DistRows,
    names: &[Text],
    most: u8,
    marks: &mut NodeMarks,
)
    requires exact { IsExact (linked_of links.now) (nodes_of roles.now) square.now.cells }
    requires few { length (nodes_of roles.now) ≤ most_nodes }
    requires most { most ≤ 254 }
    requires roles { (role : List ℕ) → Contains names.now role
        → Contains (nodes_of roles.now) role }
    ensures { (a : ℕ) → a < length (nodes_of roles.now) → IsMarked marks.new a
        ↔ (IsMarked marks.old a ⊎ ReachesBySome (linked_of links.now) names.now
        (name_at (nodes_of roles.now) a) (suc most)) }
{
    for name in names {
        mark_by_role(links, roles, square, name.bytes(), most, marks);
    }
}

// Marks also the nodes that a role reaches by at most so many links.
fn mark_by_role(
    _links: &LinkGroups,
    roles: &Roles,
    square: &DistRows,
    name: &[u8],
    most: u8,
    marks: &mut NodeMarks,
)
    requires exact { IsExact (linked_of _links.now) (nodes_of roles.now) square.now.cells }
    requires few { length (nodes_of roles.now) ≤ most_nodes }
    requires most { most ≤ 254 }
    requires role { Contains (nodes_of roles.now) name.now }
    ensures { (a : ℕ) → a < length (nodes_of roles.now) → IsMarked marks.new a
        ↔ (IsMarked marks.old a ⊎ ReachesBy (linked_of _links.now) name.now
        (name_at (nodes_of roles.now) a) (suc most)) }
{
    let Some(node) = roles.place_of(name) else {
        unreachable!()
    };
    mark_within(square, node, most, marks);
}

// The names of the nodes that are reached and were not seen before.
fn names_of(
    roles: &Roles,
    alloc: Global,
    reached: &NodeMarks,
    seen: &NodeMarks,
) -> Result<Vec<Text>, NoMemory>
    requires { length (nodes_of roles.now) ≤ most_nodes }
    ensures { IfOk result (λ names. ArePicked (nodes_of roles.now) reached.now seen.now
        (length (nodes_of roles.now)) names.items) }
{
    let mut names = Vec::new(alloc);
    for node in 0..roles.len() {
        if !reached[node] {
            continue;
        }
        if seen[node] {
            continue;
        }
        names.push(Text::from_str(alloc, roles.text_at(node))?)?;
    }
    Ok(names)
}
