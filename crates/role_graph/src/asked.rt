//! What is asked of a graph whose distances are kept.

ghost use Rattle.std.specs.Prelude.{◌≡◌, ◌+◌, ◌<◌, ◌≤◌, ℕ, IfSome, List, None, length};
ghost use Rattle.std.specs.List.{Contains};
ghost use Rattle.dist_rows.specs.Squares.{most_nodes};
ghost use Rattle.role_meaning.specs.Distances.{IsFar, farthest};
ghost use Rattle.role_meaning.specs.Least.{IsLeast};
ghost use Rattle.role_graph.specs.Graph.{asked_rows, shape_of};
ghost use Rattle.role_graph.specs.Groups.{rows_of};
ghost use Rattle.role_graph.specs.Helps.Distances.{ReachesBy, ReachesByGroup, ReachesBySome};
ghost use Rattle.role_graph.specs.Helps.Kept.{AreLinks, linked_of};
ghost use Rattle.role_graph.specs.Helps.Roles.{nodes_of};
ghost use Rattle.role_graph.specs.Helps.Squares.{AreNodes, IsExact, name_at};
ghost use Rattle.role_graph.specs.Helps.Walks.{FitsAt};

use crate::link_groups::LinkGroups;
use crate::roles::Roles;
use crate::walk::holds;
use dist_rows::{DistRows, Steps};
use outside::Text;
use std::sync::ledger::Ledger;

/// The greatest number of links that is told, and the greatest distance.
pub(crate) const FARTHEST: u8 = 254;

/// What tells that there are more, or none at all.
pub(crate) const TOO_FAR: u8 = 255;

/// The least number of links by which the one name reaches the other, or 255 where it is above 254
/// or there is none: none where a row of the name has the other as its role, one cell where the name
/// has several rows and is a role, and else one cell for each of its rows.
pub(crate) fn nearest<L: Ledger>(
    links: &LinkGroups,
    roles: &Roles,
    square: &DistRows,
    x: &[u8],
    y: &[u8],
    steps: &mut Steps<L>,
) -> u8
    requires nodes { AreNodes (linked_of links.now) (nodes_of roles.now) }
    requires exact { IsExact (linked_of links.now) (nodes_of roles.now) square.now.cells }
    requires few { length (nodes_of roles.now) ≤ most_nodes }
    ensures far { IsFar (shape_of links.now.names) (rows_of (linked_of links.now).groups) None
        x.now y.now result }
    ensures steps { steps.old ≤ steps.new }
    ensures few_steps { steps.new ≤ steps.old
        + asked_rows links.now.names x.now (rows_of (linked_of links.now).groups) + 1 }
{
    if x == y {
        return 0;
    }
    let Some(first) = links.next_fitting(x, 0) else {
        return TOO_FAR;
    };
    if holds(links.roles_at(first), y) {
        return 1;
    }
    let Some(to) = roles.place_of(y) else {
        return TOO_FAR;
    };
    match place_of_many(links, roles, x, first) {
        Some(from) => square.cell(from as u32, to as u32, steps),
        None => nearest_by_rows(links, roles, square, x, first, to, steps),
    }
}

// The place of a name that is a role, where the first group that it fits has several roles: one cell
// tells what else takes one for each.
fn place_of_many(links: &LinkGroups, roles: &Roles, x: &[u8], first: usize) -> Option<usize>
    requires { first < length (linked_of links.now).groups }
    ensures { IfSome result (λ node. (node < length (nodes_of roles.now))
        × (name_at (nodes_of roles.now) node ≡ x.now)) }
{
    if links.roles_at(first).len() == 1 {
        return None;
    }
    roles.place_of(x)
}

// The same by the rows of a name, of which a group is the first.
fn nearest_by_rows<L: Ledger>(
    links: &LinkGroups,
    roles: &Roles,
    square: &DistRows,
    x: &[u8],
    first: usize,
    to: usize,
    steps: &mut Steps<L>,
) -> u8
    requires nodes { AreNodes (linked_of links.now) (nodes_of roles.now) }
    requires exact { IsExact (linked_of links.now) (nodes_of roles.now) square.now.cells }
    requires few { length (nodes_of roles.now) ≤ most_nodes }
    requires to { to < length (nodes_of roles.now) }
    requires fits { FitsAt (linked_of links.now) x.now first }
    requires first { (other : ℕ) → 0 ≤ other → other < first
        → FitsAt (linked_of links.now) x.now other → ⊥ }
    ensures far { IsLeast farthest (λ far. ReachesByGroup (linked_of links.now) x.now
        (name_at (nodes_of roles.now) to) (length (linked_of links.now).groups) far) result }
    ensures steps { steps.old ≤ steps.new }
    ensures few_steps { steps.new ≤ steps.old
        + asked_rows links.now.names x.now (rows_of (linked_of links.now).groups) }
{
    let _few = links.len();
    let mut least = nearest_by_roles(links, roles, square, links.roles_at(first), to, steps);
    let mut place = first + 1;
    while let Some(at) = links.next_fitting(x, place) {
        least = least.min(nearest_by_roles(links, roles, square, links.roles_at(at), to, steps));
        place = at + 1;
    }
    least
}

// The least number of links by way of some of the roles.
fn nearest_by_roles<L: Ledger>(
    links: &LinkGroups,
    roles: &Roles,
    square: &DistRows,
    names: &[Text],
    to: usize,
    steps: &mut Steps<L>,
) -> u8
    requires exact { IsExact (linked_of links.now) (nodes_of roles.now) square.now.cells }
    requires few { length (nodes_of roles.now) ≤ most_nodes }
    requires to { to < length (nodes_of roles.now) }
    requires roles { (role : List ℕ) → Contains names.now role
        → Contains (nodes_of roles.now) role }
    ensures far { IsLeast farthest (λ far. ReachesBySome (linked_of links.now) names.now
        (name_at (nodes_of roles.now) to) far) result }
    ensures steps { steps.new ≡ steps.old + length names.now }
{
    let mut least = TOO_FAR;
    for name in names {
        least = least.min(nearest_by_role(links, roles, square, name.bytes(), to, steps));
    }
    least
}

// The least number of links by way of a role.
fn nearest_by_role<L: Ledger>(
    _links: &LinkGroups,
    roles: &Roles,
    square: &DistRows,
    name: &[u8],
    to: usize,
    steps: &mut Steps<L>,
) -> u8
    requires exact { IsExact (linked_of _links.now) (nodes_of roles.now) square.now.cells }
    requires few { length (nodes_of roles.now) ≤ most_nodes }
    requires to { to < length (nodes_of roles.now) }
    requires role { Contains (nodes_of roles.now) name.now }
    ensures far { IsLeast farthest (λ far. ReachesBy (linked_of _links.now) name.now
        (name_at (nodes_of roles.now) to) far) result }
    ensures steps { steps.new ≡ steps.old + 1 }
{
    let Some(from) = roles.place_of(name) else {
        unreachable!()
    };
    square.cell(from as u32, to as u32, steps).saturating_add(1)
}
