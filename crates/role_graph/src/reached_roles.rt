//! The roles that a name reaches, marked each at the place of its node.

ghost use Rattle.std.specs.Prelude.{◌≡◌, ◌<◌, ◌≤◌, ◌↔◌, ℕ, List, length};
ghost use Rattle.std.specs.List.{Contains};
ghost use Rattle.dist_rows.specs.Squares.{most_nodes};
ghost use Rattle.role_graph.specs.Helps.Kept.{linked_of};
ghost use Rattle.role_graph.specs.Helps.Marks.{IsSet};
ghost use Rattle.role_graph.specs.Helps.ReachMarks.{HasRoleIn, IsReach, SetsAlso};
ghost use Rattle.role_graph.specs.Helps.Roles.{nodes_of};
ghost use Rattle.role_graph.specs.Helps.Squares.{AreNodes, IsExact, name_at};
ghost use Rattle.role_graph.specs.Helps.Walks.{IsEntered};

use crate::link_groups::LinkGroups;
use crate::marks::Marks;
use crate::role_list::within;
use crate::roles::Roles;
use crate::short::{group_at, list_entered};
use crate::walk::{begin, step};
use dist_rows::DistRows;
use outside::Text;

/// Marks, by the distances that are kept, the roles that a name reaches by at most so many links, and
/// no other.
pub(crate) fn mark_kept(
    links: &LinkGroups,
    roles: &Roles,
    square: &DistRows,
    x: &[u8],
    most: u8,
    marks: &mut Marks,
)
    requires nodes { AreNodes (linked_of links.now) (nodes_of roles.now) }
    requires exact { IsExact (linked_of links.now) (nodes_of roles.now) square.now.cells }
    requires few { length (nodes_of roles.now) ≤ most_nodes }
    requires most { most ≤ 254 }
    ensures { IsReach (linked_of links.now) (nodes_of roles.now) most x.now marks.new }
{
    let near = within(links, roles, square, x, most);
    let count = roles.len();
    marks.clear(count);
    for node in 0..count {
        if !near[node] {
            continue;
        }
        marks.set(node);
    }
}

/// Marks by a walk the roles that a name reaches by at most so many links, and of the others none but
/// perhaps the name itself. Where the walk comes to few groups, its time is that of their roles.
pub(crate) fn mark_walked(links: &LinkGroups, roles: &Roles, x: &[u8], most: u8, marks: &mut Marks)
    requires nodes { AreNodes (linked_of links.now) (nodes_of roles.now) }
    requires few { length (nodes_of roles.now) ≤ 200000 }
    requires some { 1 ≤ most }
    requires most { most ≤ 254 }
    ensures { IsReach (linked_of links.now) (nodes_of roles.now) most x.now marks.new }
{
    marks.clear(roles.len());
    let Some(listed) = list_entered(links, x, most - 1) else {
        mark_far(links, roles, x, most - 1, marks);
        return;
    };
    mark_listed(links, roles, listed.as_slice(), marks);
}

// Marks the roles of the groups that a name enters by at most so many links.
#[inline(never)]
fn mark_far(links: &LinkGroups, roles: &Roles, x: &[u8], most: u8, marks: &mut Marks)
    requires nodes { AreNodes (linked_of links.now) (nodes_of roles.now) }
    requires few { length (nodes_of roles.now) ≤ 200000 }
    requires most { most ≤ 254 }
    ensures { (a : ℕ) → a < length (nodes_of roles.now) → SetsAlso
        (λ b. HasRoleIn (linked_of links.now) (IsEntered (linked_of links.now) x.now most)
        (name_at (nodes_of roles.now) b)) marks.old marks.new a }
{
    let groups = entered(links, x, most);
    mark_groups(links, roles, &groups, marks);
}

// The groups that a name enters by at most so many links.
fn entered(links: &LinkGroups, x: &[u8], most: u8) -> Marks
    requires { most ≤ 254 }
    ensures { (at : ℕ) → IsSet result at ↔ IsEntered (linked_of links.now) x.now most at }
{
    let mut reached = Marks::new();
    let mut fresh = begin(links, x, &mut reached);
    for _level in 0..most {
        if fresh.is_empty() {
            return reached;
        }
        fresh = step(links, &fresh, &mut reached);
    }
    reached
}

// Marks also the roles of marked groups.
fn mark_groups(links: &LinkGroups, roles: &Roles, groups: &Marks, marks: &mut Marks)
    requires nodes { AreNodes (linked_of links.now) (nodes_of roles.now) }
    requires few { length (nodes_of roles.now) ≤ 200000 }
    requires within { (at : ℕ) → IsSet groups.now at → at < length (linked_of links.now).groups }
    ensures { (a : ℕ) → a < length (nodes_of roles.now) → SetsAlso
        (λ b. HasRoleIn (linked_of links.now) (IsSet groups.now) (name_at (nodes_of roles.now) b))
        marks.old marks.new a }
{
    let mut place = 0;
    while let Some(at) = groups.next(place) {
        mark_roles(roles, links.roles_at(at), marks);
        place = at + 1;
    }
}

// Marks also the roles of listed groups.
fn mark_listed(links: &LinkGroups, roles: &Roles, listed: &[usize], marks: &mut Marks)
    requires nodes { AreNodes (linked_of links.now) (nodes_of roles.now) }
    requires few { length (nodes_of roles.now) ≤ 200000 }
    requires within { (at : ℕ) → Contains listed.now at
        → at < length (linked_of links.now).groups }
    ensures { (a : ℕ) → a < length (nodes_of roles.now) → SetsAlso
        (λ b. HasRoleIn (linked_of links.now) (Contains listed.now)
        (name_at (nodes_of roles.now) b)) marks.old marks.new a }
{
    for index in 0..listed.len() {
        let group = group_at(listed, index);
        mark_roles(roles, links.roles_at(group), marks);
    }
}

// Marks also some roles.
fn mark_roles(roles: &Roles, names: &[Text], marks: &mut Marks)
    requires few { length (nodes_of roles.now) ≤ 200000 }
    requires roles { (role : List ℕ) → Contains names.now role
        → Contains (nodes_of roles.now) role }
    ensures { (a : ℕ) → a < length (nodes_of roles.now) → SetsAlso
        (λ b. Contains names.now (name_at (nodes_of roles.now) b)) marks.old marks.new a }
{
    for name in names {
        mark_role(roles, name.bytes(), marks);
    }
}

// Marks also a role.
fn mark_role(roles: &Roles, name: &[u8], marks: &mut Marks)
    requires few { length (nodes_of roles.now) ≤ 200000 }
    requires role { Contains (nodes_of roles.now) name.now }
    ensures { (a : ℕ) → a < length (nodes_of roles.now) → SetsAlso
        (λ b. name_at (nodes_of roles.now) b ≡ name.now) marks.old marks.new a }
{
    let Some(node) = roles.place_of(name) else {
        unreachable!()
    };
    marks.set(node);
}
