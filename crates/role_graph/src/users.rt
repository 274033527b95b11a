//! The users that have a role by links.

ghost use Rattle.std.specs.Prelude.{◌≡◌, ◌+◌, ◌<◌, ◌≤◌, ◌^◌, ◌++◌, ◌∷◌, ◌↔◌, [], All, Bool, IfOk, IsTrue, List, None, OnOk, ℕ, false, length, map};
ghost use Rattle.std.specs.List.{Contains, list_any};
ghost use Rattle.std.specs.Str.{bytes_eq};
ghost use Rattle.indexmap.specs.IndexSet.{contains};
ghost use Rattle.perm_base.specs.LineEnds.{has_line_end};
ghost use Rattle.role_meaning.specs.ImpliedUsers.{AreUsersOf};
ghost use Rattle.role_meaning.specs.Links.{user_of};
ghost use Rattle.role_graph.specs.Graph.{most_rows, shape_of};
ghost use Rattle.role_graph.specs.Groups.{rows_of};
ghost use Rattle.role_graph.specs.Helps.Kept.{linked_of};
ghost use Rattle.role_graph.specs.Helps.Marks.{IsSet};
ghost use Rattle.role_graph.specs.Helps.Users.{AreLeading, Chooses, FitsMarked, GoesBack, IsOnWay};
ghost use Rattle.role_graph.specs.Helps.Walks.{IsRoleAt};

use crate::implied::{add_one, sort};
use crate::link_groups::LinkGroups;
use crate::marks::Marks;
use indexmap::IndexSet;
use outside::{NoMemory, Text};
use perm_base::{Rule, is_pattern};
use policy_table::Rows;
use std::alloc::Global;

/// The users of rows, no patterns and none of them `x`, that reach it by at most `most` links: each
/// once, by bytes. The links are walked from `x` back, a level after the other.
pub(crate) fn users_among(
    links: &LinkGroups,
    alloc: Global,
    x: &[u8],
    most: u8,
    rows: Rows<'_>,
) -> Result<Vec<Text>, NoMemory>
    requires most { most ≤ 254 }
    requires columns { All (λ row. 2 ≤ length row) rows }
    requires few { length rows ≤ most_rows }
    ensures users { IfOk result (λ users. AreUsersOf (shape_of links.now.names)
        (rows_of (linked_of links.now).groups) most None (map user_of rows.entry) x.now
        users.items) }
    ensures few { IfOk result (λ users. length users.items < 2 ^ 32) }
    ensures whole_lines { IfOk result (λ users. list_any has_line_end users.items ≡ false) }
{
    let leading = leading(links, x, most);
    let mut seen = IndexSet::new(alloc);
    let mut users = Vec::new(alloc);
    for row in rows {
        add_user(links, alloc, x, &leading, row, &mut seen, &mut users)?;
    }
    sort(&mut users)?;
    Ok(users)
}

// The groups that lead to a name by at most `most` links.
fn leading(links: &LinkGroups, x: &[u8], most: u8) -> Marks
    requires { most ≤ 254 }
    ensures { AreLeading (linked_of links.now) x.now most result }
{
    let mut marks = Marks::new();
    for _level in 0..most {
        let more = step_back(links, x, &marks);
        if !has_new(&more, &marks) {
            return marks;
        }
        marks = more;
    }
    marks
}

// The groups of which some role is a name, or fits the user of a marked group.
fn step_back(links: &LinkGroups, x: &[u8], marks: &Marks) -> Marks
    ensures { (at : ℕ) → IsSet result at ↔ GoesBack (linked_of links.now) x.now marks.now at }
{
    let mut more = Marks::new();
    for at in 0..links.len() {
        if !some_on_way(links, x, marks, links.roles_at(at)) {
            continue;
        }
        more.set(at);
    }
    more
}

// Whether some of the roles is a name, or fits the user of a marked group.
fn some_on_way(links: &LinkGroups, x: &[u8], marks: &Marks, roles: &[Text]) -> bool
    ensures { IsTrue result ↔ ((role : List ℕ) × Contains roles.now role
        × IsOnWay (linked_of links.now) x.now marks.now role) }
{
    for role in roles {
        if is_on_way(links, x, marks, role.bytes()) {
            return true;
        }
    }
    false
}

fn is_on_way(links: &LinkGroups, x: &[u8], marks: &Marks, role: &[u8]) -> bool
    ensures { IsTrue result ↔ IsOnWay (linked_of links.now) x.now marks.now role.now }
{
    role == x || fits_marked(links, marks, role)
}

// Whether a name fits the user of a marked group.
fn fits_marked(links: &LinkGroups, marks: &Marks, name: &[u8]) -> bool
    ensures { IsTrue result ↔ FitsMarked (linked_of links.now) marks.now name.now }
{
    let _few = links.len();
    let mut place = 0;
    while let Some(at) = links.next_fitting(name, place) {
        if marks.has(at) {
            return true;
        }
        place = at + 1;
    }
    false
}

// Whether a place is marked that was not marked before.
fn has_new(more: &Marks, marks: &Marks) -> bool
    ensures { result ≡ false → (at : ℕ) → IsSet more.now at → IsSet marks.now at }
{
    let mut place = 0;
    while let Some(at) = more.next(place) {
        if !marks.has(at) {
            return true;
        }
        place = at + 1;
    }
    false
}

// Adds the user of a row, unless it is a pattern, or does not fit the user of a marked group, or is
// the name or seen already.
fn add_user(
    links: &LinkGroups,
    alloc: Global,
    x: &[u8],
    leading: &Marks,
    row: &Rule,
    seen: &mut IndexSet<Text>,
    users: &mut Vec<Text>,
) -> Result<(), NoMemory>
    requires { 2 ≤ length row.now }
    ensures { OnOk result ((names : List (List ℕ)) (before : List ℕ → Bool) (old : List (List ℕ))
        → Chooses (linked_of links.now) x.now leading.now names before (contains bytes_eq seen.old)
        old users.old.items
        → Chooses (linked_of links.now) x.now leading.now (names ++ user_of row.now ∷ []) before
        (contains bytes_eq seen.new) old users.new.items) }
{
    let user = user_of(row);
    let name = user.bytes();
    if is_pattern(links.names(), name) {
        return Ok(());
    }
    if !fits_marked(links, leading, name) {
        return Ok(());
    }
    add_one(alloc, user, x, seen, users)?;
    Ok(())
}

// The user of a row.
fn user_of(row: &Rule) -> &Text
    requires { 2 ≤ length row.now }
    ensures user { result.now ≡ user_of row.now }
    ensures whole_line { has_line_end result.now ≡ false }
{
    let _whole = row.field(0);
    &row.fields()[0]
}
