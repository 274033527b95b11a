//! Walks from a name, level by level: what is new at a level is reached by so many links, and by no
//! fewer.

ghost use Rattle.std.specs.Prelude.{◌≡◌, ◌+◌, ◌<◌, ◌≤◌, ◌↔◌, ℕ, List, IsTrue, None, length};
ghost use Rattle.std.specs.List.{Contains};
ghost use Rattle.role_meaning.specs.Depths.{IsDepth};
ghost use Rattle.role_graph.specs.Graph.{shape_of};
ghost use Rattle.role_graph.specs.Groups.{rows_of};
ghost use Rattle.role_graph.specs.Helps.Kept.{linked_of};
ghost use Rattle.role_graph.specs.Helps.Marks.{Extends, IsNext, IsSet};
ghost use Rattle.role_graph.specs.Helps.Walks.{FitsAt, GoesOn, HasSought, IsDistance, IsFirst, IsRoleAt, IsSought};

use crate::link_groups::LinkGroups;
use crate::marks::Marks;
use crate::short::seek_near;
use outside::Text;

/// What a walk looks for: a name, or any name without roles.
#[derive(Clone, Copy)]
pub(crate) enum Sought<'a> {
    Name(&'a [u8]),
    Top,
}

/// The least number of links, up to `most`, by which one name reaches the other. It takes no
/// memory.
pub(crate) fn distance(links: &LinkGroups, x: &[u8], y: &[u8], most: u8) -> Option<u8>
    requires { most ≤ 254 }
    ensures { IsDistance (linked_of links.now) x.now y.now most result }
{
    seek(links, x, Sought::Name(y), most)
}

/// The least number of links, up to `most`, by which a name reaches one without roles, and one more
/// than `most` where it reaches none. It takes no memory.
pub(crate) fn depth(links: &LinkGroups, x: &[u8], most: u8) -> u8
    requires { most ≤ 254 }
    ensures { IsDepth (shape_of links.now.names) (rows_of (linked_of links.now).groups) most None
        x.now result }
{
    let _few = links.len();
    seek(links, x, Sought::Top, most).unwrap_or(most + 1)
}

// The least number of links, up to `most`, by which a name reaches one that is sought.
fn seek(links: &LinkGroups, x: &[u8], sought: Sought, most: u8) -> Option<u8>
    requires { most ≤ 254 }
    ensures { IsFirst (linked_of links.now) sought.entry x.now most result }
{
    match seek_near(links, x, sought, most) {
        Some(found) => found,
        None => seek_far(links, x, sought, most),
    }
}

// The same for a walk that comes to many groups, which it marks.
#[inline(never)]
fn seek_far(links: &LinkGroups, x: &[u8], sought: Sought, most: u8) -> Option<u8>
    requires { most ≤ 254 }
    ensures { IsFirst (linked_of links.now) sought.entry x.now most result }
{
    if is_sought(links, sought, x) {
        return Some(0);
    }
    let mut reached = Marks::new();
    let mut fresh = begin(links, x, &mut reached);
    for level in 0..most {
        if fresh.is_empty() {
            return None;
        }
        if has_sought(links, sought, &fresh) {
            return Some(level + 1);
        }
        fresh = step(links, &fresh, &mut reached);
    }
    None
}

/// Whether a name is sought.
pub(crate) fn is_sought(links: &LinkGroups, sought: Sought, name: &[u8]) -> bool
    ensures { IsTrue result ↔ IsSought (linked_of links.now) sought.entry name.now }
{
    match sought {
        Sought::Name(wanted) => name == wanted,
        Sought::Top => !links.has_fitting(name),
    }
}

/// Whether some of the names is sought.
pub(crate) fn some_is_sought(links: &LinkGroups, sought: Sought, names: &[Text]) -> bool
    ensures { IsTrue result ↔ ((name : List ℕ) × Contains names.now name
        × IsSought (linked_of links.now) sought.entry name) }
{
    for name in names {
        if is_sought(links, sought, name.bytes()) {
            return true;
        }
    }
    false
}

/// Marks the groups whose users a name fits, and tells which of them were not marked.
pub(crate) fn begin(links: &LinkGroups, name: &[u8], reached: &mut Marks) -> Marks
    ensures marked { (at : ℕ) → FitsAt (linked_of links.now) name.now at → IsSet reached.new at }
    ensures marks { IsNext (λ at. FitsAt (linked_of links.now) name.now at) reached.old
        reached.new result }
{
    let mut fresh = Marks::new();
    links.mark(name, reached, &mut fresh);
    fresh
}

// Whether one of the groups has a role that is sought.
fn has_sought(links: &LinkGroups, sought: Sought, groups: &Marks) -> bool
    requires { (at : ℕ) → IsSet groups.now at → at < length (linked_of links.now).groups }
    ensures { IsTrue result
        ↔ HasSought (linked_of links.now) sought.entry (IsSet groups.now) }
{
    let mut place = 0;
    while let Some(at) = groups.next(place) {
        if some_is_sought(links, sought, links.roles_at(at)) {
            return true;
        }
        place = at + 1;
    }
    false
}

/// Whether a name stands among texts.
pub(crate) fn holds(texts: &[Text], name: &[u8]) -> bool
    ensures { IsTrue result ↔ Contains texts.now name.now }
{
    texts.iter().any(|text| text.bytes() == name)
}

/// Goes one link on from groups, and tells which were not reached before.
pub(crate) fn step(links: &LinkGroups, groups: &Marks, reached: &mut Marks) -> Marks
    requires { (at : ℕ) → IsSet groups.now at → at < length (linked_of links.now).groups }
    ensures marked { (from at : ℕ) (role : List ℕ) → IsSet groups.now from
        → IsRoleAt (linked_of links.now) role from
        → FitsAt (linked_of links.now) role at → IsSet reached.new at }
    ensures marks { IsNext (λ at. GoesOn (linked_of links.now) groups.now at) reached.old
        reached.new result }
{
    let mut fresh = Marks::new();
    let mut place = 0;
    while let Some(at) = groups.next(place) {
        mark_all(links, links.roles_at(at), reached, &mut fresh);
        place = at + 1;
    }
    fresh
}

// Marks the groups whose users some name fits, and notes as new those that were not marked.
fn mark_all(links: &LinkGroups, names: &[Text], reached: &mut Marks, fresh: &mut Marks)
    ensures marked { (at : ℕ) (name : List ℕ) → Contains names.now name
        → FitsAt (linked_of links.now) name at → IsSet reached.new at }
    ensures marks { Extends (λ at. (name : List ℕ) × Contains names.now name
        × FitsAt (linked_of links.now) name at) reached.old fresh.old reached.new fresh.new }
{
    for name in names {
        links.mark(name.bytes(), reached, fresh);
    }
}
