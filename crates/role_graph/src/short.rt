//! Walks that come to few groups: these stand in a list, and no space for marks is cleared.

ghost use Rattle.std.specs.Prelude.{◌≡◌, ◌<◌, ◌≤◌, ◌↔◌, ℕ, IfSome, IsTrue, get_or, length, true};
ghost use Rattle.std.specs.List.{Contains};
ghost use Rattle.role_graph.specs.Helps.Kept.{linked_of};
ghost use Rattle.role_graph.specs.Helps.Lists.{FitsSome, GoesOnFrom, HasSoughtFrom, Lists};
ghost use Rattle.role_graph.specs.Helps.Walks.{FitsAt, IsEntered, IsFirst};

use crate::link_groups::LinkGroups;
use crate::walk::{Sought, is_sought, some_is_sought};
use arrayvec::ArrayVec;
use outside::Text;

/// How many groups a list holds.
const FEW: usize = 32;

/// Groups in the order in which a walk comes to them.
pub(crate) type Listed = ArrayVec<usize, FEW>;

/// The least number of links, up to `most`, by which a name reaches one that is sought, where a walk
/// comes to no more groups than a list holds. It takes no memory.
pub(crate) fn seek_near(
    links: &LinkGroups,
    x: &[u8],
    sought: Sought,
    most: u8,
) -> Option<Option<u8>>
    requires { most ≤ 254 }
    ensures { IfSome result (λ found. IsFirst (linked_of links.now) sought.entry x.now most
        found) }
{
    let _few = links.len();
    if is_sought(links, sought, x) {
        return Some(Some(0));
    }
    let mut listed = Listed::new();
    if !links.list(x, &mut listed) {
        return None;
    }
    let mut from = 0;
    for level in 0..most {
        let upto = listed.len();
        if from == upto {
            return Some(None);
        }
        if has_sought(links, sought, listed.as_slice(), from) {
            return Some(Some(level + 1));
        }
        if !list_on(links, &mut listed, from) {
            return None;
        }
        from = upto;
    }
    Some(None)
}

/// The groups that a name enters by at most so many links, where these are no more than a list holds.
/// It takes no memory.
pub(crate) fn list_entered(links: &LinkGroups, x: &[u8], most: u8) -> Option<Listed>
    requires { most ≤ 254 }
    ensures { IfSome result (λ listed. (at : ℕ) → Contains listed.items at
        ↔ IsEntered (linked_of links.now) x.now most at) }
{
    let _few = links.len();
    let mut listed = Listed::new();
    if !links.list(x, &mut listed) {
        return None;
    }
    let mut from = 0;
    for _level in 0..most {
        let upto = listed.len();
        if from == upto {
            return Some(listed);
        }
        if !list_on(links, &mut listed, from) {
            return None;
        }
        from = upto;
    }
    Some(listed)
}

// Whether one of the groups from a place of the list on has a role that is sought.
fn has_sought(links: &LinkGroups, sought: Sought, listed: &[usize], from: usize) -> bool
    requires { (at : ℕ) → Contains listed.now at → at < length (linked_of links.now).groups }
    ensures { IsTrue result ↔ HasSoughtFrom (linked_of links.now) sought.entry listed.now from
        (length listed.now) }
{
    for index in from..listed.len() {
        if some_is_sought(links, sought, links.roles_at(group_at(listed, index))) {
            return true;
        }
    }
    false
}

// Lists the groups whose users the roles of the listed groups from a place on fit, and tells whether
// there is room.
fn list_on(links: &LinkGroups, listed: &mut Listed, from: usize) -> bool
    requires { (at : ℕ) → Contains listed.old.items at → at < length (linked_of links.now).groups }
    ensures { result ≡ true → Lists
        (GoesOnFrom (linked_of links.now) listed.old.items from (length listed.old.items))
        (GoesOnFrom (linked_of links.now) listed.old.items from (length listed.old.items))
        listed.old.items listed.new.items }
{
    for index in from..listed.len() {
        let group = group_at(listed.as_slice(), index);
        if !list_all(links, links.roles_at(group), listed) {
            return false;
        }
    }
    true
}

// Lists the groups whose users some of the names fits, and tells whether there is room.
fn list_all(links: &LinkGroups, names: &[Text], listed: &mut Listed) -> bool
    ensures { result ≡ true → Lists (FitsSome (linked_of links.now) names.now)
        (FitsSome (linked_of links.now) names.now) listed.old.items listed.new.items }
{
    for name in names {
        if !links.list(name.bytes(), listed) {
            return false;
        }
    }
    true
}

/// Lists a place, unless it is listed, and tells whether there is room.
pub(crate) fn list_one(place: usize, listed: &mut Listed) -> bool
    ensures { result ≡ true → Lists (λ at. at ≡ place) (λ at. at ≡ place) listed.old.items
        listed.new.items }
{
    if is_listed(place, listed.as_slice()) {
        return true;
    }
    if listed.is_full() {
        return false;
    }
    listed.push(place);
    true
}

/// The group at a place of a list.
pub(crate) fn group_at(listed: &[usize], index: usize) -> usize
    requires { index < length listed.now }
    ensures { result ≡ get_or listed.now index 0 }
{
    listed[index]
}

fn is_listed(place: usize, listed: &[usize]) -> bool
    ensures { IsTrue result ↔ Contains listed.now place }
{
    listed.iter().any(|at| *at == place)
}
