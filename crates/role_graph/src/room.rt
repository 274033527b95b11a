//! Room for the distances that a graph keeps after an edit.

ghost use Rattle.std.specs.Prelude.{◌≡◌, ◌<◌, ◌^◌, IfOk};

use crate::edits::Edits;
use crate::link_groups::{LinkGroups, initial};
use crate::name::Name;
use crate::names::Names;
use crate::roles::Roles;
use crate::touched::MOST_NODES;
use dist_rows::DistRows;
use indexmap::IndexSet;
use outside::NoMemory;
use perm_base::is_pattern;
use std::alloc::Global;

/// Up to so many roles the distances between all of them take little memory.
pub(crate) const FEW_ROLES: usize = 128;

/// Where fewer roles have links of their own, a walk comes to few groups.
pub(crate) const FEW_LINKED: usize = 32;

/// Makes room for the distances between all roles that may stand after these edits, by which roles come
/// and so many rows go. None is needed where no distances are to be kept.
pub(crate) fn reserve_square(
    square: &mut DistRows,
    alloc: Global,
    links: &LinkGroups,
    roles: &Roles,
    edits: &Edits,
    added: &Names,
    gone: usize,
) -> Result<(), NoMemory>
    ensures { square.new.cells ≡ square.old.cells }
{
    if roles.len() > MOST_NODES.saturating_add(gone) {
        return Ok(());
    }
    if square.size() == 0 && !are_wanted(links, roles, edits, added) {
        return Ok(());
    }
    let most = roles.len() + count_new(alloc, roles, added)?;
    let wanted = most.min(MOST_NODES) as u32;
    square.reserve_node(wanted.saturating_sub(square.size()))
}

// Whether distances may have to be kept after an edit, where none are before it: roles get links, and with these either the roles are
// few, or those with links are not.
fn are_wanted(links: &LinkGroups, roles: &Roles, edits: &Edits, added: &Names) -> bool {
    let more = changed_roles(links, roles, edits).saturating_add(added_users(links, edits, added));
    more > 0
        && (roles.len() <= FEW_ROLES
            || count_linked(links, roles).saturating_add(more) >= FEW_LINKED)
}

/// How many of the roles have links of their own, of the first that may be nodes.
pub(crate) fn count_linked(links: &LinkGroups, roles: &Roles) -> usize {
    let initials = initials_beside(links, roles);
    let mut count = 0usize;
    for node in 0..roles.len().min(MOST_NODES) {
        let name = roles.name_at(node);
        if initial(name) & initials != 0 && links.has_fitting(name) {
            count = count.saturating_add(1);
        }
    }
    count
}

// With which bytes users begin, so that most roles need no look-up. Where users are many more than roles to look at all of them costs
// more than that: then all bits.
fn initials_beside(links: &LinkGroups, roles: &Roles) -> u64 {
    if links.len() / 4 > roles.len() {
        return u64::MAX;
    }
    links.initials()
}

// How many users whose rows change are roles. A pattern may be many.
fn changed_roles(links: &LinkGroups, roles: &Roles, edits: &Edits) -> usize {
    let mut count = 0usize;
    for place in 0..edits.len() {
        let user = edits.user_at(place);
        if is_pattern(links.names(), user) {
            return FEW_LINKED;
        }
        if roles.place_of(user).is_some() {
            count = count.saturating_add(1);
        }
    }
    count
}

// How many of the roles that come have rows of their own.
fn added_users(links: &LinkGroups, edits: &Edits, added: &Names) -> usize {
    let mut count = 0usize;
    for at in 0..added.len() {
        let name = added.at(at).bytes();
        if links.has_fitting(name) || edits.has_user(name) {
            count = count.saturating_add(1);
        }
    }
    count
}

// How many of the names are no roles yet, each counted once.
fn count_new(alloc: Global, roles: &Roles, names: &Names) -> Result<usize, NoMemory>
    ensures { IfOk result (λ count. count < 2 ^ 63) }
{
    let mut found = IndexSet::new(alloc);
    for place in 0..names.len() {
        add_new(alloc, roles, names.at(place), &mut found)?;
    }
    Ok(found.len())
}

// Adds a name, unless it is a role already.
fn add_new(
    alloc: Global,
    roles: &Roles,
    name: &Name,
    found: &mut IndexSet<Name>,
) -> Result<(), NoMemory> {
    if let Some(_place) = roles.place_of(name.bytes()) {
        return Ok(());
    }
    let _new = found.insert(name.copy(alloc)?)?;
    Ok(())
}
