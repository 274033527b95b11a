//! The roles that a name has by links.

ghost use Rattle.std.specs.Prelude.{◌≡◌, ◌<◌, ◌≤◌, ◌||◌, ◌++◌, ◌∷◌, [], List, ℕ, Bool, IfOk, OnOk, IsPermutation, None, if◌then◌else◌, length};
ghost use Rattle.std.specs.List.Sorted.{IsSortedBy};
ghost use Rattle.std.specs.Ordering.{is_lt};
ghost use Rattle.std.specs.Str.{bytes_eq};
ghost use Rattle.indexmap.specs.IndexSet.{contains};
ghost use Rattle.role_meaning.specs.Implied.{AreImplied};
ghost use Rattle.role_graph.specs.Graph.{shape_of};
ghost use Rattle.role_graph.specs.Groups.{rows_of};
ghost use Rattle.role_graph.specs.Helps.Kept.{linked_of};
ghost use Rattle.role_graph.specs.Helps.Marks.{IsSet};
ghost use Rattle.role_graph.specs.Helps.Names.{Adds, AreGathered, is_before};

use crate::link_groups::LinkGroups;
use crate::marks::Marks;
use crate::walk::{begin, step};
use indexmap::IndexSet;
use outside::{NoMemory, Text};
use std::alloc::Global;
use std::cmp::Ordering;

/// The names other than `x` that it reaches by at most `most` links, the nearer first, those of one
/// distance by bytes.
pub(crate) fn implied(
    links: &LinkGroups,
    alloc: Global,
    x: &[u8],
    most: u8,
) -> Result<Vec<Text>, NoMemory>
    requires { most ≤ 254 }
    ensures { IfOk result (λ names. AreImplied (shape_of links.now.names)
        (rows_of (linked_of links.now).groups) most None x.now names.items) }
{
    let mut names = Vec::new(alloc);
    let mut seen = IndexSet::new(alloc);
    let mut reached = Marks::new();
    let mut groups = begin(links, x, &mut reached);
    for _level in 0..most {
        if groups.is_empty() {
            return Ok(names);
        }
        let mut fresh = gather(links, alloc, x, &groups, &mut seen)?;
        sort(&mut fresh)?;
        names.append(&mut fresh)?;
        groups = step(links, &groups, &mut reached);
    }
    Ok(names)
}

// The roles of groups that are not the name and not seen yet.
fn gather(
    links: &LinkGroups,
    alloc: Global,
    x: &[u8],
    groups: &Marks,
    seen: &mut IndexSet<Text>,
) -> Result<Vec<Text>, NoMemory>
    requires { (at : ℕ) → IsSet groups.now at → at < length (linked_of links.now).groups }
    ensures { IfOk result (λ fresh. AreGathered (linked_of links.now) x.now groups.now
        (length (linked_of links.now).groups) (contains bytes_eq seen.old)
        (contains bytes_eq seen.new) fresh.items) }
{
    let mut fresh = Vec::new(alloc);
    let mut place = 0;
    while let Some(at) = groups.next(place) {
        add_new(alloc, links.roles_at(at), x, seen, &mut fresh)?;
        place = at + 1;
    }
    Ok(fresh)
}

// Adds those of the roles that are not the name and not seen yet.
fn add_new(
    alloc: Global,
    roles: &[Text],
    x: &[u8],
    seen: &mut IndexSet<Text>,
    fresh: &mut Vec<Text>,
) -> Result<(), NoMemory>
    ensures { OnOk result (Adds x.now roles.now (contains bytes_eq seen.old)
        (contains bytes_eq seen.new) fresh.old.items fresh.new.items) }
{
    for role in roles {
        add_one(alloc, role, x, seen, fresh)?;
    }
    Ok(())
}

/// Adds a role, unless it is the name or seen already.
pub(crate) fn add_one(
    alloc: Global,
    role: &Text,
    x: &[u8],
    seen: &mut IndexSet<Text>,
    fresh: &mut Vec<Text>,
) -> Result<(), NoMemory>
    ensures { OnOk result ((roles : List (List ℕ)) (before : List ℕ → Bool) (old : List (List ℕ))
        → Adds x.now roles before (contains bytes_eq seen.old) old fresh.old.items
        → Adds x.now (roles ++ role.now ∷ []) before (contains bytes_eq seen.new) old
        fresh.new.items) }
{
    if role.bytes() == x {
        return Ok(());
    }
    push_new(alloc, role, seen, fresh)?;
    Ok(())
}

// Adds a role, unless it is seen already.
fn push_new(
    alloc: Global,
    role: &Text,
    seen: &mut IndexSet<Text>,
    fresh: &mut Vec<Text>,
) -> Result<(), NoMemory>
    ensures seen { OnOk result ((name : List ℕ) → contains bytes_eq seen.new name
        ≡ (bytes_eq name role.now || contains bytes_eq seen.old name)) }
    ensures fresh { OnOk result (fresh.new.items ≡ (if contains bytes_eq seen.old role.now
        then fresh.old.items else fresh.old.items ++ role.now ∷ [])) }
{
    if seen.insert(Text::from_str(alloc, role.as_str())?)? {
        fresh.push(Text::from_str(alloc, role.as_str())?)?;
    }
    Ok(())
}

/// Puts texts into rising order.
pub(crate) fn sort(texts: &mut Vec<Text>) -> Result<(), NoMemory>
    ensures same { IsPermutation texts.old.items texts.new.items }
    ensures rising { OnOk result (IsSortedBy is_before texts.new.items) }
{
    Ok(texts.sort_by(
        |one: &Text, other: &Text| -> Ordering
            ensures { is_lt result ≡ is_before one.now other.now }
        { by_bytes(one, other) },
    )?)
}

// How two texts stand to each other by bytes.
fn by_bytes(one: &Text, other: &Text) -> Ordering
    ensures { is_lt result ≡ is_before one.now other.now }
{
    one.bytes().cmp(other.bytes())
}
