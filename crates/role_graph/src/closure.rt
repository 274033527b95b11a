//! The square of distances between the roles of a graph, after an edit.

ghost use Rattle.std.specs.Prelude.{◌≡◌, ◌+◌, ◌<◌, ◌≤◌, ℕ, [], IfOk, IsTrue, length};
ghost use Rattle.std.specs.List.{Contains};
ghost use Rattle.dist_rows.specs.Squares.{IsSquare, cleared, most_nodes, widened};
ghost use Rattle.role_graph.specs.Helps.Kept.{linked_of};
ghost use Rattle.role_graph.specs.Helps.Roles.{nodes_of};
ghost use Rattle.role_graph.specs.Helps.Squares.{AreNodes, Grows, IsBefore, IsBegun, IsClosed, IsExact, IsLinking, IsNear, IsNodeLink, name_at};

use crate::insertion::insert_link;
use crate::link_groups::LinkGroups;
use crate::repair::drop_gone;
use crate::roles::Roles;
use crate::room::{FEW_LINKED, FEW_ROLES, count_linked};
use crate::touched::{MOST_NODES, NodeMarks, nodes_from};
use dist_rows::DistRows;
use outside::{NoMemory, Text};
use std::alloc::Global;

/// Makes the square follow an edit that was made: `whole` tells that no role is gone, and `touched`
/// which nodes may have other links. No distances are kept where no role is below another, or few of many
/// roles are, or there is no room, as among more than 1,024 roles.
pub(crate) fn refresh(
    square: &mut DistRows,
    alloc: Global,
    links: &LinkGroups,
    roles: &Roles,
    whole: bool,
    touched: NodeMarks,
)
    requires nodes { AreNodes (linked_of links.now) (nodes_of roles.now) }
    requires before { IsTrue whole → 0 < length square.old.cells
        → length (nodes_of roles.now) ≤ most_nodes
        → IsBefore (linked_of links.now) (nodes_of roles.now) touched square.old.cells }
    ensures { 0 < length square.new.cells
        → IsExact (linked_of links.now) (nodes_of roles.now) square.new.cells }
{
    if is_flat(square, links, roles, &touched) {
        return;
    }
    if !has_room(square, roles) {
        *square = DistRows::empty(alloc);
        return;
    }
    follow(square, links, roles, whole, touched);
}

/// The square of the roles of a graph.
pub(crate) fn square_of(
    alloc: Global,
    links: &LinkGroups,
    roles: &Roles,
) -> Result<DistRows, NoMemory>
    requires { AreNodes (linked_of links.now) (nodes_of roles.now) }
    ensures { IfOk result (λ square. 0 < length square.cells
        → IsExact (linked_of links.now) (nodes_of roles.now) square.cells) }
{
    let mut square = DistRows::empty(alloc);
    if !are_kept(links, roles) {
        return Ok(square);
    }
    if roles.len() > MOST_NODES {
        return Ok(square);
    }
    square.reserve_node(roles.len() as u32)?;
    refresh(&mut square, alloc, links, roles, false, nodes_from(0));
    Ok(square)
}

// Whether no distances are kept, and none are to be.
fn is_flat(square: &DistRows, links: &LinkGroups, roles: &Roles, touched: &NodeMarks) -> bool
    ensures { IsTrue result → length square.now.cells ≡ 0 }
{
    square.size() == 0 && !gets_links(links, roles, touched)
}

// Whether a touched node has a link, and distances are to be kept. The tests that cost least are made first: most edits touch no node.
fn gets_links(links: &LinkGroups, roles: &Roles, touched: &NodeMarks) -> bool {
    roles.len() <= MOST_NODES
        && is_any_marked(roles, touched)
        && has_links(links, roles, touched)
        && are_kept(links, roles)
}

// Whether a role's node is marked.
fn is_any_marked(roles: &Roles, touched: &NodeMarks) -> bool {
    let nodes = roles.len().min(MOST_NODES);
    touched[..nodes].iter().any(|mark| *mark)
}

// Whether distances are to be kept: some role has links of its own, and either the roles are few, or those with links are not.
fn are_kept(links: &LinkGroups, roles: &Roles) -> bool {
    let linked = count_linked(links, roles);
    linked > 0 && (roles.len() <= FEW_ROLES || linked >= FEW_LINKED)
}

// Whether a touched node has a link.
fn has_links(links: &LinkGroups, roles: &Roles, touched: &NodeMarks) -> bool {
    for node in 0..roles.len().min(MOST_NODES) {
        if touched[node] && links.has_fitting(roles.name_at(node)) {
            return true;
        }
    }
    false
}

// Whether there is room for the distances between all roles.
fn has_room(square: &DistRows, roles: &Roles) -> bool
    ensures few { IsTrue result → length (nodes_of roles.now) ≤ most_nodes }
    ensures room { IsTrue result
        → length (nodes_of roles.now) ≤ length square.now.cells + square.now.spare }
{
    roles.len() <= square.room() as usize
}

// Makes the square follow, where there is room.
fn follow(square: &mut DistRows, links: &LinkGroups, roles: &Roles, whole: bool, touched: NodeMarks)
    requires nodes { AreNodes (linked_of links.now) (nodes_of roles.now) }
    requires few { length (nodes_of roles.now) ≤ most_nodes }
    requires before { IsTrue whole → 0 < length square.old.cells
        → IsBefore (linked_of links.now) (nodes_of roles.now) touched square.old.cells }
    requires room { length (nodes_of roles.now) ≤ length square.old.cells + square.old.spare }
    ensures { IsExact (linked_of links.now) (nodes_of roles.now) square.new.cells }
{
    let keeps = keeps_places(square, whole);
    let touched = begin(square, links, roles, keeps, touched);
    widen(square, roles.len() as u32);
    link_touched(square, links, roles, &touched);
}

// Whether there are distances of nodes that all keep their places.
fn keeps_places(square: &DistRows, whole: bool) -> bool
    ensures whole { IsTrue result → IsTrue whole }
    ensures some { IsTrue result → 0 < length square.now.cells }
{
    whole && square.size() > 0
}

// Takes out what is gone, where all nodes keep their places; else clears the square, and all nodes are
// touched.
fn begin(
    square: &mut DistRows,
    links: &LinkGroups,
    roles: &Roles,
    whole: bool,
    touched: NodeMarks,
) -> NodeMarks
    requires few { length (nodes_of roles.now) ≤ most_nodes }
    requires before { IsTrue whole
        → IsBefore (linked_of links.now) (nodes_of roles.now) touched square.old.cells }
    requires room { length (nodes_of roles.now) ≤ length square.old.cells + square.old.spare }
    ensures begun { IsBegun (linked_of links.now) (nodes_of roles.now) result
        square.new.cells }
    ensures room { length (nodes_of roles.now) ≤ length square.new.cells + square.new.spare }
{
    if whole {
        drop_gone(square, links, roles, &touched);
        return touched;
    }
    shrink(square, roles.len() as u32);
    clear(square);
    nodes_from(0)
}

// Takes the last nodes out, until there are no more than these.
fn shrink(square: &mut DistRows, most: u32)
    ensures few { length square.new.cells ≤ most }
    ensures room { most ≤ length square.old.cells + square.old.spare
        → most ≤ length square.new.cells + square.new.spare }
{
    'drop: while square.size() > most {
        square.drop_node(square.size() - 1);
    }
}

// Takes all links out.
fn clear(square: &mut DistRows)
    ensures long { length square.new.cells ≡ length square.old.cells }
    ensures spare { square.new.spare ≡ square.old.spare }
    ensures closed { IsClosed square.new.cells }
    ensures none { (a b : ℕ) → IsNear square.new.cells a b → a ≡ b }
{
    for node in 0..square.size() {
        clear_node(square, node);
    }
}

// Takes the links of a node out.
fn clear_node(square: &mut DistRows, node: u32)
    requires { node < length square.old.cells }
    ensures cells { square.new.cells ≡ cleared square.old.cells node }
    ensures spare { square.new.spare ≡ square.old.spare }
    ensures square { IsSquare square.new.cells }
{
    square.clear_row(node);
    let _size = square.size();
}

// Adds nodes without links, until there are as many as these.
fn widen(square: &mut DistRows, size: u32)
    requires closed { IsClosed square.old.cells }
    requires few { length square.old.cells ≤ size }
    requires room { size ≤ length square.old.cells + square.old.spare }
    ensures long { length square.new.cells ≡ size }
    ensures grows { Grows (λ a b. a ≡ b) square.old.cells square.new.cells }
{
    'add: while square.size() < size {
        add_node(square);
    }
}

// Adds a node without links.
fn add_node(square: &mut DistRows)
    requires { 0 < square.old.spare }
    ensures cells { square.new.cells ≡ widened square.old.cells }
    ensures spare { square.new.spare + 1 ≡ square.old.spare }
    ensures square { IsSquare square.new.cells }
{
    square.push_node();
    let _size = square.size();
}

// Puts the links of touched nodes in.
fn link_touched(square: &mut DistRows, links: &LinkGroups, roles: &Roles, touched: &NodeMarks)
    requires nodes { AreNodes (linked_of links.now) (nodes_of roles.now) }
    requires few { length (nodes_of roles.now) ≤ most_nodes }
    requires linking { IsLinking (linked_of links.now) (nodes_of roles.now) touched.now 0
        square.old.cells }
    ensures { IsExact (linked_of links.now) (nodes_of roles.now) square.new.cells }
{
    for node in 0..square.size() {
        if !touched[node as usize] {
            continue;
        }
        link_node(square, links, roles, node);
    }
}

// Puts the links of a node in.
fn link_node(square: &mut DistRows, links: &LinkGroups, roles: &Roles, node: u32)
    requires closed { IsClosed square.old.cells }
    requires long { length square.old.cells ≡ length (nodes_of roles.now) }
    requires few { length (nodes_of roles.now) ≤ most_nodes }
    requires node { node < length square.old.cells }
    ensures long { length square.new.cells ≡ length square.old.cells }
    ensures grows { Grows (λ a b. (a ≡ node) × IsNodeLink (linked_of links.now)
        (nodes_of roles.now) a b) square.old.cells square.new.cells }
    ensures whole { (b : ℕ) → b < length (nodes_of roles.now)
        → IsNodeLink (linked_of links.now) (nodes_of roles.now) node b
        → IsNear square.new.cells node b }
{
    let _few = links.len();
    let name = roles.name_at(node as usize);
    let mut place = 0;
    while let Some(at) = links.next_fitting(name, place) {
        link_names(square, roles, node, links.roles_at(at));
        place = at + 1;
    }
}

// Puts links from a node to those of names in.
fn link_names(square: &mut DistRows, roles: &Roles, node: u32, names: &[Text])
    requires closed { IsClosed square.old.cells }
    requires long { length square.old.cells ≡ length (nodes_of roles.now) }
    requires few { length (nodes_of roles.now) ≤ most_nodes }
    requires node { node < length square.old.cells }
    ensures long { length square.new.cells ≡ length square.old.cells }
    ensures grows { Grows (λ a b. (a ≡ node) × Contains names.now
        (name_at (nodes_of roles.now) b)) square.old.cells square.new.cells }
    ensures whole { (b : ℕ) → b < length (nodes_of roles.now)
        → Contains names.now (name_at (nodes_of roles.now) b)
        → IsNear square.new.cells node b }
{
    for name in names {
        link_name(square, roles, node, name.bytes());
    }
}

// Puts a link from a node to that of a name in.
fn link_name(square: &mut DistRows, roles: &Roles, node: u32, name: &[u8])
    requires closed { IsClosed square.old.cells }
    requires long { length square.old.cells ≡ length (nodes_of roles.now) }
    requires few { length (nodes_of roles.now) ≤ most_nodes }
    requires node { node < length square.old.cells }
    ensures long { length square.new.cells ≡ length square.old.cells }
    ensures grows { Grows (λ a b. (a ≡ node) × (name_at (nodes_of roles.now) b ≡ name.now))
        square.old.cells square.new.cells }
    ensures whole { (b : ℕ) → b < length (nodes_of roles.now)
        → name_at (nodes_of roles.now) b ≡ name.now
        → IsNear square.new.cells node b }
{
    let Some(to) = roles.place_of(name) else {
        return;
    };
    insert_link(square, node, to as u32);
}
