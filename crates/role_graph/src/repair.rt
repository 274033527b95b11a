//! Links that are taken out of a square: the distances that went by them are found anew.

ghost use Rattle.std.specs.Prelude.{◌≡◌, ◌≢◌, ◌⊎◌, ◌+◌, ◌<◌, ◌≤◌, ℕ, Bool, List, false, get_or, length, min, true};
ghost use Rattle.dist_rows.specs.Squares.{IsSquare, cell_of, most_nodes, sum_of, with_cell};
ghost use Rattle.role_graph.specs.Helps.Kept.{linked_of};
ghost use Rattle.role_graph.specs.Helps.Mended.{AreHit, AreLeft, AreTold, IsKept, IsMending, IsReset, IsStable, IsStableAt};
ghost use Rattle.role_graph.specs.Helps.Roles.{nodes_of};
ghost use Rattle.role_graph.specs.Helps.Squares.{IsBefore, IsBegun, IsClosed, IsMarked, IsNear, IsNodeLink};
ghost use Rattle.role_graph.specs.Helps.Walks.{Linked};

use crate::asked::TOO_FAR;
use crate::insertion::{distance, relax};
use crate::link_groups::LinkGroups;
use crate::linked_nodes::linked_nodes;
use crate::roles::Roles;
use crate::touched::{MOST_NODES, NodeMarks, no_nodes, nodes_from};
use dist_rows::DistRows;

/// The number of levels that tell the greatest distance.
const LEVELS: u32 = 254;

/// The distances from one node, by the places of the others.
type Distances = [u8; MOST_NODES];

/// Takes the links of touched nodes out of the square that are none of the graph any more. Its time
/// grows with the links of these nodes, and with the rows of the nodes from which a shortest way went
/// by one that is gone.
pub(crate) fn drop_gone(
    square: &mut DistRows,
    links: &LinkGroups,
    roles: &Roles,
    touched: &NodeMarks,
)
    requires few { length (nodes_of roles.now) ≤ most_nodes }
    requires before { IsBefore (linked_of links.now) (nodes_of roles.now) touched.now
        square.old.cells }
    ensures begun { IsBegun (linked_of links.now) (nodes_of roles.now) touched.now
        square.new.cells }
    ensures long { length square.new.cells ≡ length square.old.cells }
    ensures spare { square.new.spare ≡ square.old.spare }
{
    let hits = hit_nodes(square, links, roles, touched);
    reset(square, links, roles, touched, &hits);
    mend(square, &hits);
}

// The nodes from which a shortest way goes by a link that is gone.
fn hit_nodes(square: &DistRows, links: &LinkGroups, roles: &Roles, touched: &NodeMarks) -> NodeMarks
    requires few { length (nodes_of roles.now) ≤ most_nodes }
    requires before { IsBefore (linked_of links.now) (nodes_of roles.now) touched.now
        square.now.cells }
    ensures { AreHit (linked_of links.now) (nodes_of roles.now) square.now.cells result }
{
    let mut hits = no_nodes();
    for node in 0..square.size() {
        if !touched[node as usize] {
            continue;
        }
        hit_by_node(square, links, roles, node, &mut hits);
    }
    hits
}

// Marks also those from which one goes by a link of this node that is gone.
fn hit_by_node(
    square: &DistRows,
    links: &LinkGroups,
    roles: &Roles,
    node: u32,
    hits: &mut NodeMarks,
)
    requires closed { IsClosed square.now.cells }
    requires few { length (nodes_of roles.now) ≤ most_nodes }
    requires long { length square.now.cells ≤ length (nodes_of roles.now) }
    requires node { node < length square.now.cells }
    ensures keeps { (a : ℕ) → IsMarked hits.old a → IsMarked hits.new a }
    ensures hits { (a to : ℕ) → a < length square.now.cells → IsNear square.now.cells node to
        → cell_of square.now.cells a to ≡ 1 + cell_of square.now.cells a node
        → IsKept (linked_of links.now) (nodes_of roles.now) square.now.cells node to
        ⊎ IsMarked hits.new a }
{
    let linked = linked_nodes(links, roles, node);
    for other in 0..square.size() {
        if distance(square, node, other) != 1 {
            continue;
        }
        if linked[other as usize] {
            continue;
        }
        hit_through(square, node, other, hits);
    }
}

// Marks also the nodes from which a shortest way goes by a link.
fn hit_through(square: &DistRows, from: u32, to: u32, hits: &mut NodeMarks)
    requires from { from < length square.now.cells }
    requires to { to < length square.now.cells }
    ensures keeps { (a : ℕ) → IsMarked hits.old a → IsMarked hits.new a }
    ensures hits { (a : ℕ) → a < length square.now.cells
        → cell_of square.now.cells a to ≡ 1 + cell_of square.now.cells a from
        → IsMarked hits.new a }
{
    for node in 0..square.size() {
        if !is_next(distance(square, node, from), distance(square, node, to)) {
            continue;
        }
        hits[node as usize] = true;
    }
}

// Whether a distance is one more than another.
fn is_next(before: u8, far: u8) -> bool
    ensures { result ≡ false → far ≡ 1 + before → ⊥ }
{
    before < TOO_FAR && far == before + 1
}

// Lets the rows of marked nodes tell no more than what is kept.
fn reset(
    square: &mut DistRows,
    links: &LinkGroups,
    roles: &Roles,
    touched: &NodeMarks,
    hits: &NodeMarks,
)
    requires few { length (nodes_of roles.now) ≤ most_nodes }
    requires before { IsBefore (linked_of links.now) (nodes_of roles.now) touched.now
        square.old.cells }
    requires hits { AreHit (linked_of links.now) (nodes_of roles.now) square.old.cells hits.now }
    ensures mending { IsMending (linked_of links.now) (nodes_of roles.now) square.old.cells
        hits.now square.new.cells }
    ensures spare { square.new.spare ≡ square.old.spare }
{
    for node in 0..square.size() {
        if !hits[node as usize] {
            continue;
        }
        reset_row(square, links, roles, touched, node);
    }
}

// The same for the row of one node.
fn reset_row(
    square: &mut DistRows,
    links: &LinkGroups,
    roles: &Roles,
    touched: &NodeMarks,
    node: u32,
)
    requires few { length (nodes_of roles.now) ≤ most_nodes }
    requires long { length square.old.cells ≤ length (nodes_of roles.now) }
    requires node { node < length square.old.cells }
    ensures long { length square.new.cells ≡ length square.old.cells }
    ensures square { IsSquare square.new.cells }
    ensures spare { square.new.spare ≡ square.old.spare }
    ensures others { (a b : ℕ) → a ≢ node
        → cell_of square.new.cells a b ≡ cell_of square.old.cells a b }
    ensures reset { (old : List (List ℕ))
        → ((b : ℕ) → cell_of square.old.cells node b ≡ cell_of old node b)
        → length square.old.cells ≡ length old
        → IsBefore (linked_of links.now) (nodes_of roles.now) touched.now old
        → IsReset (linked_of links.now) (nodes_of roles.now) old node (length old)
        square.new.cells }
{
    let left = left_nodes(links, roles, touched, node);
    for other in 0..square.size() {
        if stays(square, &left, node, other) {
            continue;
        }
        write(square, node, other, TOO_FAR);
    }
    let _size = square.size();
}

// Which of the nodes that are a link away from a node it keeps: all where it is not touched, else those
// to which a row links it still.
fn left_nodes(links: &LinkGroups, roles: &Roles, touched: &NodeMarks, node: u32) -> NodeMarks
    requires few { length (nodes_of roles.now) ≤ most_nodes }
    requires node { node < length (nodes_of roles.now) }
    ensures { (old : List (List ℕ)) → node < length old
        → IsBefore (linked_of links.now) (nodes_of roles.now) touched.now old
        → AreLeft (linked_of links.now) (nodes_of roles.now) old node result }
{
    if !touched[node as usize] {
        return nodes_from(0);
    }
    linked_nodes(links, roles, node)
}

// Whether two nodes are the same, or a link away from each other that is left.
fn stays(square: &DistRows, left: &NodeMarks, node: u32, other: u32) -> bool
    requires few { length square.now.cells ≤ most_nodes }
    requires node { node < length square.now.cells }
    requires other { other < length square.now.cells }
    ensures kept { (linked : Linked) (names old : List (List ℕ)) → result ≡ true
        → cell_of square.now.cells node other ≡ cell_of old node other
        → length square.now.cells ≡ length old → IsClosed old
        → AreLeft linked names old node left.now → IsKept linked names old node other }
    ensures gone { (linked : Linked) (names old : List (List ℕ)) → result ≡ false
        → cell_of square.now.cells node other ≡ cell_of old node other
        → length square.now.cells ≡ length old → IsClosed old
        → AreLeft linked names old node left.now → ¬ IsKept linked names old node other }
{
    let far = distance(square, node, other);
    if far != 1 {
        return far == 0;
    }
    left[other as usize]
}

// Puts a distance in the place of another.
fn write(square: &mut DistRows, a: u32, b: u32, far: u8)
    requires a { a < length square.old.cells }
    requires b { b < length square.old.cells }
    ensures cells { square.new.cells ≡ with_cell square.old.cells a b far }
    ensures spare { square.new.spare ≡ square.old.spare }
    ensures square { IsSquare square.new.cells }
{
    square.set_cell(a, b, far);
    let _size = square.size();
}

// Lowers the rows of marked nodes by way of what is near, until no distance becomes lower. Whether one
// does is told before twice as many levels each time.
fn mend(square: &mut DistRows, hits: &NodeMarks)
    ensures mending { (linked : Linked) (names old : List (List ℕ))
        → IsMending linked names old hits.now square.old.cells
        → IsMending linked names old hits.now square.new.cells }
    ensures told { (linked : Linked) (names old : List (List ℕ))
        → IsMending linked names old hits.now square.old.cells
        → AreTold linked names old 254 square.new.cells }
    ensures spare { square.new.spare ≡ square.old.spare }
{
    let mut level = 1;
    'more: while level < LEVELS {
        if mends_none(square, hits) {
            return;
        }
        mend_levels(square, hits, level);
        level *= 2;
    }
}

// Lowers the rows of marked nodes up to the first that becomes lower, and tells whether none does.
fn mends_none(square: &mut DistRows, hits: &NodeMarks) -> bool
    ensures mending { (linked : Linked) (names old : List (List ℕ))
        → IsMending linked names old hits.now square.old.cells
        → IsMending linked names old hits.now square.new.cells }
    ensures lower { (a b : ℕ) → a < length square.old.cells → b < length square.old.cells
        → cell_of square.new.cells a b ≤ cell_of square.old.cells a b }
    ensures stable { result ≡ true → IsStable hits.now square.new.cells }
    ensures spare { square.new.spare ≡ square.old.spare }
{
    for node in 0..square.size() {
        if !hits[node as usize] {
            continue;
        }
        if mends_row(square, node) {
            return false;
        }
    }
    true
}

// Lowers the row of a node by way of those that are a link away, and tells whether it becomes lower.
fn mends_row(square: &mut DistRows, node: u32) -> bool
    requires { node < length square.old.cells }
    ensures mending { (linked : Linked) (names old : List (List ℕ)) (hits : List Bool)
        → IsMarked hits node → IsMending linked names old hits square.old.cells
        → IsMending linked names old hits square.new.cells }
    ensures lower { (a b : ℕ) → a < length square.old.cells → b < length square.old.cells
        → cell_of square.new.cells a b ≤ cell_of square.old.cells a b }
    ensures same { result ≡ false → (a b : ℕ) → b < length square.old.cells
        → cell_of square.new.cells a b ≡ cell_of square.old.cells a b }
    ensures stable { result ≡ false → IsStableAt square.old.cells node }
    ensures long { length square.new.cells ≡ length square.old.cells }
    ensures spare { square.new.spare ≡ square.old.spare }
{
    let before = distances_from(square, node);
    mend_row(square, node);
    differs(square, node, &before)
}

// The distances from a node.
fn distances_from(square: &DistRows, node: u32) -> Distances
    requires { node < length square.now.cells }
    ensures { (b : ℕ) → b < length square.now.cells
        → get_or result b 0 ≡ cell_of square.now.cells node b }
{
    let mut row = [TOO_FAR; MOST_NODES];
    for other in 0..square.size() {
        row[other as usize] = distance(square, node, other);
    }
    row
}

// Whether some distance from a node is another than before.
fn differs(square: &DistRows, node: u32, before: &Distances) -> bool
    requires { node < length square.now.cells }
    ensures { result ≡ false → (b : ℕ) → b < length square.now.cells
        → cell_of square.now.cells node b ≡ get_or before.now b 0 }
{
    for other in 0..square.size() {
        let far = distance(square, node, other);
        let was = before[other as usize];
        if far != was {
            return true;
        }
    }
    false
}

// Lowers the rows of marked nodes so many times.
fn mend_levels(square: &mut DistRows, hits: &NodeMarks, levels: u32)
    ensures mending { (linked : Linked) (names old : List (List ℕ))
        → IsMending linked names old hits.now square.old.cells
        → IsMending linked names old hits.now square.new.cells }
    ensures told { (linked : Linked) (names old : List (List ℕ)) (most : ℕ)
        → IsMending linked names old hits.now square.old.cells
        → AreTold linked names old most square.old.cells
        → AreTold linked names old (most + levels) square.new.cells }
    ensures spare { square.new.spare ≡ square.old.spare }
{
    for _level in 0..levels {
        mend_all(square, hits);
    }
}

// Lowers them once.
fn mend_all(square: &mut DistRows, hits: &NodeMarks)
    ensures mending { (linked : Linked) (names old : List (List ℕ))
        → IsMending linked names old hits.now square.old.cells
        → IsMending linked names old hits.now square.new.cells }
    ensures told { (linked : Linked) (names old : List (List ℕ)) (most : ℕ)
        → IsMending linked names old hits.now square.old.cells
        → AreTold linked names old most square.old.cells
        → AreTold linked names old (most + 1) square.new.cells }
    ensures spare { square.new.spare ≡ square.old.spare }
{
    for node in 0..square.size() {
        if !hits[node as usize] {
            continue;
        }
        mend_row(square, node);
    }
}

// Lowers the row of a node by way of those that are a link away.
fn mend_row(square: &mut DistRows, node: u32)
    requires { node < length square.old.cells }
    ensures mending { (linked : Linked) (names old : List (List ℕ)) (hits : List Bool)
        → IsMarked hits node → IsMending linked names old hits square.old.cells
        → IsMending linked names old hits square.new.cells }
    ensures lower { (a b : ℕ) → a < length square.old.cells → b < length square.old.cells
        → cell_of square.new.cells a b ≤ cell_of square.old.cells a b }
    ensures others { (a b : ℕ) → a ≢ node
        → cell_of square.new.cells a b ≡ cell_of square.old.cells a b }
    ensures stable { ((b : ℕ) → b < length square.old.cells
        → cell_of square.new.cells node b ≡ cell_of square.old.cells node b)
        → IsStableAt square.old.cells node }
    ensures by { (linked : Linked) (names old : List (List ℕ)) (hits : List Bool)
        → IsMarked hits node → IsMending linked names old hits square.old.cells
        → (next b : ℕ) → IsKept linked names old node next → node ≢ next
        → b < length square.old.cells → cell_of square.new.cells node b
        ≤ sum_of 1 (cell_of square.old.cells next b) }
    ensures long { length square.new.cells ≡ length square.old.cells }
    ensures spare { square.new.spare ≡ square.old.spare }
{
    for next in 0..square.size() {
        if distance(square, node, next) != 1 {
            continue;
        }
        mend_by(square, node, next);
    }
}

// Lowers the row of a node by way of another, which is a link away.
fn mend_by(square: &mut DistRows, node: u32, next: u32)
    requires node { node < length square.old.cells }
    requires next { next < length square.old.cells }
    ensures cells { (b : ℕ) → b < length square.old.cells → cell_of square.new.cells node b
        ≡ min (cell_of square.old.cells node b) (sum_of 1 (cell_of square.old.cells next b)) }
    ensures others { (a b : ℕ) → a ≢ node
        → cell_of square.new.cells a b ≡ cell_of square.old.cells a b }
    ensures long { length square.new.cells ≡ length square.old.cells }
    ensures square { IsSquare square.new.cells }
    ensures spare { square.new.spare ≡ square.old.spare }
{
    let _size = square.size();
    relax(square, node, 1, next);
}
