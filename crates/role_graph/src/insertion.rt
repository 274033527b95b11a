//! Links that are put into a square, which keeps the least number of links from node to node.

ghost use Rattle.std.specs.Prelude.{◌≡◌, ◌≢◌, ◌<◌, ◌≤◌, ◌+◌, ℕ, length, min};
ghost use Rattle.dist_rows.specs.Squares.{IsSquare, cell_of, relaxed, sum_of};
ghost use Rattle.role_graph.specs.Helps.Squares.{Grows, IsClosed, IsNear};

use crate::asked::TOO_FAR;
use dist_rows::{DistRows, Steps};
use std::marker::Brand;
use std::sync::ledger::{Blank, Ledger};

/// Puts a link into the square: each node from which the link can be reached is nearer now to those
/// behind it.
pub(crate) fn insert_link(square: &mut DistRows, from: u32, to: u32)
    requires closed { IsClosed square.old.cells }
    requires from { from < length square.old.cells }
    requires to { to < length square.old.cells }
    ensures long { length square.new.cells ≡ length square.old.cells }
    ensures near { IsNear square.new.cells from to }
    ensures grows { Grows (λ a b. (a ≡ from) × (b ≡ to)) square.old.cells square.new.cells }
{
    if distance(square, from, to) <= 1 {
        return;
    }
    lower_all(square, from, to);
}

// Lowers each row by way of the link.
fn lower_all(square: &mut DistRows, from: u32, to: u32)
    requires closed { IsClosed square.old.cells }
    requires from { from < length square.old.cells }
    requires to { to < length square.old.cells }
    ensures long { length square.new.cells ≡ length square.old.cells }
    ensures square { IsSquare square.new.cells }
    ensures cells { (a b : ℕ) → a < length square.old.cells → b < length square.old.cells
        → cell_of square.new.cells a b ≡ min (cell_of square.old.cells a b)
        (sum_of (1 + cell_of square.old.cells a from) (cell_of square.old.cells to b)) }
{
    for node in 0..square.size() {
        lower_row(square, node, from, to);
    }
}

// Lowers the row of a node by way of the link, where the node reaches it.
fn lower_row(square: &mut DistRows, node: u32, from: u32, to: u32)
    requires square { IsSquare square.old.cells }
    requires node { node < length square.old.cells }
    requires from { from < length square.old.cells }
    requires to { to < length square.old.cells }
    requires small { (b : ℕ) → b < length square.old.cells
        → cell_of square.old.cells node b ≤ 255 }
    ensures long { length square.new.cells ≡ length square.old.cells }
    ensures square { IsSquare square.new.cells }
    ensures own { (b : ℕ) → b < length square.old.cells → cell_of square.new.cells node b
        ≡ min (cell_of square.old.cells node b)
        (sum_of (1 + cell_of square.old.cells node from) (cell_of square.old.cells to b)) }
    ensures others { (a b : ℕ) → a ≢ node
        → cell_of square.new.cells a b ≡ cell_of square.old.cells a b }
{
    let near = distance(square, node, from);
    if near == TOO_FAR {
        return;
    }
    relax(square, node, near + 1, to);
}

/// The distance from the one node to the other; no step is counted.
pub(crate) fn distance(square: &DistRows, a: u32, b: u32) -> u8
    requires a { a < length square.now.cells }
    requires b { b < length square.now.cells }
    ensures cell { result ≡ cell_of square.now.cells a b }
{
    counted_distance::<Brand>(square, a, b, Blank::new(1))
}

// The same, with a counter that is thrown away.
fn counted_distance<L: Ledger>(square: &DistRows, a: u32, b: u32, blank: Blank) -> u8
    requires name { blank.name ≡ L.name }
    requires parts { blank.parts ≡ L.parts }
    requires some { 0 < L.parts }
    requires a { a < length square.now.cells }
    requires b { b < length square.now.cells }
    ensures { result ≡ cell_of square.now.cells a b }
{
    let mut steps = Steps::<L>::new(blank);
    square.cell(a, b, &mut steps)
}

/// Lowers the row of a node by that of another; no step is counted.
pub(crate) fn relax(square: &mut DistRows, a: u32, add: u8, v: u32)
    requires a { a < length square.old.cells }
    requires v { v < length square.old.cells }
    ensures cells { square.new.cells ≡ relaxed square.old.cells a add v }
    ensures spare { square.new.spare ≡ square.old.spare }
    ensures square { IsSquare square.new.cells }
{
    counted_relax::<Brand>(square, a, add, v, Blank::new(1))
}

// The same, with a counter that is thrown away.
fn counted_relax<L: Ledger>(square: &mut DistRows, a: u32, add: u8, v: u32, blank: Blank)
    requires name { blank.name ≡ L.name }
    requires parts { blank.parts ≡ L.parts }
    requires some { 0 < L.parts }
    requires a { a < length square.old.cells }
    requires v { v < length square.old.cells }
    ensures cells { square.new.cells ≡ relaxed square.old.cells a add v }
    ensures spare { square.new.spare ≡ square.old.spare }
    ensures square { IsSquare square.new.cells }
{
    let mut steps = Steps::<L>::new(blank);
    square.relax(a, add, v, &mut steps);
    let _size = square.size();
}
