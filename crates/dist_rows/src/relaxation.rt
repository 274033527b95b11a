//! Rows that are lowered by sums by way of another row.
ghost use Rattle.std.specs.Prelude.{◌≡◌, ◌+◌, ◌<◌, ◌≤◌, List, length};
ghost use Rattle.dist_rows.specs.Helps.Rows.{AreRows, RowSeen, relaxed_to};
ghost use Rattle.dist_rows.specs.Squares.{groups};

use crate::lanes::LANES;
use crate::rows::Row;
use crate::steps::Steps;
use std::sync::ledger::Ledger;

/// Lowers each cell of a row by its sum by way of another row, which may be the same, and takes a step for each group.
pub(crate) fn relax<L: Ledger>(rows: &mut [Row], a: usize, add: u8, v: usize, steps: &mut Steps<L>)
    requires a { a < length rows.old }
    requires v { v < length rows.old }
    requires square { AreRows (length rows.old) 0 rows.old }
    ensures rows { rows.new ≡ relaxed_to (length rows.old) rows.old a add v }
    ensures steps { steps.new ≡ steps.old + groups (length rows.old) }
{
    let size = rows.len();
    for group in 0..size / LANES {
        relax_group(rows, a, add, v, group * LANES);
        steps.tick();
    }
    let whole = size / LANES * LANES;
    if whole < size {
        relax_rest(rows, a, add, v, whole);
        steps.tick();
    }
}

// The same for a group, behind the cells that were lowered.
fn relax_group(rows: &mut [Row], a: usize, add: u8, v: usize, at: usize)
    requires a { a < length rows.old }
    requires v { v < length rows.old }
    requires square { AreRows (length rows.old) 0 rows.old }
    requires at { at + LANES ≤ length rows.old }
    ensures square { AreRows (length rows.old) 0 rows.new }
    ensures relaxed { (old : List RowSeen) → AreRows (length old) 0 old → a < length old
        → rows.old ≡ relaxed_to at old a add v → rows.new ≡ relaxed_to (at + LANES) old a add v }
{
    let others = rows[v].lanes(at);
    rows[a].lower_lanes(at, add, others);
}

// The same for each cell behind those that were lowered.
fn relax_rest(rows: &mut [Row], a: usize, add: u8, v: usize, at: usize)
    requires a { a < length rows.old }
    requires v { v < length rows.old }
    requires square { AreRows (length rows.old) 0 rows.old }
    requires at { at ≤ length rows.old }
    ensures relaxed { (old : List RowSeen) → AreRows (length old) 0 old → a < length old
        → rows.old ≡ relaxed_to at old a add v
        → rows.new ≡ relaxed_to (length rows.old) old a add v }
{
    for b in at..rows.len() {
        relax_cell(rows, a, add, v, b);
    }
}

// The same for one cell.
fn relax_cell(rows: &mut [Row], a: usize, add: u8, v: usize, at: usize)
    requires a { a < length rows.old }
    requires v { v < length rows.old }
    requires square { AreRows (length rows.old) 0 rows.old }
    requires at { at < length rows.old }
    ensures square { AreRows (length rows.old) 0 rows.new }
    ensures relaxed { (old : List RowSeen) → AreRows (length old) 0 old → a < length old
        → rows.old ≡ relaxed_to at old a add v → rows.new ≡ relaxed_to (at + 1) old a add v }
{
    let other = rows[v].cell(at);
    rows[a].lower(at, add, other);
}
