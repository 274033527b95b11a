ghost use Rattle.std.specs.Prelude.{◌≡◌, ◌+◌, ◌-◌, ◌<◌, ◌≤◌, [], IfOk, OnOk, length};
ghost use Rattle.dist_rows.specs.Squares.{IsSquare, are_within, cell_of, cleared, dropped, groups, most_nodes, relaxed, row_of, widened, with_cell};

use crate::columns::{drop_cells, push_cells};
use crate::copies::copy_all;
use crate::limits::mark_within;
use crate::relaxation;
use crate::room::{add_free, reserve_all};
use crate::rows::Row;
use crate::steps::Steps;
use outside::{NoMemory, Share};
use std::alloc::Global;
use std::marker::Model;
use std::sync::ledger::Ledger;

/// Distances between at most 1,024 nodes: a square of numbers 0 to 255, with a row and a column for each node. Contracts
/// see its cells, and how many nodes more it takes without memory. A square of n nodes takes about n * n bytes.
pub struct DistRows {
    alloc: Global,
    rows: Vec<Row>,
    // Rows without cells, for nodes to come.
    free: Vec<Row>,
}

// Written out, so that a caller's proof sees one call and not the drop of each field.
impl Drop for DistRows {
    fn drop(self) {
        let DistRows {
            alloc: _alloc,
            rows: _rows,
            free: _free,
        } = self;
    }
}

impl Model for DistRows {
    ghost use Rattle.std.specs.Prelude.{length, vec_capacity};
    ghost use Rattle.dist_rows.specs.Helps.Rows.{IsKept, cells_of};
    ghost use Rattle.dist_rows.specs.Squares.{Square};

    ghost Value = { Square };

    ghost view = { λ d. record { cells = cells_of d.rows.items; spare = length d.free.items } };

    ghost invariant = { λ d. IsKept d.rows.items d.free.items (vec_capacity d.rows) };
}

impl DistRows {
    /// No nodes. It takes no memory.
    pub fn empty(alloc: Global) -> DistRows
        ensures { result ≡ record { cells = []; spare = 0 } }
    {
        DistRows {
            alloc,
            rows: Vec::new(alloc),
            free: Vec::new(alloc),
        }
    }

    /// The same distances once more, with room for no further node.
    pub fn copy(&self, alloc: Global) -> Result<DistRows, NoMemory>
        ensures { IfOk result (λ copy. copy.cells ≡ self.now.cells) }
    {
        let rows = copy_all(alloc, &self.rows)?;
        let free = Vec::new(alloc);
        Ok(DistRows { alloc, rows, free })
    }

    /// How many nodes there are.
    pub fn size(&self) -> u32
        ensures value { result ≡ length self.now.cells }
        ensures few { result + self.now.spare ≤ most_nodes }
        ensures square { IsSquare self.now.cells }
    {
        self.rows.len() as u32
    }

    /// For how many nodes there is room in all.
    pub fn room(&self) -> u32
        ensures value { result ≡ length self.now.cells + self.now.spare }
        ensures few { result ≤ most_nodes }
    {
        (self.rows.len() + self.free.len()) as u32
    }

    /// Makes room for so many nodes more. On want of memory the square stays, and so does the room.
    pub fn reserve_node(&mut self, count: u32) -> Result<(), NoMemory>
        requires { length self.old.cells + count ≤ most_nodes }
        ensures cells { self.new.cells ≡ self.old.cells }
        ensures more { self.old.spare ≤ self.new.spare }
        ensures room { OnOk result (count ≤ self.new.spare) }
    {
        let count = count as usize;
        let total = self.rows.len() + count.max(self.free.len());
        self.rows.reserve(count)?;
        reserve_all(&mut self.rows, total)?;
        reserve_all(&mut self.free, total)?;
        add_free(&mut self.free, self.alloc, count, total)
    }

    /// Adds a node behind the others, at a distance of 255 from each and of 0 from itself. It takes no memory.
    pub fn push_node(&mut self)
        requires { 0 < self.old.spare }
        ensures { self.new ≡ record {
          cells = widened self.old.cells;
          spare = self.old.spare - 1;
        } }
    {
        let size = self.rows.len();
        push_cells(&mut self.rows);
        let Some(mut row) = self.free.pop() else {
            unreachable!()
        };
        row.open(size);
        self.rows.push_reserved(row);
    }

    /// Takes a node out; the last one gets its place. It takes no memory.
    pub fn drop_node(&mut self, at: u32)
        requires { at < length self.old.cells }
        ensures { self.new ≡ record self.old { cells = dropped at self.old.cells } }
    {
        let at = at as usize;
        let _row = self.rows.swap_remove(at);
        drop_cells(&mut self.rows, at);
    }

    /// The distance from one node to another. It takes a step.
    #[inline]
    pub fn cell<L: Ledger>(&self, a: u32, b: u32, steps: &mut Steps<L>) -> u8
        requires a { a < length self.now.cells }
        requires b { b < length self.now.cells }
        ensures cell { result ≡ cell_of self.now.cells a b }
        ensures steps { steps.new ≡ steps.old + 1 }
    {
        steps.tick();
        self.rows[a as usize].cell(b as usize)
    }

    /// Puts a distance in the place of that from one node to another.
    #[inline]
    pub fn set_cell(&mut self, a: u32, b: u32, value: u8)
        requires a { a < length self.old.cells }
        requires b { b < length self.old.cells }
        ensures { self.new ≡ record self.old { cells = with_cell self.old.cells a b value } }
    {
        self.rows[a as usize].set(b as usize, value);
    }

    /// Puts 255 in the place of all distances from a node, and 0 for that to itself.
    pub fn clear_row(&mut self, a: u32)
        requires { a < length self.old.cells }
        ensures { self.new ≡ record self.old { cells = cleared self.old.cells a } }
    {
        self.rows[a as usize].clear(a as usize);
    }

    /// Lowers each distance from the node `a` to the sum of `add` and that from the node `v`, where this is less; a sum
    /// past 254 is 255. The two may be one. It takes a step for each 32 nodes, or part of 32.
    pub fn relax<L: Ledger>(&mut self, a: u32, add: u8, v: u32, steps: &mut Steps<L>)
        requires a { a < length self.old.cells }
        requires v { v < length self.old.cells }
        ensures cells { self.new ≡ record self.old { cells = relaxed self.old.cells a add v } }
        ensures steps { steps.new ≡ steps.old + groups (length self.old.cells) }
    {
        relaxation::relax(&mut self.rows, a as usize, add, v as usize, steps);
    }

    /// Tells of each node whether its distance from the node `a` is at most the limit.
    pub fn within(&self, a: u32, limit: u8, out: &mut [bool])
        requires a { a < length self.now.cells }
        requires size { length out.old ≡ length self.now.cells }
        ensures { out.new ≡ are_within limit (row_of self.now.cells a) }
    {
        mark_within(self.rows[a as usize].as_slice(), limit, out);
    }
}

impl Share for DistRows {}
