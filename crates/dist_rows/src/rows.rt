ghost use Rattle.std.specs.Prelude.{◌≡◌, ◌+◌, ◌<◌, ◌≤◌, [], ◌∷◌, ◌++◌, IfOk, OnOk, length, min, replicate, slice_index, slice_set};
ghost use Rattle.std.specs.Simd.Lanes.{chunk, put_chunk};
ghost use Rattle.dist_rows.specs.Helps.Rows.{with_last, without_cell};
ghost use Rattle.dist_rows.specs.Squares.{lowered, sum_of};

use crate::lanes;
use crate::lanes::LANES;
use outside::{NoMemory, Share};
use std::alloc::Global;
use std::marker::Model;
use std::simd::prelude::*;

/// A row of distances. Contracts see its cells, and how many it has room for in all.
#[derive(Drop)]
pub(crate) struct Row {
    cells: Vec<u8>,
}

impl Model for Row {
    ghost use Rattle.std.specs.Prelude.{vec_capacity};
    ghost use Rattle.dist_rows.specs.Helps.Rows.{RowSeen};

    ghost Value = { RowSeen };

    ghost view = { λ r. record { cells = r.cells.items; room = vec_capacity r.cells } };
}

impl Row {
    /// A row without cells, with room for so many.
    pub(crate) fn with_room(alloc: Global, room: usize) -> Result<Row, NoMemory>
        ensures none { IfOk result (λ row. row.cells ≡ []) }
        ensures room { IfOk result (λ row. room ≤ row.room) }
    {
        Ok(Row {
            cells: Vec::with_capacity(alloc, room)?,
        })
    }

    /// Makes room for so many cells in all, and for no more.
    pub(crate) fn reserve(&mut self, room: usize) -> Result<(), NoMemory>
        ensures cells { self.new.cells ≡ self.old.cells }
        ensures more { self.old.room ≤ self.new.room }
        ensures room { OnOk result (room ≤ self.new.room) }
    {
        let more = room.saturating_sub(self.cells.len());
        Ok(self.cells.reserve_exact(more)?)
    }

    /// The same cells once more, with room for no more.
    pub(crate) fn copy(&self, alloc: Global) -> Result<Row, NoMemory>
        ensures cells { IfOk result (λ copy. copy.cells ≡ self.now.cells) }
        ensures room { IfOk result (λ copy. length self.now.cells ≤ copy.room) }
    {
        Ok(Row {
            cells: Vec::from_slice(alloc, &self.cells)?,
        })
    }

    pub(crate) fn as_slice(&self) -> &[u8]
        ensures { result.now ≡ self.now.cells }
    {
        &self.cells
    }

    #[inline(always)]
    pub(crate) fn cell(&self, at: usize) -> u8
        requires { at < length self.now.cells }
        ensures { result ≡ slice_index self.now.cells at }
    {
        self.cells[at]
    }

    /// Puts a cell behind the others.
    pub(crate) fn push(&mut self, value: u8)
        requires { length self.old.cells < self.old.room }
        ensures { self.new ≡ with_last value self.old }
    {
        self.cells.push_reserved(value);
    }

    /// Puts the cells of a new node into a row without cells: 255 for each of the others, and 0 for its own.
    pub(crate) fn open(&mut self, others: usize)
        requires none { self.old.cells ≡ [] }
        requires room { others < self.old.room }
        ensures { self.new ≡ record self.old { cells = replicate others 255 ++ 0 ∷ [] } }
    {
        for _ in 0..others {
            self.push(255);
        }
        self.push(0);
    }

    /// Puts the last cell in the place of one.
    pub(crate) fn swap_remove(&mut self, at: usize)
        requires { at < length self.old.cells }
        ensures { self.new ≡ without_cell at self.old }
    {
        let _cell = self.cells.swap_remove(at);
    }

    pub(crate) fn set(&mut self, at: usize, value: u8)
        requires { at < length self.old.cells }
        ensures { self.new ≡ record self.old { cells = slice_set self.old.cells at value } }
    {
        self.cells[at] = value;
    }

    /// Leaves no distance but that to its own node.
    pub(crate) fn clear(&mut self, own: usize)
        requires { own < length self.old.cells }
        ensures { self.new ≡ record self.old {
          cells = slice_set (replicate (length self.old.cells) 255) own 0;
        } }
    {
        self.cells.fill(255);
        self.cells[own] = 0;
    }

    #[inline(always)]
    pub(crate) fn lanes(&self, at: usize) -> u8x32
        requires { at + LANES ≤ length self.now.cells }
        ensures { result ≡ chunk at LANES self.now.cells }
    {
        lanes::load(&self.cells, at)
    }

    /// Lowers a group of cells by sums with others.
    #[inline(always)]
    pub(crate) fn lower_lanes(&mut self, at: usize, add: u8, others: u8x32)
        requires { at + LANES ≤ length self.old.cells }
        ensures { self.new ≡ record self.old {
          cells = put_chunk at self.old.cells
              (lowered add (chunk at LANES self.old.cells) others);
        } }
    {
        lanes::lower(&mut self.cells, at, add, others);
    }

    /// Lowers a cell by a sum with another.
    #[inline(always)]
    pub(crate) fn lower(&mut self, at: usize, add: u8, other: u8)
        requires { at < length self.old.cells }
        ensures { self.new ≡ record self.old {
          cells = slice_set self.old.cells at
              (min (slice_index self.old.cells at) (sum_of add other));
        } }
    {
        let sum = add.saturating_add(other);
        self.cells[at] = self.cells[at].min(sum);
    }
}

impl Share for Row {}
