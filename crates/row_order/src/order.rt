ghost use Rattle.std.specs.Prelude.{
  ◌≡◌,
  ◌+◌,
  ◌<◌,
  ◌≤◌,
  ◌==◌,
  ◌++◌,
  ◌∷◌,
  [],
  length,
  filter,
  position,
  not,
  slice_get,
  IfOk,
  OnOk,
  OnErr,
  None,
};
ghost use Rattle.std.specs.List.{insert};
ghost use Rattle.row_order.specs.Orders.{renamed};

use crate::cells::{cell_at, cell_holding, clear_cell};
use crate::counts::{BLOCK, number_at};
use crate::ids::Ids;
use crate::insertion::{append, insert_at};
use crate::room::{fill_cells, fill_counts, prepare_cells, prepare_counts};
use outside::{NoMemory, Share};
use std::alloc::Global;
use std::marker::Model;

// Twice as many cells have numbers of 32 bits.
const MOST_SLOTS: u32 = 2_000_000_000;

/// An order of ids, none of them twice. Contracts see the ids in their order, and below what bound an id has room, its slots: the id of
/// a row is the slot where it is kept. Memory is taken by `reserve` and `copy` alone, about 28 bytes a slot.
#[derive(Drop)]
pub struct RowOrder {
    cells: Vec<Option<u32>>,
    cell_of: Vec<u32>,
    rank: Vec<u32>,
    before: Vec<u32>,
    tail: usize,
    count: u32,
}

impl Model for RowOrder {
    ghost use Rattle.std.specs.Prelude.{length};
    ghost use Rattle.row_order.specs.Orders.{Order};
    ghost use Rattle.row_order.specs.Helps.Cells.{IsKept, live};

    ghost Value = { Order };

    ghost view = { λ o. record { ids = live o.cells.items; slots = length o.cell_of.items } };

    ghost invariant = { λ o. IsKept o.cells.items o.cell_of.items o.rank.items o.before.items o.tail
        o.count };
}

impl RowOrder {
    /// No ids, and no room. It takes no memory.
    pub fn new(alloc: Global) -> RowOrder
        ensures { result ≡ record { ids = []; slots = 0 } }
    {
        RowOrder {
            cells: Vec::new(alloc),
            cell_of: Vec::new(alloc),
            rank: Vec::new(alloc),
            before: Vec::new(alloc),
            tail: 0,
            count: 0,
        }
    }

    /// How many ids stand.
    pub fn len(&self) -> u32
        ensures value { result ≡ length self.now.ids }
        ensures few { result ≤ self.now.slots }
    {
        self.count
    }

    /// Below what bound an id has room.
    pub fn slots(&self) -> u32
        ensures { result ≡ self.now.slots }
    {
        self.cell_of.len() as u32
    }

    /// The place of an id, at once.
    pub fn number_of(&self, id: u32) -> Option<u32>
        ensures { result ≡ position (λ x. x == id) self.now.ids }
    {
        let Some(cell) = cell_holding(&self.cells, &self.cell_of, id) else {
            return None;
        };
        Some(number_at(&self.rank, &self.before, cell))
    }

    /// The id at a place: at once where the ids came one behind the other, or were packed, and none went; else it is looked for near
    /// where it would stand then, and where it is not near, by halving the cells.
    pub fn at(&self, place: u32) -> Option<u32>
        ensures { result ≡ slice_get self.now.ids place }
    {
        if place >= self.count {
            return None;
        }
        let cell = cell_at(&self.cells, &self.rank, &self.before, self.tail, place);
        self.cells[cell]
    }

    /// The ids in their order, one after the other.
    pub fn ids(&self) -> Ids<'_>
        ensures { result ≡ self.now.ids }
    {
        Ids::new(&self.cells[..self.tail])
    }

    /// Puts an id behind the others. It costs some writes, and packs all cells where they are used up: at most once for
    /// half as many pushes as there are slots.
    pub fn push(&mut self, id: u32)
        requires slot { id < self.old.slots }
        requires new { position (λ x. x == id) self.old.ids ≡ None }
        requires room { length self.old.ids < self.old.slots }
        ensures { self.new ≡ record self.old { ids = self.old.ids ++ id ∷ [] } }
    {
        self.tail = append(
            &mut self.cells,
            &mut self.cell_of,
            &mut self.rank,
            &mut self.before,
            self.tail,
            self.count,
            id,
        );
        self.count += 1;
    }

    /// Puts an id at a place. It moves the ids from there to the next empty cell, fewer than 1,024 as long as each block of
    /// 512 cells has an empty one, and writes at most 512 counts and one for each block behind it. Where it moved 4,096 ids
    /// or more, it packs all cells, after which each full block has 64 empty ones: at most one of 448 insertions does.
    pub fn insert(&mut self, place: u32, id: u32)
        requires place { place ≤ length self.old.ids }
        requires slot { id < self.old.slots }
        requires new { position (λ x. x == id) self.old.ids ≡ None }
        requires room { length self.old.ids < self.old.slots }
        ensures { self.new ≡ record self.old { ids = insert self.old.ids place id } }
    {
        if place >= self.count {
            self.push(id);
            return;
        }
        self.tail = insert_at(
            &mut self.cells,
            &mut self.cell_of,
            &mut self.rank,
            &mut self.before,
            self.tail,
            self.count,
            place,
            id,
        );
        self.count += 1;
    }

    /// Takes an id out, if it stands. It writes at most 512 counts, and one for each block of 512 cells behind it.
    pub fn remove(&mut self, id: u32)
        ensures { self.new ≡ record self.old { ids = filter (λ x. not (x == id)) self.old.ids } }
    {
        let Some(cell) = cell_holding(&self.cells, &self.cell_of, id) else {
            return;
        };
        clear_cell(
            &mut self.cells,
            &mut self.rank,
            &mut self.before,
            self.tail,
            cell,
        );
        self.count -= 1;
    }

    /// Gives an id another name, if it stands, at once.
    pub fn rename(&mut self, from: u32, to: u32)
        requires slot { to < self.old.slots }
        requires new { position (λ x. x == to) self.old.ids ≡ None }
        ensures { self.new ≡ record self.old { ids = renamed from to self.old.ids } }
    {
        let Some(cell) = cell_holding(&self.cells, &self.cell_of, from) else {
            return;
        };
        self.cells[cell] = Some(to);
        self.cell_of[to as usize] = cell as u32;
    }

    /// Makes room for ids below `slots`. More than 2,000,000,000 count as want of memory, on which the order stays.
    pub fn reserve(&mut self, slots: u32) -> Result<(), NoMemory>
        ensures ids { self.new.ids ≡ self.old.ids }
        ensures more { self.old.slots ≤ self.new.slots }
        ensures room { OnOk result (slots ≤ self.new.slots) }
        ensures refused { OnErr result (self.new ≡ self.old) }
    {
        if slots > MOST_SLOTS {
            return Err(NoMemory);
        }
        let slots = slots as usize;
        if slots <= self.cell_of.len() {
            return Ok(());
        }
        let wide = (2 * slots).max(self.cells.len());
        let blocks = (wide / BLOCK + 1).max(self.before.len());
        prepare_counts(&mut self.before, blocks)?;
        prepare_counts(&mut self.rank, wide)?;
        prepare_cells(&mut self.cells, wide)?;
        prepare_counts(&mut self.cell_of, slots)?;
        fill_counts(&mut self.before, blocks);
        fill_counts(&mut self.rank, wide);
        fill_cells(&mut self.cells, wide);
        fill_counts(&mut self.cell_of, slots);
        Ok(())
    }

    /// The same order once more, with the same room.
    pub fn copy(&self, alloc: Global) -> Result<RowOrder, NoMemory>
        ensures { IfOk result (λ copy. copy ≡ self.now) }
    {
        Ok(RowOrder {
            cells: Vec::from_slice(alloc, &self.cells)?,
            cell_of: Vec::from_slice(alloc, &self.cell_of)?,
            rank: Vec::from_slice(alloc, &self.rank)?,
            before: Vec::from_slice(alloc, &self.before)?,
            tail: self.tail,
            count: self.count,
        })
    }
}

impl Share for RowOrder {}
