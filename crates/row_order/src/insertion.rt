ghost use Rattle.std.specs.Prelude.{ℕ, ◌≡◌, ◌+◌, ◌<◌, ◌≤◌, ◌==◌, ◌++◌, ◌∷◌, [], length, position, None, slice_index_or};
ghost use Rattle.std.specs.List.{insert};
ghost use Rattle.row_order.specs.Helps.Cells.{live, IsCarried, IsCounted, IsEmptyFrom, IsKept};

use crate::cells::{cell_at, mark_cell, put_cell};
use crate::compaction::{pack, room_behind};
use crate::counts::{BLOCK, LOADED, open_cell};

// How many ids an insertion moves at least before the cells are packed.
const FAR: usize = 8 * BLOCK;

// Passes over the last 64 cells of a block, which are left to insertions, as far as there are more; the cell behind them.
fn skip_gap(
    cells: &[Option<u32>],
    rank: &mut [u32],
    before: &mut [u32],
    tail: usize,
    count: u32,
) -> usize
    requires counted { IsCounted cells.now rank.old before.old tail }
    requires ended { IsEmptyFrom cells.now tail }
    requires count { count ≡ length (live cells.now) }
    requires room { tail < length cells.now }
    ensures counted { IsCounted cells.now rank.new before.new result }
    ensures forward { tail ≤ result }
    ensures room { result < length cells.now }
{
    let mut at = tail;
    while at % BLOCK >= LOADED && at + 1 < cells.len() {
        open_cell(rank, before, at, count);
        at += 1;
    }
    at
}

// Puts an id behind the others; where the tail is then.
pub(crate) fn append(
    cells: &mut [Option<u32>],
    cell_of: &mut [u32],
    rank: &mut [u32],
    before: &mut [u32],
    tail: usize,
    count: u32,
    id: u32,
) -> usize
    requires kept { IsKept cells.old cell_of.old rank.old before.old tail count }
    requires room { length (live cells.old) < length cell_of.old }
    requires slot { id < length cell_of.old }
    requires new { position (λ x. x == id) (live cells.old) ≡ None }
    ensures kept { IsKept cells.new cell_of.new rank.new before.new result (count + 1) }
    ensures ids { live cells.new ≡ live cells.old ++ id ∷ [] }
    ensures slots { length cell_of.new ≡ length cell_of.old }
{
    let tail = room_behind(cells, cell_of, rank, before, tail, count);
    let at = skip_gap(cells, rank, before, tail, count);
    put_cell(cells, rank, before, at, count, id);
    cell_of[id as usize] = at as u32;
    at + 1
}

// Moves ids on by one cell, from a cell to the next empty one, so that the first cell takes `id`; the empty cell, and the id that is left for it.
fn carry_on(
    cells: &mut [Option<u32>],
    cell_of: &mut [u32],
    tail: usize,
    cell: usize,
    id: u32,
) -> (usize, u32)
    requires start { IsCarried cells.old cells.old cell_of.old cell_of.old tail cell cell id id }
    ensures carried { IsCarried cells.old cells.new cell_of.old cell_of.new tail cell result.0 id result.1 }
    ensures empty { slice_index_or cells.new result.0 None ≡ None }
{
    let mut at = cell;
    let mut carried = id;
    while at < tail {
        let Some(next) = cells[at] else {
            return (at, carried);
        };
        cells[at] = Some(carried);
        cell_of[carried as usize] = at as u32;
        carried = next;
        at += 1;
    }
    (at, carried)
}

// Puts an id at a place before others; where the tail is then, and how many ids moved.
fn carry_in(
    cells: &mut [Option<u32>],
    cell_of: &mut [u32],
    rank: &mut [u32],
    before: &mut [u32],
    tail: usize,
    count: u32,
    place: u32,
    id: u32,
) -> (usize, usize)
    requires kept { IsKept cells.old cell_of.old rank.old before.old tail count }
    requires room { length (live cells.old) < length cell_of.old }
    requires slot { id < length cell_of.old }
    requires new { position (λ x. x == id) (live cells.old) ≡ None }
    requires place { place < count }
    ensures kept { IsKept cells.new cell_of.new rank.new before.new result.0 (count + 1) }
    ensures ids { live cells.new ≡ insert (live cells.old) place id }
    ensures slots { length cell_of.new ≡ length cell_of.old }
{
    let tail = room_behind(cells, cell_of, rank, before, tail, count);
    let cell = cell_at(cells, rank, before, tail, place);
    let (at, carried) = carry_on(cells, cell_of, tail, cell, id);
    if at < tail {
        mark_cell(cells, rank, before, tail, at, carried);
        cell_of[carried as usize] = at as u32;
        return (tail, at - cell);
    }
    put_cell(cells, rank, before, tail, count, carried);
    cell_of[carried as usize] = tail as u32;
    (tail + 1, at - cell)
}

// Puts an id at a place before others, and packs the cells where many ids moved; where the tail is then.
pub(crate) fn insert_at(
    cells: &mut [Option<u32>],
    cell_of: &mut [u32],
    rank: &mut [u32],
    before: &mut [u32],
    tail: usize,
    count: u32,
    place: u32,
    id: u32,
) -> usize
    requires kept { IsKept cells.old cell_of.old rank.old before.old tail count }
    requires room { length (live cells.old) < length cell_of.old }
    requires slot { id < length cell_of.old }
    requires new { position (λ x. x == id) (live cells.old) ≡ None }
    requires place { place < count }
    ensures kept { IsKept cells.new cell_of.new rank.new before.new result (count + 1) }
    ensures ids { live cells.new ≡ insert (live cells.old) place id }
    ensures slots { length cell_of.new ≡ length cell_of.old }
{
    let (tail, moved) = carry_in(cells, cell_of, rank, before, tail, count, place, id);
    if moved < FAR {
        return tail;
    }
    pack(cells, cell_of, rank, before, tail, count + 1)
}
