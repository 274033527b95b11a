// The cells are packed in three passes: the ids move to the front, then apart, and the counts are written anew.
ghost use Rattle.std.specs.Prelude.{◌≡◌, ◌+◌, ◌*◌, ◌^◌, ◌<◌, ◌≤◌, length};
ghost use Rattle.row_order.specs.Helps.Cells.{live, spaced, IsCounted, IsEmptyFrom, IsKept, IsPlaced};

use crate::counts::{GAP, LOADED, open_cell};

// Moves the ids to the front, in order; how many they are.
fn gather(cells: &mut [Option<u32>], cell_of: &mut [u32], tail: usize) -> usize
    requires placed { IsPlaced cells.old cell_of.old }
    requires ended { IsEmptyFrom cells.old tail }
    requires within { tail ≤ length cells.old }
    requires small { length cells.old < 2 ^ 32 }
    ensures len { length cells.new ≡ length cells.old }
    ensures slots { length cell_of.new ≡ length cell_of.old }
    ensures same { live cells.new ≡ live cells.old }
    ensures count { result ≡ length (live cells.old) }
    ensures placed { IsPlaced cells.new cell_of.new }
    ensures ended { IsEmptyFrom cells.new result }
{
    let mut to = 0;
    for from in 0..tail {
        if let Some(id) = cells[from] {
            cells[from] = None;
            cells[to] = Some(id);
            cell_of[id as usize] = to as u32;
            to += 1;
        }
    }
    to
}

// Moves the ids of the first `count` cells apart, so that the last 64 cells of each block are empty.
fn space_out(cells: &mut [Option<u32>], cell_of: &mut [u32], count: usize)
    requires placed { IsPlaced cells.old cell_of.old }
    requires ended { IsEmptyFrom cells.old count }
    requires room { 2 * count ≤ length cells.old }
    requires small { length cells.old < 2 ^ 32 }
    ensures len { length cells.new ≡ length cells.old }
    ensures slots { length cell_of.new ≡ length cell_of.old }
    ensures same { live cells.new ≡ live cells.old }
    ensures placed { IsPlaced cells.new cell_of.new }
    ensures ended { IsEmptyFrom cells.new (spaced count) }
{
    let mut at = count;
    while at > 0 {
        at -= 1;
        if let Some(id) = cells[at] {
            let to = at + GAP * (at / LOADED);
            cells[at] = None;
            cells[to] = Some(id);
            cell_of[id as usize] = to as u32;
        }
    }
}

// Writes the counts of the cells before the tail.
fn recount(cells: &[Option<u32>], rank: &mut [u32], before: &mut [u32], tail: usize)
    requires begun { IsCounted cells.now rank.old before.old 0 }
    requires within { tail ≤ length cells.now }
    ensures { IsCounted cells.now rank.new before.new tail }
{
    let mut count = 0;
    for at in 0..tail {
        open_cell(rank, before, at, count);
        count += u32::from(cells[at].is_some());
    }
}

// Packs the cells; behind which cell there is room.
pub(crate) fn pack(
    cells: &mut [Option<u32>],
    cell_of: &mut [u32],
    rank: &mut [u32],
    before: &mut [u32],
    tail: usize,
    count: u32,
) -> usize
    requires kept { IsKept cells.old cell_of.old rank.old before.old tail count }
    ensures kept { IsKept cells.new cell_of.new rank.new before.new result count }
    ensures same { live cells.new ≡ live cells.old }
    ensures slots { length cell_of.new ≡ length cell_of.old }
    ensures tail { result ≡ spaced count }
{
    let count = gather(cells, cell_of, tail);
    space_out(cells, cell_of, count);
    let tail = count + GAP * (count / LOADED);
    recount(cells, rank, before, tail);
    tail
}

// Packs the cells if the last one is taken, and says behind which cell there is room.
pub(crate) fn room_behind(
    cells: &mut [Option<u32>],
    cell_of: &mut [u32],
    rank: &mut [u32],
    before: &mut [u32],
    tail: usize,
    count: u32,
) -> usize
    requires kept { IsKept cells.old cell_of.old rank.old before.old tail count }
    requires room { length (live cells.old) < length cell_of.old }
    ensures kept { IsKept cells.new cell_of.new rank.new before.new result count }
    ensures same { live cells.new ≡ live cells.old }
    ensures slots { length cell_of.new ≡ length cell_of.old }
    ensures room { result < length cells.new }
{
    if tail < cells.len() {
        return tail;
    }
    pack(cells, cell_of, rank, before, tail, count)
}
