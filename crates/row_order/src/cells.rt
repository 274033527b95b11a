// An order's ids stand in a row of cells, some of which are empty. Cells lie in blocks of 512: `before` has for each block
// how many ids are before it, and `rank` for each cell how many are before it in its block, up to the cell `tail`.
ghost use Rattle.std.specs.Prelude.{
  ℕ,
  ◌≡◌,
  ◌≢◌,
  ◌+◌,
  ◌<◌,
  ◌≤◌,
  length,
  take,
  IsTrue,
  MatchOption,
  Some,
  None,
  slice_index_or,
  slice_set,
};
ghost use Rattle.row_order.specs.Helps.Cells.{live, IsCounted, IsPlaced};

use crate::counts::{BLOCK, GAP, LOADED, ROUND_UP, lower, number_at, open_cell, raise};

// How far from the cell that is guessed an id is looked for, before the cells are halved.
const NEAR: usize = 128;

// The cell where an id stands.
pub(crate) fn cell_holding(cells: &[Option<u32>], cell_of: &[u32], id: u32) -> Option<usize>
    requires placed { IsPlaced cells.now cell_of.now }
    ensures { MatchOption result ((c : ℕ) → slice_index_or cells.now c None ≢ Some id)
        (λ c. slice_index_or cells.now c None ≡ Some id) }
{
    let at = id as usize;
    if at >= cell_of.len() {
        return None;
    }
    let cell = cell_of[at] as usize;
    if cell >= cells.len() {
        return None;
    }
    let Some(found) = cells[cell] else {
        return None;
    };
    if found == id {
        return Some(cell);
    }
    None
}

// The cell of the id at a place: the last one that has no more ids before it.
pub(crate) fn cell_at(
    cells: &[Option<u32>],
    rank: &[u32],
    before: &[u32],
    tail: usize,
    place: u32,
) -> usize
    requires counted { IsCounted cells.now rank.now before.now tail }
    requires within { place < length (live (take tail cells.now)) }
    ensures tail { result < tail }
    ensures low { length (live (take result cells.now)) ≤ place }
    ensures high { place < length (live (take (result + 1) cells.now)) }
{
    // At most so many ids stand before this cell.
    let mut low = place as usize;
    let mut high = tail;
    // Where no id was taken out or put between others since the cells were packed, it stands here.
    let guess = low + GAP * (low / LOADED);
    if guess < tail && stands_at(cells, rank, before, tail, guess, place) {
        return guess;
    }
    while high - low > 1 {
        let middle = tested_next(low, high, guess);
        if number_at(rank, before, middle) <= place {
            low = middle;
        } else {
            high = middle;
        }
    }
    low
}

// Whether the id at a place stands in a cell.
fn stands_at(
    cells: &[Option<u32>],
    rank: &[u32],
    before: &[u32],
    tail: usize,
    cell: usize,
    place: u32,
) -> bool
    requires counted { IsCounted cells.now rank.now before.now tail }
    requires within { cell < tail }
    ensures before { IsTrue result → length (live (take cell cells.now)) ≡ place }
    ensures one { IsTrue result → length (live (take (cell + 1) cells.now)) ≡ place + 1 }
{
    number_at(rank, before, cell) == place && cells[cell].is_some()
}

// The cell that is tested next between two, where an id is looked for that is guessed to stand in a third.
fn tested_next(low: usize, high: usize, guess: usize) -> usize
    requires { low + 1 < high }
    ensures behind { low < result }
    ensures before { result < high }
{
    if guess < low {
        tested_behind(low, high, guess)
    } else {
        tested_ahead(low, high, guess)
    }
}

// The same where the id stands behind the guess: at first the end of what is near, and then the cell halfway.
fn tested_behind(low: usize, high: usize, guess: usize) -> usize
    requires some { low + 1 < high }
    requires guess { guess < low }
    ensures behind { low < result }
    ensures before { result < high }
{
    if low - guess > 1 || high - low <= NEAR {
        return halfway(low, high);
    }
    low + NEAR
}

// The same where it may stand at the guess, or before it: at first the cell behind the guess, then the guess, then the end of what
// is near, and then the cell halfway.
fn tested_ahead(low: usize, high: usize, guess: usize) -> usize
    requires some { low + 1 < high }
    requires guess { low ≤ guess }
    ensures behind { low < result }
    ensures before { result < high }
{
    if guess < high - 1 {
        return guess + 1;
    }
    if guess < high {
        return guess;
    }
    if guess > high || high - low <= NEAR {
        return halfway(low, high);
    }
    high - NEAR
}

// The cell halfway between two.
fn halfway(low: usize, high: usize) -> usize
    requires { low + 1 < high }
    ensures behind { low < result }
    ensures before { result < high }
{
    low + (high - low) / 2
}

// Empties a cell.
pub(crate) fn clear_cell(
    cells: &mut [Option<u32>],
    rank: &mut [u32],
    before: &mut [u32],
    tail: usize,
    cell: usize,
)
    requires counted { IsCounted cells.old rank.old before.old tail }
    requires within { cell < tail }
    requires stands { slice_index_or cells.old cell None ≢ None }
    ensures cells { cells.new ≡ slice_set cells.old cell None }
    ensures counted { IsCounted cells.new rank.new before.new tail }
{
    cells[cell] = None;
    let block = cell / BLOCK;
    let block_end = (BLOCK * block + BLOCK).min(tail);
    lower(rank, cell + 1, block_end);
    lower(before, block + 1, (tail + ROUND_UP) / BLOCK);
}

// Puts an id into an empty cell between others.
pub(crate) fn mark_cell(
    cells: &mut [Option<u32>],
    rank: &mut [u32],
    before: &mut [u32],
    tail: usize,
    cell: usize,
    id: u32,
)
    requires counted { IsCounted cells.old rank.old before.old tail }
    requires within { cell < tail }
    requires empty { slice_index_or cells.old cell None ≡ None }
    ensures cells { cells.new ≡ slice_set cells.old cell (Some id) }
    ensures counted { IsCounted cells.new rank.new before.new tail }
{
    cells[cell] = Some(id);
    let block = cell / BLOCK;
    let block_end = (BLOCK * block + BLOCK).min(tail);
    raise(rank, cell + 1, block_end);
    raise(before, block + 1, (tail + ROUND_UP) / BLOCK);
}

// Puts an id into the cell at the tail, behind `count` ids.
pub(crate) fn put_cell(
    cells: &mut [Option<u32>],
    rank: &mut [u32],
    before: &mut [u32],
    tail: usize,
    count: u32,
    id: u32,
)
    requires counted { IsCounted cells.old rank.old before.old tail }
    requires room { tail < length cells.old }
    requires count { count ≡ length (live (take tail cells.old)) }
    ensures cells { cells.new ≡ slice_set cells.old tail (Some id) }
    ensures counted { IsCounted cells.new rank.new before.new (tail + 1) }
{
    open_cell(rank, before, tail, count);
    cells[tail] = Some(id);
}
