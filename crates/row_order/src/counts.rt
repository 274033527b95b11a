ghost use Rattle.std.specs.Prelude.{◌≡◌, ℕ, ◌+◌, ◌/◌, ◌%◌, ◌^◌, ◌<◌, ◌≤◌, ◌≢◌, length, slice_index};
ghost use Rattle.row_order.specs.Helps.Cells.{IsLowered, IsOpened, IsRaised};

// How many cells a block has.
pub(crate) const BLOCK: usize = 512;

// What is added so that a division by a block rounds up.
pub(crate) const ROUND_UP: usize = BLOCK - 1;

// How many cells of a block are taken where cells are packed, and how many are left to insertions.
pub(crate) const LOADED: usize = 448;

pub(crate) const GAP: usize = BLOCK - LOADED;

// How many ids stand before a cell.
pub(crate) fn number_at(rank: &[u32], before: &[u32], cell: usize) -> u32
    requires in_rank { cell < length rank.now }
    requires in_before { cell / 512 < length before.now }
    requires fits { slice_index before.now (cell / 512) + slice_index rank.now cell < 2 ^ 32 }
    ensures { result ≡ slice_index before.now (cell / 512) + slice_index rank.now cell }
{
    before[cell / BLOCK] + rank[cell]
}

// Writes the counts of the cell at the tail, behind `count` ids.
pub(crate) fn open_cell(rank: &mut [u32], before: &mut [u32], tail: usize, count: u32)
    requires in_rank { tail < length rank.old }
    requires in_before { tail / 512 < length before.old }
    requires low { tail % 512 ≢ 0 → slice_index before.old (tail / 512) ≤ count }
    ensures { IsOpened rank.old before.old rank.new before.new tail count }
{
    let block = tail / BLOCK;
    if tail % BLOCK == 0 {
        before[block] = count;
    }
    rank[tail] = count - before[block];
}

// One less at each place from `from` to before `to`.
pub(crate) fn lower(counts: &mut [u32], from: usize, to: usize)
    requires order { from ≤ to }
    requires within { to ≤ length counts.old }
    requires positive { (k : ℕ) → from ≤ k → k < to → 0 < slice_index counts.old k }
    ensures { IsLowered counts.old counts.new from to }
{
    for k in from..to {
        counts[k] -= 1;
    }
}

// One more at each place from `from` to before `to`.
pub(crate) fn raise(counts: &mut [u32], from: usize, to: usize)
    requires order { from ≤ to }
    requires within { to ≤ length counts.old }
    requires small { (k : ℕ) → from ≤ k → k < to → slice_index counts.old k + 1 < 2 ^ 32 }
    ensures { IsRaised counts.old counts.new from to }
{
    for k in from..to {
        counts[k] += 1;
    }
}
