//! Which distances of a row are within a limit.
ghost use Rattle.std.specs.Prelude.{◌≡◌, ◌==◌, ◌+◌, ◌≤◌, length, map};
ghost use Rattle.std.specs.Simd.Lanes.{put_chunk};
ghost use Rattle.dist_rows.specs.Helps.Rows.{fronted};
ghost use Rattle.dist_rows.specs.Squares.{are_within};

use crate::lanes::{LANES, above_limit};

/// Tells of each cell whether it is at most the limit.
pub(crate) fn mark_within(cells: &[u8], limit: u8, out: &mut [bool])
    requires { length out.old ≡ length cells.now }
    ensures { out.new ≡ are_within limit cells.now }
{
    for group in 0..cells.len() / LANES {
        let at = group * LANES;
        mark_group(&above_limit(cells, at, limit), out, at);
    }
    mark_rest(cells, limit, out, cells.len() / LANES * LANES);
}

// Marks a group of cells by how far each is above the limit.
fn mark_group(above: &[u8; LANES], out: &mut [bool], at: usize)
    requires { at + LANES ≤ length out.old }
    ensures { out.new ≡ put_chunk at out.old (map (λ d. d == 0) above.now) }
{
    for i in 0..LANES {
        out[at + i] = above[i] == 0;
    }
}

// Marks the cells from a place on.
fn mark_rest(cells: &[u8], limit: u8, out: &mut [bool], at: usize)
    requires size { length out.old ≡ length cells.now }
    requires at { at ≤ length cells.now }
    requires before { out.old ≡ fronted at (are_within limit cells.now) out.old }
    ensures { out.new ≡ are_within limit cells.now }
{
    for i in at..cells.len() {
        out[i] = cells[i] <= limit;
    }
}
