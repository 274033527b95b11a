//! A cell more or less in each row.
ghost use Rattle.std.specs.Prelude.{◌≡◌, ◌+◌, ◌<◌, ℕ, map};
ghost use Rattle.dist_rows.specs.Helps.Rows.{AreRows, with_last, without_cell};

use crate::rows::Row;

/// Puts a cell without distance behind the others of each row.
pub(crate) fn push_cells(rows: &mut [Row])
    requires { (size : ℕ) × AreRows size (size + 1) rows.old }
    ensures { rows.new ≡ map (with_last 255) rows.old }
{
    for row in rows.iter_mut() {
        row.push(255);
    }
}

/// Puts the last cell of each row in the place of one.
pub(crate) fn drop_cells(rows: &mut [Row], at: usize)
    requires { (size : ℕ) × (at < size) × AreRows size 0 rows.old }
    ensures { rows.new ≡ map (without_cell at) rows.old }
{
    for row in rows.iter_mut() {
        row.swap_remove(at);
    }
}
