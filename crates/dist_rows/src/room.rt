//! Room for cells and rows.
ghost use Rattle.std.specs.Prelude.{◌≡◌, ◌≤◌, ℕ, OnOk, length, max};
ghost use Rattle.dist_rows.specs.Helps.Rows.{AreRows, cells_of};

use crate::rows::Row;
use outside::NoMemory;
use std::alloc::Global;

/// Makes room for so many cells in all in each row.
pub(crate) fn reserve_all(rows: &mut [Row], room: usize) -> Result<(), NoMemory>
    ensures cells { cells_of rows.new ≡ cells_of rows.old }
    ensures more { (size most : ℕ) → AreRows size most rows.old → AreRows size most rows.new }
    ensures room { OnOk result ((size most : ℕ) → AreRows size most rows.old
        → AreRows size room rows.new) }
{
    for row in rows.iter_mut() {
        row.reserve(room)?;
    }
    Ok(())
}

/// Adds rows without cells, with room for so many, until there are as many as are wanted.
pub(crate) fn add_free(
    free: &mut Vec<Row>,
    alloc: Global,
    count: usize,
    room: usize,
) -> Result<(), NoMemory>
    requires { AreRows 0 room free.old.items }
    ensures rows { AreRows 0 room free.new.items }
    ensures more { length free.old.items ≤ length free.new.items }
    ensures few { length free.new.items ≤ max count (length free.old.items) }
    ensures wanted { OnOk result (count ≤ length free.new.items) }
{
    'more: while free.len() < count {
        free.push(Row::with_room(alloc, room)?)?;
    }
    Ok(())
}
