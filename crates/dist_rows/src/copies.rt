//! Rows once more.
ghost use Rattle.std.specs.Prelude.{◌≡◌, ℕ, IfOk};
ghost use Rattle.dist_rows.specs.Helps.Rows.{AreRows, cells_of};

use crate::rows::Row;
use outside::NoMemory;
use std::alloc::Global;

/// The same rows once more, with room for no further cell.
pub(crate) fn copy_all(alloc: Global, rows: &[Row]) -> Result<Vec<Row>, NoMemory>
    ensures cells { IfOk result (λ copy. cells_of copy.items ≡ cells_of rows.now) }
    ensures rows { IfOk result (λ copy. (size most : ℕ)
        → AreRows size most rows.now → AreRows size size copy.items) }
{
    let mut copy = Vec::with_capacity(alloc, rows.len())?;
    for row in rows {
        copy.push(row.copy(alloc)?)?;
    }
    Ok(copy)
}
