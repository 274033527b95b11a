ghost use Rattle.std.specs.Prelude.{◌≡◌, ◌-◌, ◌≤◌, ◌++◌, OnOk, replicate, None, vec_len, vec_capacity};

use outside::NoMemory;

// Makes room for `len` counts.
pub(crate) fn prepare_counts(counts: &mut Vec<u32>, len: usize) -> Result<(), NoMemory>
    ensures items { counts.new.items ≡ counts.old.items }
    ensures room { OnOk result (len ≤ vec_capacity counts.new) }
{
    counts.reserve(len.saturating_sub(counts.len()))?;
    Ok(())
}

// Makes room for `len` cells.
pub(crate) fn prepare_cells(cells: &mut Vec<Option<u32>>, len: usize) -> Result<(), NoMemory>
    ensures items { cells.new.items ≡ cells.old.items }
    ensures room { OnOk result (len ≤ vec_capacity cells.new) }
{
    cells.reserve(len.saturating_sub(cells.len()))?;
    Ok(())
}

// Writes zeros behind the counts, up to `len`.
pub(crate) fn fill_counts(counts: &mut Vec<u32>, len: usize)
    requires wide { vec_len counts.old ≤ len }
    requires room { len ≤ vec_capacity counts.old }
    ensures { counts.new.items ≡ counts.old.items ++ replicate (len - vec_len counts.old) 0 }
{
    for _at in counts.len()..len {
        counts.push_reserved(0);
    }
}

// Writes empty cells behind the others, up to `len`.
pub(crate) fn fill_cells(cells: &mut Vec<Option<u32>>, len: usize)
    requires wide { vec_len cells.old ≤ len }
    requires room { len ≤ vec_capacity cells.old }
    ensures { cells.new.items ≡ cells.old.items ++ replicate (len - vec_len cells.old) None }
{
    for _at in cells.len()..len {
        cells.push_reserved(None);
    }
}
