ghost use Rattle.std.specs.Prelude.{◌≡◌, ◌≤◌, length, true};
ghost use Rattle.std.specs.List.{count_by};
ghost use Rattle.policy_table.specs.Changes.{applies, edited, is_table};
ghost use Rattle.policy_table.specs.Helps.Counts.{inserts, removes};
ghost use Rattle.policy_table.specs.Tables.{most_tables, rows};

use crate::change::{Change, Edit};
use crate::tables::Tables;
use perm_base::TableId;

/// How many rules a table has after an edit that applies.
pub(crate) fn rows_after(edit: &Edit, tables: &Tables, table: TableId) -> u64
    requires { applies edit.now tables.now.policy ≡ true }
    ensures value { result ≡ length (rows (edited edit.now tables.now.policy) table) }
    ensures nine { length tables.now.policy.lists ≡ most_tables }
    ensures still_nine { length (edited edit.now tables.now.policy).lists ≡ most_tables }
{
    let changes = edit.as_slice();
    tables.kept();
    let before = u64::from(tables.len(table));
    before + inserted(changes, table) - removed(changes, table)
}

fn inserted(changes: &[Change], table: TableId) -> u64
    ensures value { result ≡ count_by (inserts table) changes.now }
    ensures few { result ≤ length changes.now }
{
    let mut count = 0;
    for change in changes {
        if inserts(change, table) {
            count += 1;
        }
    }
    count
}

fn removed(changes: &[Change], table: TableId) -> u64
    ensures { result ≡ count_by (removes table) changes.now }
{
    let mut count = 0;
    for change in changes {
        if removes(change, table) {
            count += 1;
        }
    }
    count
}

fn inserts(change: &Change, table: TableId) -> bool
    ensures { result ≡ inserts table change.now }
{
    match change {
        Change::Insert { table: there, .. } => is_table(table, *there),
        Change::Remove { .. } | Change::Replace { .. } => false,
    }
}

fn removes(change: &Change, table: TableId) -> bool
    ensures { result ≡ removes table change.now }
{
    match change {
        Change::Remove { table: there, .. } => is_table(table, *there),
        Change::Insert { .. } | Change::Replace { .. } => false,
    }
}

fn is_table(table: TableId, other: TableId) -> bool
    ensures { result ≡ is_table table other }
{
    table == other
}
