ghost use Rattle.std.specs.Prelude.{◌≡◌, IfOk};
ghost use Rattle.policy_table.specs.Changes.{table_of};

use outside::{NoMemory, Share};
use perm_base::{Rule, TableId};
use std::alloc::Global;
use std::marker::Model;

/// A change of one rule of a table.
#[derive(Drop)]
pub enum Change {
    /// A rule that goes last; in a ranked p, behind the last whose rank is not above its own.
    Insert {
        table: TableId,
        rule: Rule,
    },
    /// A rule that is taken out; the others keep their order.
    Remove {
        table: TableId,
        rule: Rule,
    },
    /// A rule whose place a new one takes; in a ranked p only where the two are of one rank, and else the old one is
    /// removed and the new one inserted.
    Replace {
        table: TableId,
        old: Rule,
        new: Rule,
    },
}

impl Change {
    /// The table that it is a change of.
    pub fn table(&self) -> TableId
        ensures { result ≡ table_of self.now }
    {
        match self {
            Change::Insert { table, .. }
            | Change::Remove { table, .. }
            | Change::Replace { table, .. } => *table,
        }
    }

    /// The same change once more.
    pub fn copy(&self, alloc: Global) -> Result<Change, NoMemory>
        ensures same { IfOk result (λ copy. copy ≡ self.now) }
    {
        match self {
            Change::Insert { table, rule } => Ok(Change::Insert {
                table: *table,
                rule: rule.copy(alloc)?,
            }),
            Change::Remove { table, rule } => Ok(Change::Remove {
                table: *table,
                rule: rule.copy(alloc)?,
            }),
            Change::Replace { table, old, new } => Ok(Change::Replace {
                table: *table,
                old: old.copy(alloc)?,
                new: new.copy(alloc)?,
            }),
        }
    }
}

impl Share for Change {}

/// What a management call changes: a list of changes that are made one after the other. Contracts see that list.
#[derive(Drop)]
pub struct Edit {
    changes: Vec<Change>,
}

impl Model for Edit {
    ghost use Rattle.std.specs.Prelude.{List};
    ghost use Rattle.policy_table.specs.declared.change.Change.{Change};

    ghost Value = { List Change };

    ghost view = { λ e. e.changes.items };
}

impl Edit {
    /// The edit of these changes. It takes no memory.
    pub fn from_vec(changes: Vec<Change>) -> Edit
        ensures { result ≡ changes.items }
    {
        Edit { changes }
    }

    /// The changes in their order.
    pub fn as_slice(&self) -> &[Change]
        ensures { result.now ≡ self.now }
    {
        &self.changes
    }

    /// The changes as a `Vec`. It takes no memory.
    pub fn into_vec(self) -> Vec<Change>
        ensures { result.items ≡ self }
    {
        self.changes
    }
}

impl Share for Edit {}

/// The same edit once more.
pub fn copy_edit(alloc: Global, edit: &Edit) -> Result<Edit, NoMemory>
    ensures { IfOk result (λ copy. copy ≡ edit.now) }
{
    let mut changes = Vec::with_capacity(alloc, edit.changes.len())?;
    for change in &edit.changes {
        changes.push(change.copy(alloc)?)?;
    }
    Ok(Edit { changes })
}

/// The same edits once more.
pub fn copy_edits(alloc: Global, edits: &[Edit]) -> Result<Vec<Edit>, NoMemory>
    ensures { IfOk result (λ copy. copy.items ≡ edits.now) }
{
    let mut copy = Vec::with_capacity(alloc, edits.len())?;
    for edit in edits {
        copy.push(copy_edit(alloc, edit)?)?;
    }
    Ok(copy)
}
