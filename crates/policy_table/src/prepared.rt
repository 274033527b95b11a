ghost use Rattle.std.specs.Prelude.{◌≡◌, ◌++◌, IfOk, OnOk};
ghost use Rattle.policy_table.specs.Changes.{flat, table_of};
ghost use Rattle.policy_table.specs.Held.{is_at, needed, puts_at};
ghost use Rattle.policy_table.specs.Helps.Moves.{put_domain};

use crate::change::{Change, Edit};
use crate::domains::domain_text;
use crate::tables::place;
use outside::{NoMemory, Text};
use perm_base::TableId;
use std::alloc::Global;
use std::marker::Model;

/// Edits that are ready to be made. Contracts see the changes that they make.
pub struct PreparedTables {
    steps: Vec<TableStep>,
}

// Written out, so that a caller's proof sees one call and not the drop of each field.
impl Drop for PreparedTables {
    fn drop(self) {
        let PreparedTables { steps: _steps } = self;
    }
}

impl Model for PreparedTables {
    ghost use Rattle.std.specs.Prelude.{List};
    ghost use Rattle.policy_table.specs.declared.change.Change.{Change};

    ghost Value = { List Change };

    ghost view = { λ p. p.steps.items };
}

/// A change that is ready to be made. Contracts see the change.
#[derive(Drop)]
pub struct TableStep {
    change: Change,
    // That of the rule that it puts in, where it puts one in.
    domain: Text,
}

impl Model for TableStep {
    ghost use Rattle.std.specs.Prelude.{◌≡◌};
    ghost use Rattle.policy_table.specs.Helps.Moves.{put_domain};
    ghost use Rattle.policy_table.specs.declared.change.Change.{Change};

    ghost Value = { Change };

    ghost view = { λ s. s.change };

    ghost invariant = { λ s. s.domain ≡ put_domain s.change };
}

impl PreparedTables {
    /// The edits as steps.
    pub(crate) fn of_edits(alloc: Global, edits: &[Edit]) -> Result<PreparedTables, NoMemory>
        ensures { IfOk result (λ prepared. prepared ≡ flat edits.now) }
    {
        let mut steps = Vec::new(alloc);
        for edit in edits {
            push_steps(alloc, &mut steps, edit.as_slice())?;
        }
        Ok(PreparedTables { steps })
    }

    /// The room that the changes need in the table at a place.
    pub(crate) fn needed(&self, at: usize) -> usize
        ensures { result ≡ needed at self.now }
    {
        let mut count = 0;
        for step in &self.steps {
            if step.puts_at(at) {
                count += 1;
            }
        }
        count
    }

    /// The changes one after the other, each of them ready to be made at its turn. It takes no memory.
    pub fn into_steps(self) -> Vec<TableStep>
        ensures { result.items ≡ self }
    {
        let PreparedTables { steps } = self;
        steps
    }
}

impl TableStep {
    // The step that makes a change.
    fn of(alloc: Global, change: &Change) -> Result<TableStep, NoMemory>
        ensures { IfOk result (λ step. step ≡ change.now) }
    {
        let domain = put_domain(alloc, change)?;
        let change = change.copy(alloc)?;
        Ok(TableStep { change, domain })
    }

    /// The change that it makes.
    pub fn change(&self) -> &Change
        ensures { result.now ≡ self.now }
    {
        &self.change
    }

    /// The table of the change.
    pub fn table(&self) -> TableId
        ensures { result ≡ table_of self.now }
    {
        self.change.table()
    }

    /// The change, and the domain of the rule that it puts in.
    pub(crate) fn into_parts(self) -> (Change, Text)
        ensures change { result.0 ≡ self }
        ensures domain { result.1 ≡ put_domain self }
    {
        (self.change, self.domain)
    }

    // Whether it puts a rule into the table at a place.
    fn puts_at(&self, at: usize) -> bool
        ensures { result ≡ puts_at at self.now }
    {
        match &self.change {
            Change::Insert { table, .. } | Change::Replace { table, .. } => is_at(at, *table),
            Change::Remove { .. } => false,
        }
    }
}

// Adds the steps that make these changes.
fn push_steps(alloc: Global, steps: &mut Vec<TableStep>, changes: &[Change]) -> Result<(), NoMemory>
    ensures { OnOk result (steps.new.items ≡ steps.old.items ++ changes.now) }
{
    for change in changes {
        steps.push(TableStep::of(alloc, change)?)?;
    }
    Ok(())
}

// The domain of the rule that a change puts in, and an empty text where it puts none in.
fn put_domain(alloc: Global, change: &Change) -> Result<Text, NoMemory>
    ensures { IfOk result (λ text. text ≡ put_domain change.now) }
{
    match change {
        Change::Insert { rule, .. } => domain_text(alloc, rule),
        Change::Remove { .. } => Ok(Text::from_string(String::new(alloc))),
        Change::Replace { new, .. } => domain_text(alloc, new),
    }
}

// Whether a table stands at a place.
fn is_at(at: usize, table: TableId) -> bool
    ensures { result ≡ is_at at table }
{
    match place(table) {
        Some(there) => there == at,
        None => false,
    }
}
