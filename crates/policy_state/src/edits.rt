ghost use Rattle.std.specs.Prelude.{◌≡◌, ◌+◌, ◌-◌, ◌≤◌, ◌++◌, IfOk, List, drop, length};
ghost use Rattle.edit_calls.specs.Admitted.{AreAdmitted};
ghost use Rattle.policy_state.specs.Ready.{AreReady, IsPreparedFor};
ghost use Rattle.policy_state.specs.States.{StandsFor, tables};
ghost use Rattle.policy_table.specs.Changes.{replay};
ghost use Rattle.policy_table.specs.Tables.{Policy};
ghost use Rattle.policy_table.specs.declared.change.Change.{Change};
ghost use Rattle.version_log.specs.Log.{Stands, most_versions, versions};

use crate::indexes::{make_all, prepare_index};
use crate::prepared::{PreparedParts, PreparedState};
use crate::state::PolicyState;
use edit_calls::admitted_edits_keep_sound;
use outside::NoMemory;
use policy_table::{Edit, copy_edits};
use std::alloc::Global;
use version_log::Log;

impl PolicyState {
    /// Makes edits that are admitted one after the other ready, and a version at which the log is to start afterwards, so that
    /// `commit` needs no memory. The policy is as before, whatever the answer, also where what is ready is dropped. Its time
    /// grows with the edits and, where a role is new, with the distances of its domain, and not with the tables.
    pub fn prepare(
        &mut self,
        alloc: Global,
        edits: &[Edit],
        start: u32,
    ) -> Result<PreparedState, NoMemory>
        requires admitted { AreAdmitted self.old.shapes (tables self.old) edits.now }
        requires few { versions self.old.log + length edits.now ≤ most_versions }
        requires from { self.old.log.start ≤ start }
        requires until { start ≤ versions self.old.log }
        ensures shapes { self.new.shapes ≡ self.old.shapes }
        ensures key { self.new.key ≡ self.old.key }
        ensures log_start { self.new.log.start ≡ self.old.log.start }
        ensures tail { self.new.log.tail ≡ self.old.log.tail }
        ensures tables { tables self.new ≡ tables self.old }
        ensures edits { IfOk result (λ prepared. prepared.edits ≡ edits.now) }
        ensures start { IfOk result (λ prepared. prepared.start ≡ start) }
        ensures ready { IfOk result (IsPreparedFor self.new) }
    {
        let parts = self.prepare_parts(alloc, edits, start)?;
        let edits = copy_edits(alloc, edits)?;
        Ok(PreparedState { parts, edits })
    }

    /// The same for edits that are not copied: they are handed over when they are made, by `commit_parts`.
    pub fn prepare_parts(
        &mut self,
        alloc: Global,
        edits: &[Edit],
        start: u32,
    ) -> Result<PreparedParts, NoMemory>
        requires admitted { AreAdmitted self.old.shapes (tables self.old) edits.now }
        requires few { versions self.old.log + length edits.now ≤ most_versions }
        requires from { self.old.log.start ≤ start }
        requires until { start ≤ versions self.old.log }
        ensures shapes { self.new.shapes ≡ self.old.shapes }
        ensures key { self.new.key ≡ self.old.key }
        ensures log_start { self.new.log.start ≡ self.old.log.start }
        ensures tail { self.new.log.tail ≡ self.old.log.tail }
        ensures tables { tables self.new ≡ tables self.old }
        ensures start { IfOk result (λ parts. parts.start ≡ start) }
        ensures ready { IfOk result (AreReady self.new edits.now) }
    {
        admitted_edits_keep_sound();
        self.tables.kept();
        let tables = self.tables.prepare(alloc, edits)?;
        prepare_index(&mut self.index, alloc, edits)?;
        let sections = self.sections.prepare(alloc, edits, &self.tables)?;
        self.log.reserve(edits.len() as u32)?;
        Ok(PreparedParts {
            tables,
            sections,
            start,
        })
    }

    /// Makes the edits that were prepared for this policy as it stands, in all its parts, and starts the log at the version
    /// that was prepared. It takes no memory and cannot be refused.
    pub fn commit(&mut self, prepared: PreparedState)
        requires ready { IsPreparedFor self.old prepared }
        ensures shapes { self.new.shapes ≡ self.old.shapes }
        ensures key { self.new.key ≡ self.old.key }
        ensures start { self.new.log.start ≡ prepared.start }
        ensures tail { self.new.log.tail
            ≡ drop (prepared.start - self.old.log.start) self.old.log.tail ++ prepared.edits }
        ensures stands { (opening : Policy) (history : List (List Change))
            → StandsFor self.old opening history
            → StandsFor self.new opening (history ++ prepared.edits) }
        ensures tables { tables self.new ≡ replay prepared.edits (tables self.old) }
        ensures versions { versions self.new.log
            ≡ versions self.old.log + length prepared.edits }
    {
        let PreparedState { parts, edits } = prepared;
        self.commit_parts(parts, edits);
    }

    /// The same for edits that were prepared without a copy: they go into the log themselves.
    pub fn commit_parts(&mut self, parts: PreparedParts, edits: Vec<Edit>)
        requires ready { AreReady self.old edits.items parts }
        ensures shapes { self.new.shapes ≡ self.old.shapes }
        ensures key { self.new.key ≡ self.old.key }
        ensures start { self.new.log.start ≡ parts.start }
        ensures tail { self.new.log.tail
            ≡ drop (parts.start - self.old.log.start) self.old.log.tail ++ edits.items }
        ensures stands { (opening : Policy) (history : List (List Change))
            → StandsFor self.old opening history
            → StandsFor self.new opening (history ++ edits.items) }
        ensures tables { tables self.new ≡ replay edits.items (tables self.old) }
        ensures versions { versions self.new.log
            ≡ versions self.old.log + length edits.items }
    {
        let PreparedParts {
            tables,
            sections,
            start,
        } = parts;
        admitted_edits_keep_sound();
        self.tables.kept();
        self.log.move_start(start);
        make_all(&mut self.tables, &mut self.index, tables);
        self.sections.commit(sections);
        push_all(&mut self.log, edits);
    }
}

// Puts edits behind the others of a log. It takes no memory.
fn push_all(log: &mut Log, edits: Vec<Edit>)
    requires room { length edits.items ≤ log.old.spare }
    requires few { versions log.old + length edits.items ≤ most_versions }
    ensures start { log.new.start ≡ log.old.start }
    ensures tail { log.new.tail ≡ log.old.tail ++ edits.items }
    ensures versions { versions log.new ≡ versions log.old + length edits.items }
    ensures stands { (history : List (List Change))
        → Stands log.old history → Stands log.new (history ++ edits.items) }
{
    for edit in edits {
        log.push(edit);
    }
}
