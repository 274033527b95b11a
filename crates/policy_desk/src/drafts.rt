//! The tables after pending edits.

ghost use Rattle.std.specs.Prelude.{◌≡◌, ◌<◌, ◌∷◌, [], All, IfOk, IfSome, List, MatchResult, Ok, OnErr, OnOk, is_some, length, true};
ghost use Rattle.edit_calls.specs.Answers.{answer};
ghost use Rattle.edit_calls.specs.Found.{AreKnown, FindFitting};
ghost use Rattle.edit_calls.specs.Told.{IsTold};
ghost use Rattle.perm_base.specs.Shapes.{AreValid};
ghost use Rattle.perm_base.specs.declared.shapes.TableId.TheVariants as table_of;
ghost use Rattle.policy_desk.specs.Helps.Asked.{asked_values};
ghost use Rattle.policy_index.specs.Finders.{AreFindersIn};
ghost use Rattle.policy_query.specs.Found.{FindAsked};
ghost use Rattle.policy_query.specs.Names.{named_columns};
ghost use Rattle.policy_table.specs.Changes.{applies, changed, edited};
ghost use Rattle.policy_table.specs.Held.{IsPreparedFor};
ghost use Rattle.policy_table.specs.Limits.{AreSound};
ghost use Rattle.policy_table.specs.Tables.{AreLists, IsKept, rows};
ghost use Rattle.policy_table.specs.declared.change.Change.{Change};

use edit_calls::{Call, CallRefused, Known, resolve};
use outside::{NoMemory, Share, Text};
use perm_base::{Shapes, TableId};
use policy_index::Finders;
use policy_table::{Edit, PreparedTables, TableStep, Tables};
use std::alloc::Global;
use std::marker::Model;
use std::slice;

/// The tables after the pending edits, and what finds their rules by filters and by names, once a call asked so. Contracts see the
/// rules.
pub(crate) struct Drafts {
    tables: Tables,
    finders: Finders,
}

// Written out, so that a caller's proof sees one call and not the drop of each field.
impl Drop for Drafts {
    fn drop(self) {
        let Drafts {
            tables: _tables,
            finders: _finders,
        } = self;
    }
}

impl Model for Drafts {
    ghost use Rattle.policy_index.specs.Finders.{AreFindersIn};
    ghost use Rattle.policy_table.specs.Tables.{Policy};

    ghost Value = { Policy };

    ghost view = { λ d. d.tables.policy };

    ghost invariant = { λ d. AreFindersIn d.tables d.finders };
}

impl Drafts {
    /// Those of these tables.
    pub(crate) fn new(alloc: Global, tables: Tables) -> Drafts
        ensures { result ≡ tables.policy }
    {
        Drafts {
            tables,
            finders: Finders::new(alloc),
        }
    }

    /// The tables.
    pub(crate) fn tables(&self) -> &Tables
        ensures { result.now.policy ≡ self.now }
    {
        &self.tables
    }

    /// What the tables keep.
    pub(crate) fn kept(&self)
        ensures { IsKept self.now }
    {
        self.tables.kept();
    }

    /// Makes an edit. Its time grows with the edit, and with the logarithm of the tables.
    pub(crate) fn make(&mut self, alloc: Global, edit: &Edit) -> Result<(), NoMemory>
        requires possible { applies edit.now self.old ≡ true }
        requires few { AreLists (edited edit.now self.old).lists }
        ensures made { OnOk result (self.new ≡ edited edit.now self.old) }
        ensures refused { OnErr result (self.new ≡ self.old) }
    {
        let prepared = self.tables.prepare(alloc, slice::from_ref(edit))?;
        make_all(alloc, &mut self.tables, &mut self.finders, prepared);
        Ok(())
    }

    /// What a call changes in them, where so much is known of its rules.
    pub(crate) fn resolve(
        &self,
        alloc: Global,
        call: &Call,
        shapes: &Shapes,
        known: &Known,
    ) -> Result<Option<Edit>, CallRefused>
        requires valid { AreValid shapes.now }
        requires sound { AreSound shapes.now self.now }
        requires known { AreKnown shapes.now self.now known.now call.now }
        ensures answered { MatchResult result
            (λ edit. answer shapes.now self.now call.now ≡ Ok edit)
            (IsTold (answer shapes.now self.now call.now)) }
        ensures applies { IfOk result (λ found. IfSome found (λ edit.
            applies edit self.now ≡ true)) }
    {
        resolve(alloc, call, &self.tables, shapes, known)
    }

    /// Where the rules stand that a call asks for by a filter or by a name, as far as it can be known. The first calls that ask by
    /// some columns go over the rows, and others that ask by the same columns do not.
    pub(crate) fn known(&mut self, alloc: Global, call: &Call, shapes: &Shapes) -> Known
        ensures same { self.new ≡ self.old }
        ensures known { AreKnown shapes.now self.old result call.now }
    {
        match call {
            Call::RemoveFiltered { table, at, values } => {
                self.known_by_filter(alloc, *table, *at, values.fields())
            }
            Call::UpdateFiltered {
                table,
                at,
                values,
                ..
            } => self.known_by_filter(alloc, *table, *at, values.fields()),
            Call::DeleteUser { name } => self.known_by_name(alloc, shapes, 0, name),
            Call::DeleteRole { name } => self.known_by_name(alloc, shapes, 1, name),
            Call::Add { .. }
            | Call::AddAll { .. }
            | Call::AddEx { .. }
            | Call::Remove { .. }
            | Call::RemoveAll { .. }
            | Call::Update { .. } => Known::none(),
        }
    }

    /// Places at which all rules of a relation stand that give a role, in one domain where one is named, as far as they can be known;
    /// others may be among them.
    pub(crate) fn known_users(
        &mut self,
        alloc: Global,
        relation: u8,
        role: &Text,
        domain: &Option<Text>,
    ) -> Option<Vec<u32>>
        requires columns { All (λ rule. named_columns (is_some domain.now) < length rule)
            (rows self.old (table_of.G relation)) }
        ensures same { self.new ≡ self.old }
        ensures found { IfSome result (λ places. FindAsked 1 role.now domain.now
            (rows self.old (table_of.G relation)) places.items) }
    {
        let Ok(values) = values_of(alloc, role, domain) else {
            return None;
        };
        self.places(alloc, TableId::G(relation), 1, values.as_slice())
    }

    // Where the rules of a table stand that fit a filter.
    fn known_by_filter(&mut self, alloc: Global, table: TableId, at: u32, values: &[Text]) -> Known
        ensures same { self.new ≡ self.old }
        ensures known { IfSome result.rules (FindFitting at values.now (rows self.old table)) }
    {
        let places = self.places(alloc, table, at, values);
        Known::new(places, None)
    }

    // Where the rules of a column of g stand that have a name, and those of p whose subject it is.
    fn known_by_name(&mut self, alloc: Global, shapes: &Shapes, column: u32, name: &Text) -> Known
        ensures same { self.new ≡ self.old }
        ensures links { IfSome result.rules
            (FindFitting column (name.now ∷ []) (rows self.old (table_of.G 1))) }
        ensures subjects { IfSome result.subjects
            (FindFitting shapes.now.subject_column (name.now ∷ []) (rows self.old table_of.P)) }
    {
        let values = slice::from_ref(name);
        let links = self.places(alloc, TableId::G(1), column, values);
        let subjects = self.places(alloc, TableId::P, shapes.subject_column, values);
        Known::new(links, subjects)
    }

    // Places at which all rules of a table stand that fit a filter; others may be among them.
    fn places(
        &mut self,
        alloc: Global,
        table: TableId,
        at: u32,
        values: &[Text],
    ) -> Option<Vec<u32>>
        ensures same { self.new ≡ self.old }
        ensures found { IfSome result (λ places.
            FindFitting at values.now (rows self.old table) places.items) }
    {
        self.finders.seek(alloc, &self.tables, table, at, values);
        self.finders.find(alloc, &self.tables, table, at, values)
    }
}

impl Share for Drafts {}

// A role, and a domain where one is named, as the values of a filter from the column of roles on.
fn values_of(alloc: Global, role: &Text, domain: &Option<Text>) -> Result<Vec<Text>, NoMemory>
    ensures { IfOk result (λ values. values.items ≡ asked_values role.now domain.now) }
{
    let mut values = value_of(alloc, role)?;
    let Some(named) = domain else {
        return Ok(values);
    };
    values.push(Text::from_str(alloc, named.as_str())?)?;
    Ok(values)
}

// One value.
fn value_of(alloc: Global, role: &Text) -> Result<Vec<Text>, NoMemory>
    ensures { IfOk result (λ values. values.items ≡ role.now ∷ []) }
{
    let mut values = Vec::with_capacity(alloc, 2)?;
    values.push(Text::from_str(alloc, role.as_str())?)?;
    Ok(values)
}

// Makes in tables what was prepared, and lets their finders follow. It cannot be refused: where memory for the finders runs out,
// they are let go.
fn make_all(alloc: Global, tables: &mut Tables, finders: &mut Finders, prepared: PreparedTables)
    requires tables { IsPreparedFor tables.old prepared }
    requires finders { AreFindersIn tables.old finders.old }
    ensures policy { tables.new.policy ≡ edited prepared tables.old.policy }
    ensures finders { AreFindersIn tables.new finders.new }
{
    for step in prepared.into_steps() {
        make_one(alloc, tables, finders, step);
    }
}

// Makes one step, the first of those that were prepared.
fn make_one(alloc: Global, tables: &mut Tables, finders: &mut Finders, step: TableStep)
    requires tables { (changes : List Change) × IsPreparedFor tables.old (step ∷ changes) }
    requires finders { AreFindersIn tables.old finders.old }
    ensures policy { tables.new.policy ≡ changed step tables.old.policy }
    ensures tables { (changes : List Change)
        → IsPreparedFor tables.old (step ∷ changes) → IsPreparedFor tables.new changes }
    ensures finders { AreFindersIn tables.new finders.new }
{
    finders.follow(alloc, step.change(), tables);
    tables.make(step);
}
