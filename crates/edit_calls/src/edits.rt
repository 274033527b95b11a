ghost use Rattle.std.specs.Prelude.{◌≡◌, ◌+◌, ◌<◌, ◌≤◌, ◌++◌, ◌∷◌, [], ◌||◌, All, IfOk, IfSome, OnOk, Some, filter, length, map, not, option_copied};
ghost use Rattle.edit_calls.specs.Edits.{edit_by, fitting, has_repeat, inserts, is_empty, one_is_absent, one_stands, one_stays, removes, rows_with, unless, without_name};
ghost use Rattle.edit_calls.specs.Found.{AreKnown, FindFitting};
ghost use Rattle.edit_calls.specs.Helps.Kept.{AreFitted};
ghost use Rattle.perm_base.specs.declared.shapes.TableId.TheVariants as tables_of;
ghost use Rattle.policy_table.specs.Tables.{rows, stands};
ghost use Rattle.policy_table.specs.declared.change.Change.TheVariants as change;

use crate::call::{Call, Pairs};
use crate::changes::{
    inserts, inserts_absent, push_inserts, push_removes_at, push_removes_with, removes,
    removes_fitting, removes_fitting_at, replaces,
};
use crate::known::Known;
use crate::listed::{News, Olds, RuleList};
use crate::named::{has_repeat, one_is_absent, one_stands, one_stays};
use outside::{NoMemory, Text};
use perm_base::{Rule, Rules, Shapes, TableId};
use policy_table::{Change, Edit, Tables};
use std::alloc::Global;

/// What a call changes, by the table's rules; none where it changes nothing.
pub(crate) fn edit_by(
    alloc: Global,
    call: &Call,
    tables: &Tables,
    shapes: &Shapes,
    known: &Known,
) -> Result<Option<Edit>, NoMemory>
    requires fitted { AreFitted shapes.now tables.now.policy call.now }
    requires known { AreKnown shapes.now tables.now.policy known.now call.now }
    ensures { IfOk result (λ edit. edit ≡ edit_by shapes.now tables.now.policy call.now) }
{
    let maker = EditMaker { alloc, tables };
    let places = known.rules();
    match call {
        Call::Add { table, rule } => maker.add(*table, rule),
        Call::AddAll { table, rules } => maker.add_all(*table, rules),
        Call::AddEx { table, rules } => maker.add_absent(*table, rules),
        Call::Remove { table, rule } => maker.remove(*table, rule),
        Call::RemoveAll { table, rules } => maker.remove_all(*table, rules),
        Call::Update { table, pairs } => maker.update(*table, pairs),
        Call::RemoveFiltered { table, at, values } => {
            maker.remove_filtered(*table, *at, values, places)
        }
        Call::UpdateFiltered {
            table,
            at,
            values,
            rules,
        } => maker.update_filtered(*table, *at, values, rules, places),
        Call::DeleteUser { name } => maker.delete_name(shapes, 0, name, known),
        Call::DeleteRole { name } => maker.delete_name(shapes, 1, name, known),
    }
}

// What edits are made with: the memory, and the tables as they stand.
#[derive(Clone, Copy)]
struct EditMaker<'a> {
    alloc: Global,
    tables: &'a Tables,
}

impl<'a> EditMaker<'a> {
    fn add(&self, table: TableId, rule: &Rule) -> Result<Option<Edit>, NoMemory>
        ensures { IfOk result (λ edit. edit ≡ unless
            (stands rule.now (rows self.now.tables.now.policy table))
            (inserts table (rule.now ∷ []))) }
    {
        if self.tables.has(table, rule) {
            return Ok(None);
        }
        let rule = rule.copy(self.alloc)?;
        one_change(self.alloc, Change::Insert { table, rule })
    }

    fn add_all(&self, table: TableId, rules: &Rules) -> Result<Option<Edit>, NoMemory>
        ensures { IfOk result (λ edit. edit ≡ unless
            (is_empty rules.now || has_repeat rules.now
            || one_stands rules.now (rows self.now.tables.now.policy table))
            (inserts table rules.now)) }
    {
        if rules.len() == 0
            || has_repeat(self.alloc, rules)?
            || one_stands(self.tables, table, rules)
        {
            return Ok(None);
        }
        Ok(Some(Edit::from_vec(inserts(self.alloc, table, rules.as_slice())?)))
    }

    fn add_absent(&self, table: TableId, rules: &Rules) -> Result<Option<Edit>, NoMemory>
        ensures { IfOk result (λ edit. edit ≡ unless
            (has_repeat rules.now
            || not (one_is_absent rules.now (rows self.now.tables.now.policy table)))
            (inserts table
            (filter (λ rule. not (stands rule (rows self.now.tables.now.policy table)))
            rules.now))) }
    {
        if has_repeat(self.alloc, rules)? {
            return Ok(None);
        }
        Ok(unless_empty(inserts_absent(self.alloc, self.tables, table, rules.as_slice())?))
    }

    fn remove(&self, table: TableId, rule: &Rule) -> Result<Option<Edit>, NoMemory>
        ensures { IfOk result (λ edit. edit ≡ unless
            (not (stands rule.now (rows self.now.tables.now.policy table)))
            (removes table (rule.now ∷ []))) }
    {
        if !self.tables.has(table, rule) {
            return Ok(None);
        }
        let rule = rule.copy(self.alloc)?;
        one_change(self.alloc, Change::Remove { table, rule })
    }

    fn remove_all(&self, table: TableId, rules: &Rules) -> Result<Option<Edit>, NoMemory>
        ensures { IfOk result (λ edit. edit ≡ unless
            (is_empty rules.now || has_repeat rules.now
            || one_is_absent rules.now (rows self.now.tables.now.policy table))
            (removes table rules.now)) }
    {
        if rules.len() == 0
            || has_repeat(self.alloc, rules)?
            || one_is_absent(self.tables, table, rules)
        {
            return Ok(None);
        }
        Ok(Some(Edit::from_vec(removes(self.alloc, table, rules.as_slice())?)))
    }

    fn update(&self, table: TableId, pairs: &Pairs) -> Result<Option<Edit>, NoMemory>
        ensures { IfOk result (λ edit. edit ≡ unless
            (is_empty pairs.now
            || one_is_absent (map (λ pair. pair.0) pairs.now)
            (rows self.now.tables.now.policy table)
            || one_stands (map (λ pair. pair.1) pairs.now) (rows self.now.tables.now.policy table)
            || has_repeat (map (λ pair. pair.0) pairs.now)
            || has_repeat (map (λ pair. pair.1) pairs.now))
            (map (λ pair. change.Replace table pair.0 pair.1) pairs.now)) }
    {
        let olds = Olds(pairs);
        let news = News(pairs);
        if pairs.len() == 0
            || one_is_absent(self.tables, table, &olds)
            || one_stands(self.tables, table, &news)
            || has_repeat(self.alloc, &olds)?
            || has_repeat(self.alloc, &news)?
        {
            return Ok(None);
        }
        Ok(Some(Edit::from_vec(replaces(self.alloc, table, pairs.as_slice())?)))
    }

    fn remove_filtered(
        &self,
        table: TableId,
        at: u32,
        values: &Rule,
        places: Option<&[u32]>,
    ) -> Result<Option<Edit>, NoMemory>
        requires fitted { All (λ rule. at + length values.now ≤ length rule)
            (rows self.now.tables.now.policy table) }
        requires known { IfSome (option_copied places)
            (FindFitting at values.now (rows self.now.tables.now.policy table)) }
        ensures { IfOk result (λ edit. edit ≡ unless
            (is_empty (fitting at values.now (rows self.now.tables.now.policy table)))
            (removes table (fitting at values.now (rows self.now.tables.now.policy table)))) }
    {
        let changes = self.removes_fitting(table, at, values, places)?;
        Ok(unless_empty(changes))
    }

    // The changes that take the rules out of a table that fit a filter, which stand at these places where they are known.
    fn removes_fitting(
        &self,
        table: TableId,
        at: u32,
        values: &Rule,
        places: Option<&[u32]>,
    ) -> Result<Vec<Change>, NoMemory>
        requires fitted { All (λ rule. at + length values.now ≤ length rule)
            (rows self.now.tables.now.policy table) }
        requires known { IfSome (option_copied places)
            (FindFitting at values.now (rows self.now.tables.now.policy table)) }
        ensures { IfOk result (λ changes. changes.items ≡ removes table
            (fitting at values.now (rows self.now.tables.now.policy table))) }
    {
        let (alloc, tables) = (self.alloc, self.tables);
        match places {
            Some(places) => removes_fitting_at(alloc, tables, table, places, at, values),
            None => removes_fitting(alloc, table, tables.rows(table), at, values),
        }
    }

    fn update_filtered(
        &self,
        table: TableId,
        at: u32,
        values: &Rule,
        rules: &Rules,
        places: Option<&[u32]>,
    ) -> Result<Option<Edit>, NoMemory>
        requires fitted { All (λ rule. at + length values.now ≤ length rule)
            (rows self.now.tables.now.policy table) }
        requires known { IfSome (option_copied places)
            (FindFitting at values.now (rows self.now.tables.now.policy table)) }
        ensures { IfOk result (λ edit. edit ≡ unless
            (is_empty (fitting at values.now (rows self.now.tables.now.policy table))
            || has_repeat rules.now
            || one_stays at values.now rules.now (rows self.now.tables.now.policy table))
            (removes table (fitting at values.now (rows self.now.tables.now.policy table))
            ++ inserts table rules.now)) }
    {
        let mut changes = self.removes_fitting(table, at, values, places)?;
        if changes.is_empty()
            || has_repeat(self.alloc, rules)?
            || one_stays(self.tables, table, at, values, rules)
        {
            return Ok(None);
        }
        push_inserts(self.alloc, &mut changes, table, rules.as_slice())?;
        Ok(Some(Edit::from_vec(changes)))
    }

    // Removes the rules of a column of g that have a name, and then those of p whose subject it is.
    fn delete_name(
        &self,
        shapes: &Shapes,
        column: u32,
        name: &Text,
        known: &Known,
    ) -> Result<Option<Edit>, NoMemory>
        requires g { All (λ rule. column < length rule)
            (rows self.now.tables.now.policy (tables_of.G 1)) }
        requires p { All (λ rule. shapes.now.subject_column < length rule)
            (rows self.now.tables.now.policy tables_of.P) }
        requires links { IfSome known.now.rules (FindFitting column (name.now ∷ [])
            (rows self.now.tables.now.policy (tables_of.G 1))) }
        requires subjects { IfSome known.now.subjects
            (FindFitting shapes.now.subject_column (name.now ∷ [])
            (rows self.now.tables.now.policy tables_of.P)) }
        ensures { IfOk result (λ edit. edit ≡ unless
            (is_empty (without_name column shapes.now self.now.tables.now.policy name.now))
            (without_name column shapes.now self.now.tables.now.policy name.now)) }
    {
        let mut changes = Vec::new(self.alloc);
        let g = TableId::G(1);
        self.push_removes(&mut changes, g, column, name, known.rules())?;
        let p = TableId::P;
        let subject = shapes.subject_column;
        self.push_removes(&mut changes, p, subject, name, known.subjects())?;
        Ok(unless_empty(changes))
    }

    // Puts behind changes those that take the rules out of a table that have a name in a column, which stand at these places where
    // they are known.
    fn push_removes(
        &self,
        changes: &mut Vec<Change>,
        table: TableId,
        column: u32,
        name: &Text,
        places: Option<&[u32]>,
    ) -> Result<(), NoMemory>
        requires columns { All (λ rule. column < length rule)
            (rows self.now.tables.now.policy table) }
        requires known { IfSome (option_copied places) (FindFitting column (name.now ∷ [])
            (rows self.now.tables.now.policy table)) }
        ensures { OnOk result (changes.new.items ≡ changes.old.items ++ removes table
            (rows_with column name.now (rows self.now.tables.now.policy table))) }
    {
        let (alloc, tables) = (self.alloc, self.tables);
        let name = name.bytes();
        match places {
            Some(places) => push_removes_at(alloc, changes, tables, table, places, column, name),
            None => push_removes_with(alloc, changes, table, tables.rows(table), column, name),
        }
    }
}

// The edit of one change.
fn one_change(alloc: Global, change: Change) -> Result<Option<Edit>, NoMemory>
    ensures { IfOk result (λ edit. edit ≡ Some (change ∷ [])) }
{
    let mut changes = Vec::with_capacity(alloc, 1)?;
    changes.push(change)?;
    Ok(Some(Edit::from_vec(changes)))
}

// The edit of changes, where there are some.
fn unless_empty(changes: Vec<Change>) -> Option<Edit>
    ensures { result ≡ unless (is_empty changes.items) changes.items }
{
    if changes.is_empty() {
        None
    } else {
        Some(Edit::from_vec(changes))
    }
}
