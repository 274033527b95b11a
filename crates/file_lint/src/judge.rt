ghost use Rattle.std.specs.Prelude.{◌≡◌, ◌≢◌, ◌++◌, ◌∷◌, [], IsSome, OnOk};
ghost use Rattle.perm_base.specs.Shapes.{AreValid};
ghost use Rattle.policy_csv.specs.Policy.{SaysRule, with_entry};
ghost use Rattle.policy_table.specs.Tables.{place};
ghost use Rattle.file_lint.specs.Nodes.{looked_in};
ghost use Rattle.file_lint.specs.RowWarnings.{AreLooked, RowFinds};
ghost use Rattle.file_lint.specs.PolicyErrors.{line_of, told_in};
ghost use Rattle.file_lint.specs.PolicyWords.{policy_error};
ghost use Rattle.file_lint.specs.Helps.Rows.{AreFewer, FindsMore, LineFinds, LineTells, row_line};

use crate::finding::Finding;
use crate::nodes::Looked;
use crate::order::in_order;
use crate::policy_words::policy_error;
use crate::row::{Row, push_own_warnings, repeat_warnings};
use crate::rows::push_looked;
use crate::wants::unless_policy_want;
use model_conf::Model;
use outside::NoMemory;
use perm_base::{Shapes, TableId};
use policy_csv::{Entry, PolicyFault, read_entry};
use policy_table::Tables;
use std::alloc::Global;
use text_parts::given_number;

/// What the rules of a policy are judged by.
#[derive(Clone, Copy)]
pub(crate) struct Judge<'a> {
    pub(crate) model: &'a Model,
    pub(crate) shapes: &'a Shapes,
    pub(crate) looked: &'a [Looked],
}

impl<'a> Judge<'a> {
    /// Pushes the findings of a line: the first fault of the text, where it is this line's, and else those that it has by itself.
    pub(crate) fn push_findings(
        &self,
        alloc: Global,
        first: Option<PolicyFault>,
        row: &Row<'_>,
        seen: &mut Tables,
        findings: &mut Vec<Finding>,
    ) -> Result<(), NoMemory>
        requires valid { AreValid self.now.shapes.now }
        requires looked { self.now.looked.now ≡ looked_in self.now.model.now }
        requires few { AreFewer seen.old.policy }
        ensures { OnOk result (LineTells self.now.model.now self.now.shapes.now first (row_line row.now)
            seen.old.policy seen.new.policy findings.old.items findings.new.items) }
    {
        let Some(why) = told_in(first, given_number(row.number)) else {
            return self.push_line(alloc, row, seen, findings);
        };
        let error = policy_error(alloc, self.model, why, row.number, row.text)?;
        findings.push(error)?;
        Ok(())
    }

    // Pushes the warnings of a line's rule, and keeps the rule, or pushes the line's own fault.
    fn push_line(
        &self,
        alloc: Global,
        row: &Row<'_>,
        seen: &mut Tables,
        findings: &mut Vec<Finding>,
    ) -> Result<(), NoMemory>
        requires valid { AreValid self.now.shapes.now }
        requires looked { self.now.looked.now ≡ looked_in self.now.model.now }
        requires few { AreFewer seen.old.policy }
        ensures { OnOk result (LineFinds self.now.model.now self.now.shapes.now (row_line row.now)
            seen.old.policy seen.new.policy findings.old.items findings.new.items) }
    {
        match read_entry(alloc, self.shapes, given_number(row.number), row.text) {
            Ok(entry) => self.push_entry(alloc, row, entry, seen, findings),
            Err(why) => self.push_fault(alloc, row, why, findings),
        }
    }

    // Pushes the warnings of a rule, and keeps it.
    fn push_entry(
        &self,
        alloc: Global,
        row: &Row<'_>,
        entry: Entry,
        seen: &mut Tables,
        findings: &mut Vec<Finding>,
    ) -> Result<(), NoMemory>
        requires valid { AreValid self.now.shapes.now }
        requires looked { self.now.looked.now ≡ looked_in self.now.model.now }
        requires few { AreFewer seen.old.policy }
        requires says { SaysRule self.now.shapes.now row.now.text.now entry }
        ensures kept { OnOk result (seen.new.policy ≡ with_entry entry seen.old.policy) }
        ensures finds { OnOk result (FindsMore
            (RowFinds self.now.model.now self.now.shapes.now seen.old.policy (row_line row.now) entry)
            findings.old.items findings.new.items) }
    {
        self.push_rule(alloc, row, &entry, seen, findings)?;
        keep(seen, entry)?;
        Ok(())
    }

    // Pushes the own fault of a line, unless the line was not read for want of memory.
    fn push_fault(
        &self,
        alloc: Global,
        row: &Row<'_>,
        why: PolicyFault,
        findings: &mut Vec<Finding>,
    ) -> Result<(), NoMemory>
        ensures known { OnOk result (why ≢ PolicyFault.NoMemory) }
        ensures grown { OnOk result (findings.new.items ≡ findings.old.items
            ++ policy_error self.now.model.now why (row_line row.now) ∷ []) }
    {
        unless_policy_want(why)?;
        let error = policy_error(alloc, self.model, why, row.number, row.text)?;
        findings.push(error)?;
        Ok(())
    }

    // Pushes the warnings of a rule, in the order of their columns.
    fn push_rule(
        &self,
        alloc: Global,
        row: &Row<'_>,
        entry: &Entry,
        seen: &Tables,
        findings: &mut Vec<Finding>,
    ) -> Result<(), NoMemory>
        requires { self.now.looked.now ≡ looked_in self.now.model.now }
        ensures { OnOk result (FindsMore
            (RowFinds self.now.model.now self.now.shapes.now seen.now.policy (row_line row.now) entry.now)
            findings.old.items findings.new.items) }
    {
        let mut found = repeat_warnings(alloc, seen, row, entry)?;
        let effect = self.model.effect();
        push_own_warnings(alloc, effect, self.shapes, seen, row, entry, &mut found)?;
        self.push_held_fields(alloc, row, entry, &mut found)?;
        let ordered = in_order(alloc, found)?;
        push_all(findings, ordered)
    }

    // Pushes what the fields of a rule of p surprise by that the matcher takes for something.
    fn push_held_fields(
        &self,
        alloc: Global,
        row: &Row<'_>,
        entry: &Entry,
        found: &mut Vec<Finding>,
    ) -> Result<(), NoMemory>
        requires { self.now.looked.now ≡ looked_in self.now.model.now }
        ensures { OnOk result (FindsMore
            (AreLooked self.now.model.now (row_line row.now) entry.now.rule entry.now.table)
            found.old.items found.new.items) }
    {
        match entry.table {
            TableId::P => { push_looked(alloc, self.model, self.looked, row, &entry.rule, found) }
            TableId::G(_) => Ok(()),
        }
    }
}

// Keeps a rule, unless it stands.
fn keep(seen: &mut Tables, entry: Entry) -> Result<(), NoMemory>
    requires few { AreFewer seen.old.policy }
    requires table { IsSome (place entry.table) }
    ensures { OnOk result (seen.new.policy ≡ with_entry entry seen.old.policy) }
{
    let Entry { table, rule } = entry;
    seen.insert(table, rule)?;
    Ok(())
}

// Pushes findings behind others.
fn push_all(findings: &mut Vec<Finding>, more: Vec<Finding>) -> Result<(), NoMemory>
    ensures { OnOk result (findings.new.items ≡ findings.old.items ++ more.items) }
{
    for found in more {
        findings.push(found)?;
    }
    Ok(())
}

// The first fault, where it is that of the line of this number.
fn told_in(first: Option<PolicyFault>, number: u32) -> Option<PolicyFault>
    ensures { result ≡ told_in first number }
{
    let first = first?;
    let at = line_of(first)?;
    if at == number { Some(first) } else { None }
}

fn line_of(fault: PolicyFault) -> Option<u32>
    ensures { result ≡ line_of fault }
{
    match fault {
        PolicyFault::NotUtf8 | PolicyFault::NoMemory => None,
        PolicyFault::Quote { line, .. }
        | PolicyFault::UnknownTable { line }
        | PolicyFault::Columns { line }
        | PolicyFault::FieldTooLong { line }
        | PolicyFault::Full { line, .. } => Some(line),
    }
}
