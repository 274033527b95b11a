//! Which rules come and go by changes.

ghost use Rattle.std.specs.Prelude.{◌≡◌, ◌++◌, Bool, IfOk, OnOk, filter, if◌then◌else◌};
ghost use Rattle.std.specs.List.{IsDistinct};
ghost use Rattle.std.specs.Map.{keys_of};
ghost use Rattle.perm_base.specs.declared.shapes.TableId.{TableId};
ghost use Rattle.policy_table.specs.Changes.{flat, is_table, own};
ghost use Rattle.policy_table.specs.Tables.{Fields, rows, same, stands};
ghost use Rattle.role_domain.specs.Helps.Turns.{said_of, stands_after, stands_behind, turns};

use indexmap::IndexMap;
use outside::NoMemory;
use perm_base::{Rule, TableId};
use policy_table::{Change, Edit, Tables};
use std::alloc::Global;

/// The rules that changes name, each with whether it stands behind them.
pub(crate) type Standings = IndexMap<Rule, bool>;

/// What is said last of the rules of a table that edits name.
pub(crate) fn said(alloc: Global, table: TableId, edits: &[Edit]) -> Result<Standings, NoMemory>
    ensures { IfOk result (λ said. (rule : Fields) (stood : Bool)
        → said_of said.entries rule stood
        ≡ stands_after (own table (flat edits.now)) rule stood) }
{
    let mut said = IndexMap::new(alloc);
    for edit in edits {
        say_own(alloc, &mut said, table, edit.as_slice())?;
    }
    Ok(said)
}

/// Whether a rule stands, as was said last of it, or else as it stood.
pub(crate) fn stands_now(said: &Standings, rule: &Rule, stood: bool) -> bool
    ensures { result ≡ said_of said.now.entries rule.now stood }
{
    said.get(rule).copied().unwrap_or(stood)
}

/// The rules of a table that come, or that go.
pub(crate) fn moved(
    alloc: Global,
    tables: &Tables,
    table: TableId,
    said: &Standings,
    comes: bool,
) -> Result<Vec<Rule>, NoMemory>
    ensures rules { IfOk result (λ rules. rules.items ≡ filter (λ rule.
        turns comes (stands rule (rows tables.now.policy table))
        (said_of said.now.entries rule (stands rule (rows tables.now.policy table))))
        (keys_of said.now.entries)) }
    ensures once { IsDistinct same (keys_of said.now.entries) }
{
    let mut rules = Vec::new(alloc);
    for rule in said.keys().as_slice() {
        let stood = tables.has(table, rule);
        if turns(comes, stood, stands_now(said, rule, stood)) {
            rules.push(rule.copy(alloc)?)?;
        }
    }
    Ok(rules)
}

// Whether a rule comes, or goes.
fn turns(comes: bool, before: bool, after: bool) -> bool
    ensures { result ≡ turns comes before after }
{
    if comes {
        after && !before
    } else {
        before && !after
    }
}

// What the changes of a table among these say of rules.
fn say_own(
    alloc: Global,
    said: &mut Standings,
    table: TableId,
    changes: &[Change],
) -> Result<(), NoMemory>
    ensures { OnOk result ((rule : Fields) (stood : Bool) → said_of said.new.entries rule stood
        ≡ stands_after (own table changes.now) rule (said_of said.old.entries rule stood)) }
{
    for change in changes {
        if !is_table(table, change.table()) {
            continue;
        }
        say(alloc, said, change)?;
    }
    Ok(())
}

// Whether two names are of one table.
fn is_table(table: TableId, other: TableId) -> bool
    ensures { result ≡ is_table table other }
{
    match table {
        TableId::P => matches!(other, TableId::P),
        TableId::G(number) => is_relation(number, other),
    }
}

fn is_relation(number: u8, other: TableId) -> bool
    ensures { result ≡ is_table (TableId.G number) other }
{
    match other {
        TableId::P => false,
        TableId::G(found) => number == found,
    }
}

// What a change says of rules.
fn say(alloc: Global, said: &mut Standings, change: &Change) -> Result<(), NoMemory>
    ensures { OnOk result ((rule : Fields) (stood : Bool) → said_of said.new.entries rule stood
        ≡ stands_behind change.now rule (said_of said.old.entries rule stood)) }
{
    match change {
        Change::Insert { rule, .. } => say_rule(alloc, said, rule, true),
        Change::Remove { rule, .. } => say_rule(alloc, said, rule, false),
        Change::Replace { old, new, .. } => {
            say_rule(alloc, said, old, false)?;
            say_rule(alloc, said, new, true)
        }
    }
}

fn say_rule(alloc: Global, said: &mut Standings, rule: &Rule, stands: bool) -> Result<(), NoMemory>
    ensures { OnOk result ((other : Fields) (stood : Bool) → said_of said.new.entries other stood
        ≡ (if same rule.now other then stands else said_of said.old.entries other stood)) }
{
    let _before = said.insert(rule.copy(alloc)?, stands)?;
    Ok(())
}
