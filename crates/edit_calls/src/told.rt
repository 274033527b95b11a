ghost use Rattle.std.specs.Prelude.{◌≡◌, IfOk, OnOk, Some, true};
ghost use Rattle.edit_calls.specs.Helps.ToldRules.{AreTold, TellsOf, stands_told};
ghost use Rattle.policy_table.specs.Changes.{changed, is_possible};
ghost use Rattle.policy_table.specs.Tables.{Policy, place};

use indexmap::IndexMap;
use outside::NoMemory;
use perm_base::{Rule, TableId};
use policy_table::{Change, Tables};

const TABLES: u8 = 9;

/// Whether rules stand behind changes that are told and not made, each by the place of its table. It is as large as the
/// changes.
pub(crate) type Told<'a> = IndexMap<(u8, &'a Rule), bool>;

/// Whether a change is possible behind those that are told. If it is, it is told too.
pub(crate) fn tell_change<'a>(
    told: &mut Told<'a>,
    tables: &Tables,
    change: &'a Change,
) -> Result<bool, NoMemory>
    ensures possible { IfOk result (λ possible. (after : Policy)
        → AreTold told.old.entries tables.now.policy after
        → possible ≡ is_possible change.now after) }
    ensures told { IfOk result (λ possible. possible ≡ true → (after : Policy)
        → AreTold told.old.entries tables.now.policy after
        → AreTold told.new.entries tables.now.policy (changed change.now after)) }
{
    let table = change.table();
    let Some(at) = place(table) else {
        return Ok(false);
    };
    match change {
        Change::Insert { rule, .. } => Ok(!tell_rule(told, tables, table, at, rule, true)?),
        Change::Remove { rule, .. } => Ok(tell_rule(told, tables, table, at, rule, false)?),
        Change::Replace { old, new, .. } => {
            if old == new {
                return Ok(false);
            }
            if !tell_rule(told, tables, table, at, old, false)? {
                return Ok(false);
            }
            Ok(!tell_rule(told, tables, table, at, new, true)?)
        }
    }
}

// Whether a rule stands behind the changes that are told, and tells whether it does from here on.
fn tell_rule<'a>(
    told: &mut Told<'a>,
    tables: &Tables,
    table: TableId,
    at: u8,
    rule: &'a Rule,
    standing: bool,
) -> Result<bool, NoMemory>
    ensures stood { IfOk result (λ stood.
        stood ≡ stands_told told.old.entries tables.now.policy table at rule.now) }
    ensures told { OnOk result (TellsOf at rule.now standing told.old.entries told.new.entries) }
{
    match told.insert((at, rule), standing)? {
        Some(stood) => Ok(stood),
        None => Ok(tables.has(table, rule)),
    }
}

// The place of a table among the nine.
fn place(table: TableId) -> Option<u8>
    ensures { result ≡ place table }
{
    match table {
        TableId::P => Some(0),
        TableId::G(number) if 0 < number && number < TABLES => Some(number),
        TableId::G(_) => None,
    }
}
