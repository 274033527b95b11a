ghost use Rattle.std.specs.Prelude.{◌≡◌, [], ◌∷◌, ◌++◌, List, ℕ, IfNone, IfOk, IfSome, OnOk};
ghost use Rattle.policy_table.specs.Helps.Domains.{AreCounted, CanCount};
ghost use Rattle.policy_table.specs.Helps.Moves.{moved, moved_domains};
ghost use Rattle.policy_table.specs.Limits.{domains_of};

use crate::change::Change;
use crate::domains::{Domains, domain_or};
use outside::{NoMemory, Share, Text};
use perm_base::{Rule, TableId};
use std::alloc::Global;

/// Into a table, or out of it.
#[derive(Clone, Copy)]
pub(crate) enum Way {
    In,
    Out,
}

impl Share for Way {}

/// The domains of the rules that changes put into a table, or take out of it.
pub(crate) fn moved_domains(
    alloc: Global,
    changes: &[Change],
    way: Way,
    table: TableId,
) -> Result<Domains, NoMemory>
    ensures { IfOk result (AreCounted (moved_domains way table changes.now)) }
{
    let mut domains = Domains::new(alloc);
    let blank = Text::from_string(String::new(alloc));
    for change in changes {
        add_moved(&mut domains, change, way, table, &blank)?;
    }
    Ok(domains)
}

// Counts the domain of the rule that a change puts into a table, or takes out of it, where a text without bytes is at hand.
fn add_moved(
    domains: &mut Domains,
    change: &Change,
    way: Way,
    table: TableId,
    blank: &Text,
) -> Result<(), NoMemory>
    requires few { CanCount domains.old }
    requires blank { blank.now ≡ [] }
    ensures { OnOk result ((texts : List (List ℕ)) → AreCounted texts domains.old
        → AreCounted (domains_of (moved way table change.now) ++ texts) domains.new) }
{
    match moved_rule(change, way, table) {
        Some(rule) => domains.add(domain_or(rule, blank)),
        None => Ok(()),
    }
}

// The rule that a change puts into a table, or takes out of it.
fn moved_rule(change: &Change, way: Way, table: TableId) -> Option<&Rule>
    ensures some { IfSome result (λ rule. moved way table change.now ≡ rule.now ∷ []) }
    ensures none { IfNone result (moved way table change.now ≡ []) }
{
    if change.table() != table {
        return None;
    }
    match (way, change) {
        (Way::In, Change::Insert { rule, .. }) => Some(rule),
        (Way::In, Change::Replace { new, .. }) => Some(new),
        (Way::Out, Change::Remove { rule, .. }) => Some(rule),
        (Way::Out, Change::Replace { old, .. }) => Some(old),
        _ => None,
    }
}
