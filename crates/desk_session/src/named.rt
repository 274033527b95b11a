ghost use Rattle.std.specs.Prelude.{◌≡◌, IfOk};
ghost use Rattle.std.specs.Option.{option_copied};
ghost use Rattle.policy_state.specs.States.{tables};
ghost use Rattle.session_meaning.specs.Replies.{rule_at, rule_of};

use effect_fold::Verdict;
use outside::NoMemory;
use perm_base::{Rule, TableId};
use policy_state::PolicyState;
use std::alloc::Global;

/// The rule of the row of p that a verdict names, where it names one and is no fault; rows count from 1. It takes no memory.
pub fn named_rule(state: &PolicyState, verdict: Verdict) -> Option<&Rule>
    ensures { option_copied result ≡ rule_of (tables state.now) verdict }
{
    match verdict {
        Verdict::Allow(row) | Verdict::Deny(row) => rule_at(state, row),
        Verdict::Fault { .. } => None,
    }
}

/// The same rule once more.
pub(crate) fn copy_named(
    alloc: Global,
    state: &PolicyState,
    verdict: Verdict,
) -> Result<Option<Rule>, NoMemory>
    ensures { IfOk result (λ rule. rule ≡ rule_of (tables state.now) verdict) }
{
    let Some(rule) = named_rule(state, verdict) else {
        return Ok(None);
    };
    Ok(Some(rule.copy(alloc)?))
}

// The rule of a row of p.
fn rule_at(state: &PolicyState, row: Option<u32>) -> Option<&Rule>
    ensures { option_copied result ≡ rule_at (tables state.now) row }
{
    let row = row?;
    state.tables().get(TableId::P, row.saturating_sub(1))
}
