ghost use Rattle.std.specs.Prelude.{◌≡◌, ◌+◌, ◌≤◌, IfOk, OnErr, OnOk, drop, length, min};
ghost use Rattle.log_ship.specs.Followers.{IsSameState};
ghost use Rattle.log_ship.specs.Helps.Waits.{AreDrafts, next_front, next_run};
ghost use Rattle.log_ship.specs.Taken.{admitted, with_edits};
ghost use Rattle.policy_state.specs.States.{tables};
ghost use Rattle.version_log.specs.Log.{most_versions, versions};

use crate::waiting_edits::WaitingEdits;
use edit_calls::make_front;
use outside::NoMemory;
use policy_state::PolicyState;
use policy_table::{Edit, Tables};
use std::alloc::Global;

/// Appends the longest front of edits that a policy admits one after the other, all at once; how many. They are tried in drafts,
/// which are given up where memory runs out; the policy is then as before.
pub(crate) fn append_front(
    alloc: Global,
    state: &mut PolicyState,
    drafts: &mut Option<Tables>,
    edits: &[Edit],
) -> Result<usize, NoMemory>
    requires drafts { AreDrafts state.old drafts.old }
    requires few { versions state.old.log + length edits.now ≤ most_versions }
    ensures count { IfOk result (λ count. count
        ≡ length (admitted state.old.shapes (tables state.old) edits.now)) }
    ensures appended { OnOk result (IsSameState
        (with_edits (admitted state.old.shapes (tables state.old) edits.now) state.old) state.new) }
    ensures refused { OnErr result (IsSameState state.old state.new) }
    ensures drafts { AreDrafts state.new drafts.new }
{
    state.kept();
    let mut tables = drafts_of(alloc, state, drafts.take())?;
    let count = make_front(alloc, edits, &mut tables, state.shapes())?;
    let start = state.start();
    let prepared = state.prepare(alloc, &edits[..count], start)?;
    state.commit(prepared);
    *drafts = Some(tables);
    Ok(count)
}

// The drafts, or the policy's tables once more.
fn drafts_of(alloc: Global, state: &PolicyState, drafts: Option<Tables>) -> Result<Tables, NoMemory>
    requires { AreDrafts state.now drafts }
    ensures { IfOk result (λ made. made.policy ≡ tables state.now) }
{
    match drafts {
        Some(tables) => Ok(tables),
        None => state.tables().copy(alloc),
    }
}

/// Appends the edits that wait from the number of the next version on without a gap, up to the first that is not admitted, which is
/// dropped; how many are appended. Where memory runs out the policy and the edits that wait are as before.
pub(crate) fn advance(
    alloc: Global,
    state: &mut PolicyState,
    drafts: &mut Option<Tables>,
    waiting: &mut WaitingEdits,
) -> Result<usize, NoMemory>
    requires drafts { AreDrafts state.old drafts.old }
    requires few { versions state.old.log + length (next_run state.old waiting.old) ≤ most_versions }
    ensures count { IfOk result (λ count. count ≡ length (next_front state.old waiting.old)) }
    ensures appended { OnOk result (IsSameState
        (with_edits (next_front state.old waiting.old) state.old) state.new) }
    ensures waiting { OnOk result (waiting.new ≡ drop (min (length (next_front state.old waiting.old) + 1)
        (length (next_run state.old waiting.old))) waiting.old) }
    ensures refused { OnErr result (IsSameState state.old state.new) }
    ensures still_waiting { OnErr result (waiting.new ≡ waiting.old) }
    ensures drafts { AreDrafts state.new drafts.new }
{
    let run = waiting.run(state.version() + 1);
    let len = run.len();
    let count = append_front(alloc, state, drafts, run)?;
    waiting.drop_front(len.min(count.saturating_add(1)));
    Ok(count)
}
