ghost use Rattle.std.specs.Prelude.{◌≡◌};
ghost use Rattle.enforce_core.specs.Asked.{Asks, ReadsLine, ReadsTexts};
ghost use Rattle.enforce_core.specs.Places.{state_at};
ghost use Rattle.enforce_core.specs.Seen.{OnlyAsked};
ghost use Rattle.casbin_c.specs.Codes.{closed};
ghost use Rattle.casbin_c.specs.Handles.{Uses};
ghost use Rattle.casbin_c.specs.Told.{TellsAnswer};

use crate::codes::CLOSED;
use crate::decisions::{Decision, tell};
use crate::handle::Handle;
use std::alloc::Global;

/// Judges a request by the published policy, or by the policy of a snapshot: its texts lie one behind the other in `bytes`, and
/// `ends` are the places where they end (Casbin, enforce).
#[unsafe(no_mangle)]
pub extern "C" fn casbin_enforce(
    alloc: Global,
    handle: &mut Handle,
    bytes: &[u8],
    ends: &[usize],
    decision: &mut Decision,
) -> u32
    ensures { Uses handle.old.held.inside handle.new.held.inside
        ((result ≡ closed) × (decision.new ≡ decision.old))
        (λ old new. OnlyAsked old new × TellsAnswer
        (Asks (ReadsTexts bytes.now ends.now) old.model (state_at old.place)
        old.refusals new.refusals) result decision.old decision.new) }
{
    let Some(mut enforcer) = handle.take(alloc) else {
        return CLOSED;
    };
    let answered = enforcer.enforce(alloc, bytes, ends);
    handle.give(enforcer);
    tell(answered, decision)
}

/// The same for the request that a line of JSON is.
#[unsafe(no_mangle)]
pub extern "C" fn casbin_enforce_json(
    alloc: Global,
    handle: &mut Handle,
    line: &[u8],
    decision: &mut Decision,
) -> u32
    ensures { Uses handle.old.held.inside handle.new.held.inside
        ((result ≡ closed) × (decision.new ≡ decision.old))
        (λ old new. OnlyAsked old new × TellsAnswer
        (Asks (ReadsLine line.now) old.model (state_at old.place)
        old.refusals new.refusals) result decision.old decision.new) }
{
    let Some(mut enforcer) = handle.take(alloc) else {
        return CLOSED;
    };
    let answered = enforcer.enforce_json(alloc, line);
    handle.give(enforcer);
    tell(answered, decision)
}
