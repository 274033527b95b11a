ghost use Rattle.std.specs.Prelude.{◌≡◌, IfOk};
ghost use Rattle.std.specs.Arc.{arc_value};
ghost use Rattle.policy_desk.specs.Transitions.{IsSame};
ghost use Rattle.enforce_core.specs.Called.{CallsTo, PublishesTo};
ghost use Rattle.enforce_core.specs.Helps.Held.{place_of};
ghost use Rattle.enforce_core.specs.Places.{state_at};

use crate::calls::{call_at, publish_at};
use crate::stops::{CallStop, Called};
use outside::NoMemory;
use policy_desk::Desk;
use policy_state::PolicyState;
use std::alloc::Global;
use std::ops::Deref;
use std::sync::Arc;

/// By what an enforcer judges: what its desk has published, or a policy that stays as it is.
#[derive(Drop)]
pub(crate) enum Place {
    Owned(Desk),
    Shared(Arc<PolicyState>),
}

impl Place {
    /// The policy.
    pub(crate) fn state(&self) -> &PolicyState
        ensures { result.now ≡ state_at (place_of self.now) }
    {
        match self {
            Place::Owned(desk) => desk.state(),
            Place::Shared(state) => state.deref(),
        }
    }

    /// The policy for one more owner: a copy of what a desk has published, and else the same one.
    pub(crate) fn shared(&self, alloc: Global) -> Result<Arc<PolicyState>, NoMemory>
        ensures { IfOk result (λ state.
            IsSame (state_at (place_of self.now)) (arc_value state)) }
    {
        match self {
            Place::Owned(desk) => copy_published(alloc, desk),
            Place::Shared(state) => share(state),
        }
    }

    /// Does the one item that a text says, where it is a desk.
    pub(crate) fn call(&mut self, alloc: Global, text: &[u8]) -> Result<Called, CallStop>
        ensures ends { CallsTo (place_of self.old) (place_of self.new) text.now result }
        ensures shapes { (state_at (place_of self.new)).shapes
            ≡ (state_at (place_of self.old)).shapes }
    {
        match self {
            Place::Owned(desk) => call_at(alloc, desk, text),
            Place::Shared(_) => Err(CallStop::Snapshot),
        }
    }

    /// Publishes the pending edits, where it is a desk.
    pub(crate) fn publish(&mut self, alloc: Global) -> Result<u32, CallStop>
        ensures ends { PublishesTo (place_of self.old) (place_of self.new) result }
        ensures shapes { (state_at (place_of self.new)).shapes
            ≡ (state_at (place_of self.old)).shapes }
    {
        match self {
            Place::Owned(desk) => publish_at(alloc, desk),
            Place::Shared(_) => Err(CallStop::Snapshot),
        }
    }
}

// A copy of what a desk has published.
fn copy_published(alloc: Global, desk: &Desk) -> Result<Arc<PolicyState>, NoMemory>
    ensures { IfOk result (λ state. IsSame desk.now.state (arc_value state)) }
{
    let copy = desk.state().copy(alloc)?;
    let state = Arc::new(alloc, copy)?;
    Ok(state)
}

// The same policy for one more owner. It takes no memory.
fn share(state: &Arc<PolicyState>) -> Result<Arc<PolicyState>, NoMemory>
    ensures { IfOk result (λ other. IsSame (arc_value state.now) (arc_value other)) }
{
    let other = Arc::try_clone(state)?;
    Ok(other)
}
