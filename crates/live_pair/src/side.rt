//! The value of which there are two copies.
ghost use Rattle.std.specs.Prelude.{◌≡◌, ◌+◌, ◌≤◌, ◌++◌, ◌∷◌, [], IfSome, List, MatchBool, OnErr, OnOk, Some, length, true};
ghost use Rattle.live_pair.specs.Helps.Sides.{IsUpTo, ending, is_published};
ghost use Rattle.live_pair.specs.Story.{edits_in, publishes, unpublished};
ghost use Rattle.live_pair.specs.declared.edits.HistoryEvent.TheVariants.{Publish, Staged};
ghost use Rattle.edit_calls.specs.Admitted.{AreAdmitted};
ghost use Rattle.policy_state.specs.States.{StandsFor, tables};
ghost use Rattle.policy_table.specs.Tables.{Policy};
ghost use Rattle.policy_table.specs.declared.change.Change.{Change};
ghost use Rattle.version_log.specs.Log.{most_versions, versions};

use crate::book::Head;
use crate::edits::{Edits, HistoryEvent};
use crate::front::Front;
use crate::naming::Naming;
use crate::told::Told;
use left_right::Absorb;
use outside::NoMemory;
use policy_state::PolicyState;
use policy_table::Edit;
use std::alloc::{AllocError, Global};
use std::marker::Model;
use std::sync::Arc;

/// What goes to a copy: some further edits, and the history up to them.
#[derive(Drop)]
pub struct SideOp<J: Naming> {
    edits: Edits,
    told: Told<J>,
    ghost last: { ending told ≡ Some (Staged edits) },
}

/// A copy: a policy, and the history that it stands for. Contracts see the history.
#[derive(Drop)]
pub struct Side<J: Naming> {
    alloc: Global,
    state: PolicyState,
    told: Told<J>,
    head: Arc<Head<J>>,
    // Nothing was handed over since the last publish.
    published: bool,
}

impl<J: Naming> Model for Side<J> {
    ghost use Rattle.std.specs.Prelude.{◌≡◌, List};
    ghost use Rattle.live_pair.specs.declared.edits.HistoryEvent.{HistoryEvent};
    ghost use Rattle.live_pair.specs.Helps.Sides.{IsUpTo, is_published};

    ghost Value = { List HistoryEvent };

    ghost view = { λ s. s.told };

    ghost invariant = { λ s. IsUpTo J.shapes J.opening J.first s.told s.state
        × (s.published ≡ is_published s.told) };
}

impl<J: Naming> Absorb<SideOp<J>> for Side<J> {
    // A list of events.
    type State = [HistoryEvent; 0];

    ghost use Rattle.std.specs.Prelude.{◌++◌, ◌∷◌, []};
    ghost use Rattle.live_pair.specs.Helps.Sides.{closed};
    ghost use Rattle.live_pair.specs.declared.edits.HistoryEvent.TheVariants.{Publish};

    ghost state = { λ s. closed s };

    ghost applied = { λ _ operation. operation.told ++ Publish ∷ [] };

    /// The last operation of all makes the publish, at the moment when nothing can fail any more.
    fn absorb_first(&mut self, operation: &SideOp<J>, _other: &Side<J>) -> Result<(), AllocError> {
        self.take(operation)?;
        let _published = self.publish();
        Ok(())
    }

    /// The publish was made by the other copy.
    fn absorb_second(&mut self, operation: SideOp<J>, other: &Side<J>) -> Result<(), SideOp<J>> {
        let Ok(()) = self.take(&operation) else {
            return Err(operation);
        };
        let _published = self.follow(other);
        Ok(())
    }
}

impl<J: Naming> SideOp<J> {
    pub(crate) fn new(edits: Edits, told: Told<J>) -> SideOp<J>
        requires { ending told ≡ Some (Staged edits) }
        ensures { result.told ≡ told }
    {
        SideOp { edits, told }
    }
}

impl<J: Naming> Side<J> {
    pub(crate) fn new(
        alloc: Global,
        state: PolicyState,
        told: Told<J>,
        head: Arc<Head<J>>,
    ) -> Side<J>
        requires up_to { IsUpTo J.shapes J.opening J.first told state }
        requires published { true ≡ is_published told }
        ensures { result ≡ told }
    {
        Side {
            alloc,
            state,
            told,
            head,
            published: true,
        }
    }

    /// The history that it stands for.
    pub(crate) fn told(&self) -> &Told<J>
        ensures { result.now ≡ self.now }
    {
        &self.told
    }

    /// The policy, which stands for the history.
    pub(crate) fn state(&self) -> &PolicyState
        ensures { IsUpTo J.shapes J.opening J.first self.now result.now }
    {
        &self.state
    }

    /// The front that it stands for, if nothing was handed over since the last publish.
    pub(crate) fn front(&self) -> Option<Front<J>>
        ensures front { IfSome result (λ front. front ≡ publishes J.first self.now) }
        ensures whole { IfSome result (λ _. unpublished J.first self.now ≡ []) }
        ensures published { IfSome result (λ _. is_published self.now ≡ true) }
    {
        if !self.published {
            return None;
        }
        Some(Front::new(self.told.again()))
    }

    // Makes the edits, which are the next ones. The log keeps those that are in no publish yet.
    fn take(&mut self, operation: &SideOp<J>) -> Result<(), AllocError>
        ensures taken { OnOk result (self.new ≡ operation.now.told) }
        ensures refused { OnErr result (self.new ≡ self.old) }
    {
        if !self.told.is_one_short_of(&operation.told) {
            return Err(AllocError);
        }
        operation.told.kept();
        let edits = operation.edits.as_slice();
        let start = self.told.version();
        let Ok(()) = make(&mut self.state, self.alloc, edits, start) else {
            return Err(AllocError);
        };
        self.told = operation.told.again();
        self.published = false;
        Ok(())
    }

    // Makes a publish, unless the history went on, and says whether it did.
    fn publish(&mut self) -> bool
        ensures { MatchBool result (self.new ≡ self.old ++ Publish ∷ []) (self.new ≡ self.old) }
    {
        if self.published {
            return false;
        }
        let done = self.told.publish(&self.head);
        self.published = done;
        done
    }

    // Takes the publish that the other made, if it made one there, and says whether it did.
    fn follow(&mut self, other: &Side<J>) -> bool
        ensures { MatchBool result (self.new ≡ self.old ++ Publish ∷ []) (self.new ≡ self.old) }
    {
        if self.published {
            return false;
        }
        if !self.told.is_published_in(&other.told) {
            return false;
        }
        self.told = other.told.again();
        self.published = true;
        true
    }
}

/// Makes edits in a policy, all or none, and starts its log at a version.
pub(crate) fn make(
    state: &mut PolicyState,
    alloc: Global,
    edits: &[Edit],
    start: u32,
) -> Result<(), NoMemory>
    requires admitted { AreAdmitted state.old.shapes (tables state.old) edits.now }
    requires few { versions state.old.log + length edits.now ≤ most_versions }
    requires from { state.old.log.start ≤ start }
    requires until { start ≤ versions state.old.log }
    ensures shapes { state.new.shapes ≡ state.old.shapes }
    ensures start { OnOk result (state.new.log.start ≡ start) }
    ensures start_kept { OnErr result (state.new.log.start ≡ state.old.log.start) }
    ensures stands { OnOk result ((opening : Policy) (history : List (List Change))
        → StandsFor state.old opening history
        → StandsFor state.new opening (history ++ edits.now)) }
    ensures refused { OnErr result ((opening : Policy) (history : List (List Change))
        → StandsFor state.old opening history
        → StandsFor state.new opening history) }
{
    let prepared = state.prepare(alloc, edits, start)?;
    state.commit(prepared);
    Ok(())
}
