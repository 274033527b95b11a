//! What was handed over to the copies.
ghost use Rattle.std.specs.Prelude.{◌≡◌, ◌++◌, ◌∷◌, [], IfNone, IfSome, List, MatchResult, OnOk, drop, fold};
ghost use mathlib.Core.List.{IsPrefix};
ghost use Rattle.live_pair.specs.Helps.Sides.{closed};
ghost use Rattle.live_pair.specs.Story.{edits_in, publishes, unpublished};
ghost use Rattle.live_pair.specs.declared.edits.HistoryEvent.{HistoryEvent};
ghost use Rattle.live_pair.specs.declared.edits.HistoryEvent.TheVariants.{Publish};
ghost use Rattle.policy_state.specs.States.{StandsFor};

use crate::book::Head;
use crate::edits::Edits;
use crate::front::Front;
use crate::naming::Naming;
use crate::side::{Side, SideOp};
use crate::told::Told;
use core::mem::replace_with;
use crossbeam_utils::rule::Unruled;
use left_right::writer::Writer;
use outside::NoMemory;
use policy_desk::Desk;
use std::alloc::{AllocError, Global};
use std::marker::Model;
use std::sync::{Arc, Wait};

pub type SideWriter<J> = Writer<Side<J>, SideOp<J>, (), Unruled>;

/// Copies of which readers take one.
pub trait Shows {
    ghost use Rattle.std.specs.Prelude.{List};
    ghost use Rattle.live_pair.specs.declared.edits.HistoryEvent.{HistoryEvent};

    /// The history of the copy that readers take.
    ghost shown: { Self → List HistoryEvent };
}

impl<J: Naming> Shows for SideWriter<J> {
    ghost shown = { λ writer. writer.desk.shown.value };
}

/// The history with the edits that were handed over. Contracts see its events.
pub struct HistoryLine<J: Naming> {
    head: Arc<Head<J>>,
    told: Told<J>,
    // An operation for which the copies had no room.
    parked: Option<SideOp<J>>,
}

// Written out, so that a caller's proof sees one call and not the drop of each field.
impl<J: Naming> Drop for HistoryLine<J> {
    fn drop(self) {
        let HistoryLine {
            head: _head,
            told: _told,
            parked: _parked,
        } = self;
    }
}

impl<J: Naming> Model for HistoryLine<J> {
    ghost use Rattle.std.specs.Prelude.{List};
    ghost use Rattle.live_pair.specs.declared.edits.HistoryEvent.{HistoryEvent};

    ghost Value = { List HistoryEvent };

    ghost view = { λ l. l.told };
}

// Hands over an operation, which comes back where there is no room for it.
fn append<J: Naming>(copies: &mut SideWriter<J>, operation: SideOp<J>) -> Result<(), SideOp<J>>
    ensures shown { copies.new.desk.shown.value ≡ copies.old.desk.shown.value }
    ensures last { OnOk result ((log : List HistoryEvent)
        → fold (λ _ operation. operation.told ++ Publish ∷ []) log
        (drop copies.new.behind copies.new.log.items) ≡ operation.told ++ Publish ∷ []) }
{
    copies.append(operation)
}

/// Shows readers a copy that has each operation that was handed over.
pub(crate) fn show<J: Naming, R: Wait>(copies: &mut SideWriter<J>, rt: &R) -> Result<(), AllocError>
    ensures { MatchResult result
        (λ _. closed copies.new.desk.shown.value
        ≡ fold (λ _ operation. operation.told ++ Publish ∷ [])
        (closed copies.old.desk.shown.value)
        (drop copies.old.behind copies.old.log.items))
        (λ _. copies.new.desk.shown.value ≡ copies.old.desk.shown.value) }
{
    replace_with(copies, rt, |copies: SideWriter<J>, rt: &R| {
        copies.publish_as::<Unruled, R>(rt)
    })
}

impl<J: Naming> HistoryLine<J> {
    pub(crate) fn new(head: Arc<Head<J>>, told: Told<J>) -> HistoryLine<J>
        ensures { result ≡ told }
    {
        HistoryLine {
            head,
            told,
            parked: None,
        }
    }

    /// Hands over the pending edits of a desk that were not handed over before.
    pub(crate) fn hand_over(
        &mut self,
        alloc: Global,
        copies: &mut SideWriter<J>,
        desk: &Desk,
    ) -> Result<(), NoMemory>
        requires begun { IsPrefix (unpublished J.first self.old) desk.now.pending }
        requires shapes { desk.now.state.shapes ≡ J.shapes }
        requires stands { StandsFor desk.now.state J.opening
            (edits_in (publishes J.first self.old)) }
        ensures same { publishes J.first self.new ≡ publishes J.first self.old }
        ensures begun { IsPrefix (unpublished J.first self.new) desk.now.pending }
        ensures all { OnOk result (unpublished J.first self.new ≡ desk.now.pending) }
        ensures shown { copies.new.desk.shown.value ≡ copies.old.desk.shown.value }
        ensures last { OnOk result ((log : List HistoryEvent)
            → fold (λ _ operation. operation.told ++ Publish ∷ []) log
            (drop copies.new.behind copies.new.log.items) ≡ self.new ++ Publish ∷ []) }
    {
        self.append_parked(copies)?;
        desk.holds();
        let from = self.told.waiting() as usize;
        let edits = Edits::copy_from(alloc, desk.pending(), from)?;
        let mut told = self.told.again();
        if !told.stage(&self.head, &edits) {
            return Err(NoMemory);
        }
        self.told = told.again();
        if let Err(operation) = append(copies, SideOp::new(edits, told)) {
            self.parked = Some(operation);
            return Err(NoMemory);
        }
        Ok(())
    }

    // Hands over the operation that is parked, where one is.
    fn append_parked(&mut self, copies: &mut SideWriter<J>) -> Result<(), NoMemory>
        ensures same { self.new ≡ self.old }
        ensures shown { copies.new.desk.shown.value ≡ copies.old.desk.shown.value }
    {
        let Some(operation) = self.parked.take() else {
            return Ok(());
        };
        if let Err(operation) = append(copies, operation) {
            self.parked = Some(operation);
            return Err(NoMemory);
        }
        Ok(())
    }

    /// The published history, if the copies show just the publish that was asked for; they may lack it where something else
    /// went into the history.
    pub(crate) fn settle(&mut self, copies: &SideWriter<J>) -> Option<Front<J>>
        requires shown { closed copies.now.desk.shown.value ≡ self.old ++ Publish ∷ [] }
        ensures front { IfSome result (λ front. front
            ≡ publishes J.first self.old ++ unpublished J.first self.old ∷ []) }
        ensures line { IfSome result (λ front. publishes J.first self.new ≡ front) }
        ensures none_left { IfSome result (λ _. unpublished J.first self.new ≡ []) }
        ensures out { IfSome result (λ front.
            publishes J.first copies.now.desk.shown.value ≡ front) }
        ensures none { IfNone result (self.new ≡ self.old) }
        ensures lacks { IfNone result (copies.now.desk.shown.value ≡ self.old) }
    {
        let shown = copies.published().told();
        if !self.told.is_published_in(shown) {
            return None;
        }
        let front = Front::new(shown.again());
        self.told = shown.again();
        Some(front)
    }
}
