ghost use Rattle.std.specs.Prelude.{◌≡◌, ◌<◌, IfOk, IfSome, MatchResult, Ok, OnErr, OnOk, Some, true};
ghost use Rattle.edit_calls.specs.Admitted.{admits};
ghost use Rattle.edit_calls.specs.Found.{AreKnown};
ghost use Rattle.edit_calls.specs.Told.{IsTold};
ghost use Rattle.policy_desk.specs.Answers.{IsAnswered, desk_answer};
ghost use Rattle.policy_desk.specs.Desks.{edits_of};
ghost use Rattle.policy_desk.specs.Transitions.{after_call};
ghost use Rattle.version_log.specs.Log.{most_versions};

use crate::desk::Desk;
use edit_calls::{Call, CallRefused, Known, admitted_edits_keep_sound, edits_are_admitted};
use outside::NoMemory;
use policy_table::{Edit, Limit};
use std::alloc::Global;

// The greatest number of published and pending edits.
const MOST_EDITS: u32 = 4_000_000_000;

impl Desk {
    /// Makes a management call in the drafts, and says whether it changed something; its edit is then pending (Casbin,
    /// management API and RBAC API). The published policy stays as it is. The call is refused as the drafts refuse it, and
    /// where it would change something and there are 4,000,000,000 edits, published and pending; a refused call changes
    /// nothing. Its time and memory grow with what it says and changes, and its time with the logarithm of the tables; where it asks
    /// by a filter or a name, that goes for calls behind the first which asks by the same columns. The first goes over the rows.
    pub fn call(&mut self, alloc: Global, call: &Call) -> Result<bool, CallRefused>
        ensures answered { MatchResult result
            (IsAnswered (desk_answer self.old call.now))
            (IsTold (desk_answer self.old call.now)) }
        ensures done { IfOk result (λ _. self.new
            ≡ after_call (desk_answer self.old call.now) self.old) }
        ensures refused { OnErr result (self.new ≡ self.old) }
    {
        let known = self.known(alloc, call);
        let Some(edit) = self.edit_by(alloc, call, &known)? else {
            return Ok(false);
        };
        self.draft(alloc, edit)?;
        Ok(true)
    }

    // What is known of the rules that a call asks for.
    fn known(&mut self, alloc: Global, call: &Call) -> Known
        ensures same { self.new ≡ self.old }
        ensures known { AreKnown self.old.state.shapes self.old.drafts result call.now }
    {
        self.drafts.known(alloc, call, self.state.shapes())
    }

    // The edit of a call, where it changes something.
    fn edit_by(
        &self,
        alloc: Global,
        call: &Call,
        known: &Known,
    ) -> Result<Option<Edit>, CallRefused>
        requires known { AreKnown self.now.state.shapes self.now.drafts known.now call.now }
        ensures answered { MatchResult result
            (λ edit. desk_answer self.now call.now ≡ Ok edit)
            (IsTold (desk_answer self.now call.now)) }
        ensures admitted { IfOk result (λ found. IfSome found (λ edit.
            admits self.now.state.shapes self.now.drafts edit ≡ true)) }
        ensures few { IfOk result (λ found. IfSome found (λ _. edits_of self.now < most_versions)) }
    {
        edits_are_admitted();
        self.state.kept();
        let shapes = self.state.shapes();
        let Some(edit) = self.drafts.resolve(alloc, call, shapes, known)? else {
            return Ok(None);
        };
        if self.state.version() + self.pending.len() as u32 == MOST_EDITS {
            let what = Limit::Edits;
            return Err(CallRefused::Full { what });
        }
        Ok(Some(edit))
    }

    // Makes an edit in the drafts, and puts it behind the pending edits.
    fn draft(&mut self, alloc: Global, edit: Edit) -> Result<(), NoMemory>
        requires admitted { admits self.old.state.shapes self.old.drafts edit ≡ true }
        requires few { edits_of self.old < most_versions }
        ensures done { OnOk result (self.new ≡ after_call (Ok (Some edit)) self.old) }
        ensures refused { OnErr result (self.new ≡ self.old) }
    {
        admitted_edits_keep_sound();
        self.drafts.kept();
        self.pending.reserve(1)?;
        self.drafts.make(alloc, &edit)?;
        self.pending.push_reserved(edit);
        Ok(())
    }
}
