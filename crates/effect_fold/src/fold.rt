ghost use Rattle.std.specs.Prelude.{◌≡◌, ◌++◌, ◌∷◌, [], List, None, is_some};
ghost use Rattle.effect_fold.specs.Folds.{HasTaken, is_settled};
ghost use Rattle.effect_fold.specs.Helps.Progress.{open_end, taken};
ghost use Rattle.effect_fold.specs.Verdict.{Taken, ends_with, is_allow, settled_by, settles, verdict};
ghost use Rattle.effect_fold.specs.declared.effect.Effect.{Effect};

use crate::effect::Effect;
use crate::outcome::Outcome;
use crate::verdict::Verdict;
use std::marker::Model;

/// A fold over the outcomes of rows, in their order. Contracts see the outcomes that it took. It takes no memory, and
/// keeps the row of the first match with allow, and the verdict once it is settled.
#[derive(Drop)]
pub struct Fold {
    effect: Effect,
    allowed: Option<Option<u32>>,
    settled: Option<Verdict>,
}

impl Model for Fold {
    ghost use Rattle.effect_fold.specs.Helps.Progress.{Progress, progress};

    ghost Value = { Progress };

    ghost view = { λ f. progress f.effect f.allowed f.settled };
}

impl Fold {
    /// No outcome is taken yet.
    pub fn new(effect: Effect) -> Fold
        ensures { HasTaken result effect [] }
    {
        Fold {
            effect,
            allowed: None,
            settled: None,
        }
    }

    /// Takes the outcome of a row, counted from 1, or of the one evaluation that goes with no row. It answers whether the
    /// verdict is settled now.
    pub fn take(&mut self, row: Option<u32>, outcome: Outcome) -> bool
        ensures taken { (e : Effect) (outcomes : List Taken) → HasTaken self.old e outcomes
            → HasTaken self.new e (outcomes ++ (row, outcome) ∷ []) }
        ensures settled { (e : Effect) (outcomes : List Taken) → HasTaken self.old e outcomes
            → result ≡ is_settled e (outcomes ++ (row, outcome) ∷ []) }
    {
        if self.settled.is_some() {
            return true;
        }
        self.put(row, outcome)
    }

    /// The verdict of the outcomes that were taken.
    pub fn end(self) -> Verdict
        ensures { (e : Effect) (outcomes : List Taken) → HasTaken self e outcomes
            → result ≡ verdict e outcomes }
    {
        match self.settled {
            Some(verdict) => verdict,
            None => open_end(self.effect, self.allowed),
        }
    }

    // Takes an outcome while the verdict is not settled.
    fn put(&mut self, row: Option<u32>, outcome: Outcome) -> bool
        requires { self.old.settled ≡ None }
        ensures taken { self.new ≡ taken self.old row outcome }
        ensures known { result ≡ is_some self.new.settled }
    {
        if ends(self.effect, outcome) {
            self.settled = Some(settled_by(row, outcome));
            return true;
        }
        if is_allow(outcome) && self.allowed.is_none() {
            self.allowed = Some(row);
        }
        false
    }
}

// The outcome ends the evaluation under the effect.
fn ends(effect: Effect, outcome: Outcome) -> bool
    ensures { result ≡ ends_with effect outcome }
{
    match outcome {
        Outcome::Unmatched => false,
        Outcome::Matched(allow) => settles(effect, allow),
        Outcome::Failed(_) => true,
    }
}

// A match with allow, or else with deny, settles the effect.
fn settles(effect: Effect, allow: bool) -> bool
    ensures { result ≡ settles effect allow }
{
    match effect {
        Effect::AllowOverride => allow,
        Effect::DenyOverride | Effect::AllowAndDeny => !allow,
        Effect::Priority | Effect::SubjectPriority => true,
    }
}

fn is_allow(outcome: Outcome) -> bool
    ensures { result ≡ is_allow outcome }
{
    match outcome {
        Outcome::Matched(allow) => allow,
        Outcome::Unmatched | Outcome::Failed(_) => false,
    }
}

// The verdict of the row at which the evaluation ends.
fn settled_by(row: Option<u32>, outcome: Outcome) -> Verdict
    ensures { result ≡ settled_by row outcome }
{
    match outcome {
        Outcome::Failed(fault) => Verdict::Fault { row, fault },
        Outcome::Matched(true) => Verdict::Allow(row),
        Outcome::Matched(false) => Verdict::Deny(row),
        Outcome::Unmatched => Verdict::Deny(None),
    }
}

// The verdict where no outcome ended the evaluation.
fn open_end(effect: Effect, allowed: Option<Option<u32>>) -> Verdict
    ensures { result ≡ open_end effect allowed }
{
    match effect {
        Effect::AllowOverride | Effect::Priority | Effect::SubjectPriority => Verdict::Deny(None),
        Effect::DenyOverride => Verdict::Allow(None),
        Effect::AllowAndDeny => match allowed {
            Some(row) => Verdict::Allow(row),
            None => Verdict::Deny(None),
        },
    }
}
