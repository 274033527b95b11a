ghost use Rattle.std.specs.Prelude.{◌≡◌, All, IfErr, IfOk, IfSome, true};
ghost use Rattle.regex_gate.specs.Refusals.{IsRefused, IsUsed};
ghost use Rattle.matcher_meaning.specs.Comes.{takes_memory};
ghost use Rattle.matcher_meaning.specs.Order.{numbered};
ghost use Rattle.decision.specs.Helps.Asked.{CanRun, IsAsked, case_in, rows_of};
ghost use Rattle.decision.specs.Helps.Firsts.{IsFirstWith, IsKnownIn, first_of, verdict_of_first};
ghost use Rattle.decision.specs.Helps.LeftOut.{LeavesOut};
ghost use Rattle.decision.specs.Helps.Outcomes.{HasOutcomesInOrder, IsJudgedOn, is_by_subjects};

use crate::asking::Asking;
use crate::candidates::Candidates;
use crate::depths::{Depths, PLACES, depth_of};
use crate::looked::Looked;
use crate::outcome::outcome;
use effect_fold::{Outcome, Verdict};
use matcher_code::{KeptRules, Stack};
use matcher_meaning::{case_answer_is_there, case_answer_is_unique};
use outside::NoMemory;
use perm_base::Rule;
use regex_gate::Finder;
use role_meaning::{depth_is_one, order_by_depth};

/// The row that stands first so far: its number, the depth of its subject, and what it came to.
#[derive(Clone, Copy)]
pub(crate) struct First {
    pub(crate) number: u32,
    pub(crate) depth: u8,
    pub(crate) outcome: Outcome,
}

/// The verdict of the rows under the priority of subjects: that of the row with the deepest subject among those that match
/// or fail, and of one depth that of the earliest. No other call is to pay for the room of the depths.
#[inline(never)]
pub(crate) fn verdict_by_subjects<'a, P: Finder, const N: usize>(
    asking: &Asking<'a>,
    looked: Looked<'a>,
    finder: &mut P,
    kept: &mut KeptRules,
    stack: &mut Stack<'a, N>,
) -> Result<Verdict, NoMemory>
    requires run { CanRun asking.now N }
    requires leaves { LeavesOut (case_in asking.now) (rows_of asking.now) looked }
    requires effect { is_by_subjects asking.now.model.now.effect ≡ true }
    ensures judged { IfOk result (IsJudgedOn (case_in asking.now)
        (HasOutcomesInOrder (case_in asking.now) (rows_of asking.now))
        (λ refused. IfSome refused
        (IsRefused (P.refusals finder.old) (P.refusals finder.new)))) }
    ensures no_memory { IfErr result (λ e. takes_memory asking.now.model.now.matcher ≡ true) }
    ensures used { IsUsed (P.refusals finder.old) (P.refusals finder.new) }
{
    case_answer_is_there();
    case_answer_is_unique();
    depth_is_one();
    order_by_depth();
    let mut first = None;
    let mut depths = [None; PLACES];
    let mut candidates = Candidates::of(asking, looked);
    while let Some((number, row)) = candidates.next() {
        let outcome = outcome(asking, Some(row), finder, kept, stack)?;
        first = first_with(asking, first, number, row, outcome, &mut depths);
    }
    Ok(verdict_of(first))
}

// Which row stands first with one more behind those before; one that comes to no match leaves the first.
fn first_with<'a>(
    asking: &Asking<'a>,
    before: Option<First>,
    number: u32,
    row: &'a Rule,
    outcome: Outcome,
    depths: &mut Depths<'a>,
) -> Option<First>
    requires asked { IsAsked asking.now }
    requires known { All (λ one. IfSome one (IsKnownIn (case_in asking.now))) depths.old }
    ensures first { IsFirstWith (case_in asking.now) (numbered number row.now) outcome before result }
    ensures known { All (λ one. IfSome one (IsKnownIn (case_in asking.now))) depths.new }
{
    match outcome {
        Outcome::Unmatched => before,
        Outcome::Matched(_) | Outcome::Failed(_) => {
            let depth = depth_of(asking, row, depths);
            let later = First {
                number,
                depth,
                outcome,
            };
            Some(first_of(before, later))
        }
    }
}

// Which of two rows stands first, of which the second is the later: the deeper, and of one depth the earlier.
fn first_of(before: Option<First>, later: First) -> First
    ensures { result ≡ first_of before later }
{
    match before {
        Some(earlier) if earlier.depth >= later.depth => earlier,
        _ => later,
    }
}

// The verdict of the row that stands first, or deny where no row matches.
fn verdict_of(first: Option<First>) -> Verdict
    ensures { result ≡ verdict_of_first first }
{
    let Some(first) = first else {
        return Verdict::Deny(None);
    };
    let row = Some(first.number);
    match first.outcome {
        Outcome::Matched(true) => Verdict::Allow(row),
        Outcome::Matched(false) => Verdict::Deny(row),
        Outcome::Failed(fault) => Verdict::Fault { row, fault },
        Outcome::Unmatched => Verdict::Deny(None),
    }
}
