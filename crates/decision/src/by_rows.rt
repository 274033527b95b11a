ghost use Rattle.std.specs.Prelude.{◌≡◌, IfErr, IfOk, IfSome, None, false, true};
ghost use Rattle.regex_gate.specs.Refusals.{IsUsed, RefusedOnly};
ghost use Rattle.matcher_meaning.specs.Comes.{takes_memory};
ghost use Rattle.decision.specs.Helps.Asked.{CanRun, DecideAlone, IsAsked, KnowsName, case_in, rows_of};
ghost use Rattle.decision.specs.Helps.LeftOut.{LeavesOut, LooksAtNone};
ghost use Rattle.decision.specs.Helps.Outcomes.{HasOutcomesInOrder, IsJudgedOn, IsVerdictOn, is_by_subjects};

use crate::asking::Asking;
use crate::candidates::Candidates;
use crate::looked::Looked;
use crate::outcome::{outcome, outcome_told};
use crate::plain_parts::PlainParts;
use effect_fold::{Fold, Verdict};
use matcher_code::{KeptRules, Stack};
use matcher_meaning::case_answer_is_there;
use outside::NoMemory;
use regex_gate::Finder;

/// The verdict where no row is looked at.
pub(crate) fn verdict_of_none(asking: &Asking<'_>, looked: Looked<'_>) -> Verdict
    requires leaves { LeavesOut (case_in asking.now) (rows_of asking.now) looked }
    requires none { LooksAtNone looked }
    requires effect { is_by_subjects asking.now.model.now.effect ≡ false }
    ensures { IsVerdictOn (case_in asking.now)
        (HasOutcomesInOrder (case_in asking.now) (rows_of asking.now) None) result }
{
    let fold = Fold::new(asking.model.effect());
    fold.end()
}

/// The verdict of the rows, in the order of the table, where parts decide alone; none where the request lacks a text that is
/// asked about.
pub(crate) fn verdict_by_parts<'a>(
    asking: &Asking<'a>,
    looked: Looked<'a>,
    parts: PlainParts<'_>,
) -> Option<Verdict>
    requires asked { IsAsked asking.now }
    requires knows { KnowsName asking.now }
    requires parts { DecideAlone asking.now parts }
    requires leaves { LeavesOut (case_in asking.now) (rows_of asking.now) looked }
    requires effect { is_by_subjects asking.now.model.now.effect ≡ false }
    ensures { IfSome result (IsVerdictOn (case_in asking.now)
        (HasOutcomesInOrder (case_in asking.now) (rows_of asking.now) None)) }
{
    case_answer_is_there();
    let mut fold = Fold::new(asking.model.effect());
    let mut candidates = Candidates::of(asking, looked);
    while let Some((number, row)) = candidates.next() {
        let Some(outcome) = outcome_told(asking, row, parts) else {
            return None;
        };
        if fold.take(Some(number), outcome) {
            return Some(fold.end());
        }
    }
    Some(fold.end())
}

/// The verdict of the rows, in the order of the table.
pub(crate) fn verdict_by_rows<'a, P: Finder, const N: usize>(
    asking: &Asking<'a>,
    looked: Looked<'a>,
    finder: &mut P,
    kept: &mut KeptRules,
    stack: &mut Stack<'a, N>,
) -> Result<Verdict, NoMemory>
    requires run { CanRun asking.now N }
    requires leaves { LeavesOut (case_in asking.now) (rows_of asking.now) looked }
    requires effect { is_by_subjects asking.now.model.now.effect ≡ false }
    ensures judged { IfOk result (IsJudgedOn (case_in asking.now)
        (HasOutcomesInOrder (case_in asking.now) (rows_of asking.now))
        (RefusedOnly (P.refusals finder.old) (P.refusals finder.new))) }
    ensures no_memory { IfErr result (λ e. takes_memory asking.now.model.now.matcher ≡ true) }
    ensures used { IsUsed (P.refusals finder.old) (P.refusals finder.new) }
{
    case_answer_is_there();
    let mut fold = Fold::new(asking.model.effect());
    let mut candidates = Candidates::of(asking, looked);
    while let Some((number, row)) = candidates.next() {
        let outcome = outcome(asking, Some(row), finder, kept, stack)?;
        if fold.take(Some(number), outcome) {
            return Ok(fold.end());
        }
    }
    Ok(fold.end())
}
