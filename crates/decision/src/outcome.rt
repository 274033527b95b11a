ghost use Rattle.std.specs.Prelude.{◌≡◌, ℕ, IfErr, IfOk, IfSome, List, None, Ok, Option, Some, option_copied, true};
ghost use Rattle.perm_value.specs.Datum as datums;
ghost use Rattle.regex_gate.specs.Refusals.{IsUsed, RefusedOnly};
ghost use Rattle.matcher_meaning.specs.Cases.{at_row, where_refused};
ghost use Rattle.matcher_meaning.specs.Comes.{TruthIs, takes_memory};
ghost use Rattle.matcher_meaning.specs.Perm.{outcome_of, word_of};
ghost use Rattle.matcher_code.specs.RunEnds.{IsAnswer, IsWantOfMemory};
ghost use Rattle.decision.specs.Helps.Asked.{CanRun, DecideAlone, IsAsked, KnowsName, KnowsParts, case_in};
ghost use Rattle.decision.specs.Helps.Outcomes.{ComesTo, OutcomeIs, SaysTruth, truth_in, word_of_row};

use crate::asking::Asking;
use crate::links::StateLinks;
use crate::plain_parts::{PlainParts, told_by};
use effect_fold::Outcome;
use matcher_code::{KeptRules, NoTruth, Stack, run};
use outside::NoMemory;
use perm_base::Rule;
use perm_value::View;
use regex_gate::Finder;

/// What a row comes to, where parts tell it alone; none where the request lacks a text that is asked about.
pub(crate) fn outcome_told(asking: &Asking, row: &Rule, parts: PlainParts<'_>) -> Option<Outcome>
    requires asked { IsAsked asking.now }
    requires knows { KnowsName asking.now }
    requires parts { DecideAlone asking.now parts }
    ensures { IfSome result (OutcomeIs (case_in asking.now) None (Some row.now)) }
{
    let Some(truth) = told_by(asking, row, parts) else {
        return None;
    };
    if !truth {
        return Some(Outcome::Unmatched);
    }
    Some(matched(word_of_row(asking, Some(row))))
}

/// What a row comes to, or the evaluation without one.
pub(crate) fn outcome<'a, P: Finder, const N: usize>(
    asking: &Asking<'a>,
    row: Option<&'a Rule>,
    finder: &mut P,
    kept: &mut KeptRules,
    stack: &mut Stack<'a, N>,
) -> Result<Outcome, NoMemory>
    requires { CanRun asking.now N }
    ensures comes { IfOk result (ComesTo (case_in asking.now)
        (RefusedOnly (P.refusals finder.old) (P.refusals finder.new)) (option_copied row.entry)) }
    ensures no_memory { IfErr result (λ e. takes_memory asking.now.model.now.matcher ≡ true) }
    ensures used { IsUsed (P.refusals finder.old) (P.refusals finder.new) }
{
    match truth(asking, row, finder, kept, stack) {
        Ok(true) => Ok(matched(word_of_row(asking, row))),
        Ok(false) => Ok(Outcome::Unmatched),
        Err(NoTruth::Fault(fault)) => Ok(Outcome::Failed(fault)),
        Err(NoTruth::NoMemory) => Err(NoMemory),
    }
}

// Whether the matcher holds for a row, or without one.
fn truth<'a, P: Finder, const N: usize>(
    asking: &Asking<'a>,
    row: Option<&'a Rule>,
    finder: &mut P,
    kept: &mut KeptRules,
    stack: &mut Stack<'a, N>,
) -> Result<bool, NoTruth>
    requires { CanRun asking.now N }
    ensures truth { IsAnswer (SaysTruth (at_row (case_in asking.now) (option_copied row.entry)))
        datums.truth (RefusedOnly (P.refusals finder.old) (P.refusals finder.new)) result }
    ensures no_memory { IfErr result (λ stop. IsWantOfMemory stop
        → takes_memory asking.now.model.now.matcher ≡ true) }
    ensures used { IsUsed (P.refusals finder.old) (P.refusals finder.new) }
{
    if let Some(truth) = told(asking, row) {
        return Ok(truth);
    }
    truth_by_code(asking, row, finder, kept, stack)
}

// The same by the code of the matcher, whose locals no other call is to pay for.
#[inline(never)]
fn truth_by_code<'a, P: Finder, const N: usize>(
    asking: &Asking<'a>,
    row: Option<&'a Rule>,
    finder: &mut P,
    kept: &mut KeptRules,
    stack: &mut Stack<'a, N>,
) -> Result<bool, NoTruth>
    requires { CanRun asking.now N }
    ensures truth { IsAnswer (SaysTruth (at_row (case_in asking.now) (option_copied row.entry)))
        datums.truth (RefusedOnly (P.refusals finder.old) (P.refusals finder.new)) result }
    ensures no_memory { IfErr result (λ stop. IsWantOfMemory stop
        → takes_memory asking.now.model.now.matcher ≡ true) }
    ensures used { IsUsed (P.refusals finder.old) (P.refusals finder.new) }
{
    let links = StateLinks {
        state: asking.state,
        asked_name: asking.asked_name,
    };
    match run(
        asking.alloc,
        asking.code,
        asking.model,
        asking.request,
        row,
        &links,
        finder,
        kept,
        stack,
    ) {
        Ok(value) => Ok(truth_in(value)),
        Err(stop) => Err(stop),
    }
}

// Whether the matcher holds for a row, where some of its parts tell it alone.
fn told(asking: &Asking, row: Option<&Rule>) -> Option<bool>
    requires knows { KnowsName asking.now }
    requires parts { KnowsParts asking.now }
    ensures { IfSome result (λ truth. (refused : Option (ℕ × List ℕ))
        → TruthIs (where_refused (at_row (case_in asking.now) (option_copied row.entry)) refused)
        asking.now.model.now.matcher (Ok truth)) }
{
    let Some(parts) = asking.parts else {
        return None;
    };
    let Some(row) = row else {
        return None;
    };
    told_by(asking, row, parts)
}

// The truth that a value is; other values are none.
fn truth_in(value: View) -> bool
    ensures { result ≡ truth_in value.entry }
{
    match value {
        View::Truth(truth) => truth,
        _ => false,
    }
}

// What a match comes to by the row's word.
fn matched(word: Option<bool>) -> Outcome
    ensures { result ≡ outcome_of (Ok true) word }
{
    match word {
        Some(allow) => Outcome::Matched(allow),
        None => Outcome::Unmatched,
    }
}

// Whether a row says allow or deny; without a row, or without a column `eft`, it is allow.
fn word_of_row(asking: &Asking, row: Option<&Rule>) -> Option<bool>
    requires { IsAsked asking.now }
    ensures { result ≡ word_of_row asking.now.model.now.policy (option_copied row.entry) }
{
    let Some(row) = row else {
        return Some(true);
    };
    let Some(at) = asking.effect_place else {
        return Some(true);
    };
    word_of(if at < row.len() { row.field(at) } else { b"" })
}

// Whether a text is `allow` or `deny`.
fn word_of(text: &[u8]) -> Option<bool>
    ensures { result ≡ word_of text.now }
{
    if text == b"allow".as_slice() {
        Some(true)
    } else if text == b"deny".as_slice() {
        Some(false)
    } else {
        None
    }
}
