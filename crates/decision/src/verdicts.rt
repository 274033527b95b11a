ghost use Rattle.std.specs.Prelude.{◌≡◌, ◌≤◌, IfErr, IfOk, IfSome, IsTrue, None, length, map, true};
ghost use Rattle.perm_value.specs.Seen.{datum};
ghost use Rattle.policy_state.specs.States.{tables};
ghost use Rattle.regex_gate.specs.Refusals.{IsRefused, IsUsed};
ghost use Rattle.matcher_meaning.specs.Comes.{takes_memory};
ghost use Rattle.matcher_meaning.specs.Perm.{names_policy};
ghost use Rattle.matcher_meaning.specs.Verdicts.{HasOneOutcome, HasOutcomesOver, IsJudged};
ghost use Rattle.decision.specs.Helps.Asked.{CanRun, DecideAlone, IsAsked, KnowsName, KnowsParts, case_in, rows_of};
ghost use Rattle.decision.specs.Helps.LeftOut.{LeavesOut, LooksAtNone};
ghost use Rattle.decision.specs.Helps.Outcomes.{IsJudgedOn, IsVerdictOn, is_by_subjects};
ghost use Rattle.decision.specs.Decisions.{IsJudgedWith, RefusedIn};
ghost use Rattle.decision.specs.Programs.{Suits};

use crate::asked_name::{asks_few, name_asked, with_known};
use crate::asking::Asking;
use crate::by_rows::{verdict_by_parts, verdict_by_rows, verdict_of_none};
use crate::by_subjects::verdict_by_subjects;
use crate::looked::{Looked, looked_at, serving_plan};
use crate::outcome::outcome;
use crate::plain_parts::{PlainParts, plain_parts_of};
use crate::program::Program;
use crate::scratch::Scratch;
use effect_fold::{Effect, Fold, Verdict};
use matcher_code::{KeptRules, Stack, WideStack};
use outside::NoMemory;
use perm_base::TableId;
use perm_value::Request;
use policy_state::PolicyState;
use regex_gate::Finder;
use role_domain::Room;

/// The greatest height of code that runs on the small stack.
const NARROW: u32 = 8;

/// The verdict of a program on a request over a policy (PERM: request, policy, matchers, effect). The matcher is evaluated
/// for each rule of p in order, up to the first that settles the verdict or at which a fault stops it; once, without a
/// rule, where it names no column of the policy or there is no rule. Under the priority of subjects every rule is
/// evaluated, and the one with the deepest subject decides. Rules that cannot match by the policy's index are passed over,
/// which changes no verdict. Role relations are asked of the policy; where many rows ask about one name, what it reaches is
/// found once, and each row reads that. A search that the finder refuses is a fault of its
/// rule; but for the priority of subjects it is the last one, and the only one that is refused. Memory is taken by
/// `regexMatch` and `eval` alone.
pub fn decide<P: Finder>(
    program: &Program,
    state: &PolicyState,
    request: &Request,
    finder: &mut P,
    scratch: &mut Scratch,
) -> Result<Verdict, NoMemory>
    requires takes { length request.now ≡ length program.now.request }
    requires suits { Suits program.now state.now.shapes }
    ensures judged { IfOk result (IsJudged
        program.now state.now.shapes (tables state.now) (map datum request.now)
        (IsRefused (P.refusals finder.old) (P.refusals finder.new))) }
    ensures refused { IfOk result (IsJudgedWith
        program.now state.now.shapes (tables state.now) (map datum request.now)
        (RefusedIn program.now.effect (P.refusals finder.old) (P.refusals finder.new))) }
    ensures no_memory { IfErr result (λ e. takes_memory program.now.matcher ≡ true) }
    ensures used { IsUsed (P.refusals finder.old) (P.refusals finder.new) }
{
    let asking = program.asking(scratch.alloc(), state, request);
    let plan = serving_plan(&asking);
    let looked = looked_at(&asking, plan, &mut scratch.found);
    let parts = plain_parts_of(&asking, plan);
    if let Some(verdict) = verdict_at_once(&asking, looked, parts) {
        return Ok(verdict);
    }
    verdict_by_code(
        &asking,
        looked,
        parts,
        finder,
        &mut scratch.room,
        &mut scratch.kept,
    )
}

// The verdict by the code of the matcher, whose locals no request is to pay for that is judged at once. Where many rows ask about a
// name, what it reaches is found first, and stands in `room`.
#[inline(never)]
fn verdict_by_code<P: Finder>(
    asking: &Asking<'_>,
    looked: Looked<'_>,
    parts: Option<PlainParts<'_>>,
    finder: &mut P,
    room: &mut Room,
    kept: &mut KeptRules,
) -> Result<Verdict, NoMemory>
    requires asked { IsAsked asking.now }
    requires parts { IfSome parts (DecideAlone asking.now) }
    requires leaves { LeavesOut (case_in asking.now) (rows_of asking.now) looked }
    ensures judged { IfOk result (IsJudgedWith asking.now.model.now asking.now.state.now.shapes
        (tables asking.now.state.now) (map datum asking.now.request.now)
        (RefusedIn asking.now.model.now.effect
        (P.refusals finder.old) (P.refusals finder.new))) }
    ensures no_memory { IfErr result (λ e. takes_memory asking.now.model.now.matcher ≡ true) }
    ensures used { IsUsed (P.refusals finder.old) (P.refusals finder.new) }
{
    let asking = *asking;
    let name = name_asked(&asking, looked, room);
    let known = with_known(&asking, name.as_ref(), parts);
    if known.code.height() <= NARROW {
        return on_narrow_stack(&known, looked, finder, kept);
    }
    on_wide_stack(&known, looked, finder, kept)
}

// The verdict where no code has to run and nothing is found first: no row is left to judge, or parts tell all rows alone.
fn verdict_at_once<'a>(
    asking: &Asking<'a>,
    looked: Looked<'a>,
    parts: Option<PlainParts<'_>>,
) -> Option<Verdict>
    requires asked { IsAsked asking.now }
    requires knows { KnowsName asking.now }
    requires parts { IfSome parts (DecideAlone asking.now) }
    requires leaves { LeavesOut (case_in asking.now) (rows_of asking.now) looked }
    ensures { IfSome result (IsVerdictOn (case_in asking.now)
        (HasOutcomesOver (case_in asking.now) None
        (names_policy asking.now.model.now.matcher) (rows_of asking.now))) }
{
    if !asking.by_row {
        return None;
    }
    if asking.state.tables().len(TableId::P) == 0 {
        return None;
    }
    if is_by_subjects(asking.model.effect()) {
        return None;
    }
    if leaves_none(looked) {
        return Some(verdict_of_none(asking, looked));
    }
    let parts = parts?;
    if parts.question.is_some() && !asks_few(asking, looked) {
        return None;
    }
    let verdict = verdict_by_parts(asking, looked, parts)?;
    Some(verdict)
}

// Whether no row is looked at.
fn leaves_none(looked: Looked<'_>) -> bool
    ensures { IsTrue result → LooksAtNone looked.entry }
{
    match looked {
        Looked::All => false,
        Looked::Nothing => true,
        Looked::At(places) => places.is_empty(),
    }
}

// The verdict, on a stack of 8 places.
fn on_narrow_stack<P: Finder>(
    asking: &Asking,
    looked: Looked<'_>,
    finder: &mut P,
    kept: &mut KeptRules,
) -> Result<Verdict, NoMemory>
    requires asked { IsAsked asking.now }
    requires knows { KnowsName asking.now }
    requires parts { KnowsParts asking.now }
    requires leaves { LeavesOut (case_in asking.now) (rows_of asking.now) looked }
    requires room { asking.now.code.now.height ≤ 8 }
    ensures judged { IfOk result (IsJudgedOn (case_in asking.now)
        (λ refused. HasOutcomesOver (case_in asking.now) refused
        (names_policy asking.now.model.now.matcher) (rows_of asking.now))
        (RefusedIn asking.now.model.now.effect
        (P.refusals finder.old) (P.refusals finder.new))) }
    ensures no_memory { IfErr result (λ e. takes_memory asking.now.model.now.matcher ≡ true) }
    ensures used { IsUsed (P.refusals finder.old) (P.refusals finder.new) }
{
    let mut stack: Stack<8> = Stack::new();
    verdict_of(asking, looked, finder, kept, &mut stack)
}

// The verdict, on a stack with room for each matcher, which no other call is to pay for.
#[inline(never)]
fn on_wide_stack<P: Finder>(
    asking: &Asking,
    looked: Looked<'_>,
    finder: &mut P,
    kept: &mut KeptRules,
) -> Result<Verdict, NoMemory>
    requires asked { IsAsked asking.now }
    requires knows { KnowsName asking.now }
    requires parts { KnowsParts asking.now }
    requires leaves { LeavesOut (case_in asking.now) (rows_of asking.now) looked }
    ensures judged { IfOk result (IsJudgedOn (case_in asking.now)
        (λ refused. HasOutcomesOver (case_in asking.now) refused
        (names_policy asking.now.model.now.matcher) (rows_of asking.now))
        (RefusedIn asking.now.model.now.effect
        (P.refusals finder.old) (P.refusals finder.new))) }
    ensures no_memory { IfErr result (λ e. takes_memory asking.now.model.now.matcher ≡ true) }
    ensures used { IsUsed (P.refusals finder.old) (P.refusals finder.new) }
{
    let mut stack: WideStack = Stack::new();
    verdict_of(asking, looked, finder, kept, &mut stack)
}

// The verdict, by rows or once.
fn verdict_of<'a, P: Finder, const N: usize>(
    asking: &Asking<'a>,
    looked: Looked<'a>,
    finder: &mut P,
    kept: &mut KeptRules,
    stack: &mut Stack<'a, N>,
) -> Result<Verdict, NoMemory>
    requires run { CanRun asking.now N }
    requires leaves { LeavesOut (case_in asking.now) (rows_of asking.now) looked }
    ensures judged { IfOk result (IsJudgedOn (case_in asking.now)
        (λ refused. HasOutcomesOver (case_in asking.now) refused
        (names_policy asking.now.model.now.matcher) (rows_of asking.now))
        (RefusedIn asking.now.model.now.effect
        (P.refusals finder.old) (P.refusals finder.new))) }
    ensures no_memory { IfErr result (λ e. takes_memory asking.now.model.now.matcher ≡ true) }
    ensures used { IsUsed (P.refusals finder.old) (P.refusals finder.new) }
{
    if !asking.by_row {
        return verdict_once(asking, finder, kept, stack);
    }
    if asking.state.tables().len(TableId::P) == 0 {
        return verdict_once(asking, finder, kept, stack);
    }
    if is_by_subjects(asking.model.effect()) {
        return verdict_by_subjects(asking, looked, finder, kept, stack);
    }
    verdict_by_rows(asking, looked, finder, kept, stack)
}

// The verdict of the one evaluation that goes without a row.
fn verdict_once<'a, P: Finder, const N: usize>(
    asking: &Asking<'a>,
    finder: &mut P,
    kept: &mut KeptRules,
    stack: &mut Stack<'a, N>,
) -> Result<Verdict, NoMemory>
    requires { CanRun asking.now N }
    ensures judged { IfOk result (IsJudgedOn (case_in asking.now)
        (HasOneOutcome (case_in asking.now))
        (RefusedIn asking.now.model.now.effect
        (P.refusals finder.old) (P.refusals finder.new))) }
    ensures no_memory { IfErr result (λ e. takes_memory asking.now.model.now.matcher ≡ true) }
    ensures used { IsUsed (P.refusals finder.old) (P.refusals finder.new) }
{
    let mut fold = Fold::new(asking.model.effect());
    let outcome = outcome(asking, None, finder, kept, stack)?;
    let _ = fold.take(None, outcome);
    Ok(fold.end())
}

// Whether an effect judges rows by the depth of their subjects.
fn is_by_subjects(effect: Effect) -> bool
    ensures { result ≡ is_by_subjects effect }
{
    match effect {
        Effect::SubjectPriority => true,
        Effect::AllowOverride | Effect::DenyOverride | Effect::AllowAndDeny | Effect::Priority =>
            false,
    }
}
