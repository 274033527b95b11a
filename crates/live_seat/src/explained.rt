ghost use Rattle.std.specs.Prelude.{◌≡◌, IfErr, IfOk, length, map};
ghost use Rattle.decision.specs.Decisions.{IsJudgedWith, RefusedIn};
ghost use Rattle.decision.specs.Programs.{Suits};
ghost use Rattle.live_seat.specs.Decided.{IsExplainedAt, IsStoppedAt};
ghost use Rattle.matcher_meaning.specs.Verdicts.{IsJudged};
ghost use Rattle.perm_value.specs.Seen.{datum};
ghost use Rattle.policy_state.specs.States.{tables};
ghost use Rattle.regex_gate.specs.Refusals.{IsRefused, IsUsed};
ghost use Rattle.session_meaning.specs.Replies.{rule_of};

use crate::answered::{Answered, SeatStop};
use crate::loan::end_loan;
use core::mem::replace_with;
use decision::{Program, Scratch, decide};
use desk_session::named_rule;
use effect_fold::Verdict;
use live_pair::{Naming, Seat};
use outside::NoMemory;
use perm_base::Rule;
use perm_value::Request;
use policy_state::PolicyState;
use regex_gate::Finder;
use std::alloc::Global;

/// What `decide_seat` answers, and the rule of the row that the verdict names, as it stands in that policy; none where it names
/// no row or is a fault. It copies that one rule.
pub fn explain_seat<J: Naming, P: Finder>(
    alloc: Global,
    seat: &mut Seat<J>,
    program: &Program,
    request: &Request,
    finder: &mut P,
    scratch: &mut Scratch,
) -> Result<(Answered, Option<Rule>), SeatStop>
    requires takes { length request.now ≡ length program.now.request }
    requires suits { Suits program.now J.shapes }
    ensures explained { IfOk result (IsExplainedAt program.now J.shapes J.opening
        (map datum request.now) (P.refusals finder.old) (P.refusals finder.new)
        seat.old seat.new) }
    ensures stopped { IfErr result (IsStoppedAt
        (P.refusals finder.old) (P.refusals finder.new) seat.old seat.new) }
    ensures used { IsUsed (P.refusals finder.old) (P.refusals finder.new) }
{
    let (explained, finder) = replace_with(
        seat,
        finder,
        |seat: Seat<J>, finder: &mut P|
            requires { (length request.now ≡ length program.now.request)
                × Suits program.now J.shapes }
        {
            let (seat, explained) = explained_inside(
                alloc, seat, program, request, finder, scratch,
            );
            (seat, (explained, finder))
        },
    );
    end_loan(finder);
    explained
}

// The same, and the seat as it is afterwards.
fn explained_inside<J: Naming, P: Finder>(
    alloc: Global,
    seat: Seat<J>,
    program: &Program,
    request: &Request,
    finder: &mut P,
    scratch: &mut Scratch,
) -> (Seat<J>, Result<(Answered, Option<Rule>), SeatStop>)
    requires takes { length request.now ≡ length program.now.request }
    requires suits { Suits program.now J.shapes }
    ensures explained { IfOk result.1 (IsExplainedAt program.now J.shapes J.opening
        (map datum request.now) (P.refusals finder.old) (P.refusals finder.new)
        seat result.0) }
    ensures stopped { IfErr result.1 (IsStoppedAt
        (P.refusals finder.old) (P.refusals finder.new) seat result.0) }
    ensures used { IsUsed (P.refusals finder.old) (P.refusals finder.new) }
{
    let entered = match seat.enter() {
        Ok(entered) => entered,
        Err(shut) => return (shut.seat, Err(SeatStop::Shut)),
    };
    let version = entered.version();
    let explained = judged_with_rule(alloc, entered.state(), program, request, finder, scratch);
    let seat = entered.leave();
    match explained {
        Ok((verdict, rule)) => (seat, Ok((Answered { version, verdict }, rule))),
        Err(_) => (seat, Err(SeatStop::NoMemory)),
    }
}

// The verdict on a request over a policy, and the rule of the row that it names.
fn judged_with_rule<P: Finder>(
    alloc: Global,
    state: &PolicyState,
    program: &Program,
    request: &Request,
    finder: &mut P,
    scratch: &mut Scratch,
) -> Result<(Verdict, Option<Rule>), NoMemory>
    requires takes { length request.now ≡ length program.now.request }
    requires suits { Suits program.now state.now.shapes }
    ensures judged { IfOk result (λ told. IsJudged
        program.now state.now.shapes (tables state.now) (map datum request.now)
        (IsRefused (P.refusals finder.old) (P.refusals finder.new)) told.0) }
    ensures refused { IfOk result (λ told. IsJudgedWith
        program.now state.now.shapes (tables state.now) (map datum request.now)
        (RefusedIn program.now.effect (P.refusals finder.old) (P.refusals finder.new))
        told.0) }
    ensures rule { IfOk result (λ told. told.1 ≡ rule_of (tables state.now) told.0) }
    ensures used { IsUsed (P.refusals finder.old) (P.refusals finder.new) }
{
    let verdict = decide(program, state, request, finder, scratch)?;
    let Some(rule) = named_rule(state, verdict) else {
        return Ok((verdict, None));
    };
    Ok((verdict, Some(rule.copy(alloc)?)))
}
