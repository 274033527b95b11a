ghost use Rattle.std.specs.Prelude.{◌≡◌, ◌++◌, ◌∷◌, [], IfErr, OnErr, OnOk, length, map};
ghost use Rattle.answer_lines.specs.Printed.{printed_answer};
ghost use Rattle.answer_lines.specs.declared.answer.Answer.TheVariants.{Decided};
ghost use Rattle.decision.specs.Decisions.{IsJudgedWith, RefusedIn};
ghost use Rattle.decision.specs.Programs.{Suits};
ghost use Rattle.effect_fold.specs.declared.verdict.Verdict as verdict_type;
ghost use Rattle.live_seat.specs.Decided.{IsPrintedAt, IsStoppedAt};
ghost use Rattle.matcher_meaning.specs.Verdicts.{IsJudged};
ghost use Rattle.perm_value.specs.Seen.{datum};
ghost use Rattle.policy_state.specs.States.{tables};
ghost use Rattle.regex_gate.specs.Refusals.{IsRefused, IsUsed};
ghost use Rattle.session_meaning.specs.Replies.{rule_of};

use crate::answered::SeatStop;
use crate::loan::end_loan;
use answer_lines::WaitingAnswers;
use core::mem::replace_with;
use decision::{Program, Scratch, decide};
use desk_session::named_rule;
use live_pair::{Naming, Seat};
use matcher_meaning::order_of_rows_is_one;
use outside::NoMemory;
use perm_value::Request;
use policy_state::PolicyState;
use regex_gate::Finder;

/// What `explain_seat` answers, as it is printed behind other replies: the rule is printed within the entry, and not copied. Where
/// nothing is answered the replies are as they were.
pub fn print_seat<J: Naming, P: Finder>(
    seat: &mut Seat<J>,
    program: &Program,
    request: &Request,
    finder: &mut P,
    scratch: &mut Scratch,
    replies: &mut WaitingAnswers,
) -> Result<(), SeatStop>
    requires takes { length request.now ≡ length program.now.request }
    requires suits { Suits program.now J.shapes }
    ensures printed { OnOk result (IsPrintedAt program.now J.shapes J.opening
        (map datum request.now) (P.refusals finder.old) (P.refusals finder.new)
        seat.old seat.new replies.old replies.new) }
    ensures stopped { IfErr result (IsStoppedAt
        (P.refusals finder.old) (P.refusals finder.new) seat.old seat.new) }
    ensures same { OnErr result (replies.new ≡ replies.old) }
    ensures used { IsUsed (P.refusals finder.old) (P.refusals finder.new) }
{
    let (printed, (replies, finder)) = replace_with(
        seat,
        (replies, finder),
        |seat: Seat<J>, lent: (&mut WaitingAnswers, &mut P)|
            requires { (length request.now ≡ length program.now.request)
                × Suits program.now J.shapes }
        {
            let (replies, finder) = lent;
            let (seat, printed) = printed_inside(seat, program, request, finder, scratch, replies);
            (seat, (printed, (replies, finder)))
        },
    );
    end_loan(replies);
    end_loan(finder);
    printed
}

// The same, and the seat as it is afterwards.
fn printed_inside<J: Naming, P: Finder>(
    seat: Seat<J>,
    program: &Program,
    request: &Request,
    finder: &mut P,
    scratch: &mut Scratch,
    replies: &mut WaitingAnswers,
) -> (Seat<J>, Result<(), SeatStop>)
    requires takes { length request.now ≡ length program.now.request }
    requires suits { Suits program.now J.shapes }
    ensures printed { OnOk result.1 (IsPrintedAt program.now J.shapes J.opening
        (map datum request.now) (P.refusals finder.old) (P.refusals finder.new)
        seat result.0 replies.old replies.new) }
    ensures stopped { IfErr result.1 (IsStoppedAt
        (P.refusals finder.old) (P.refusals finder.new) seat result.0) }
    ensures same { OnErr result.1 (replies.new ≡ replies.old) }
    ensures used { IsUsed (P.refusals finder.old) (P.refusals finder.new) }
{
    let entered = match seat.enter() {
        Ok(entered) => entered,
        Err(shut) => return (shut.seat, Err(SeatStop::Shut)),
    };
    let version = entered.version();
    let state = entered.state();
    let printed = judged_printed(version, state, program, request, finder, scratch, replies);
    let seat = entered.leave();
    match printed {
        Ok(()) => (seat, Ok(())),
        Err(_) => (seat, Err(SeatStop::NoMemory)),
    }
}

// The verdict on a request over a policy, printed behind other replies with this version and the rule of the row that it names.
fn judged_printed<P: Finder>(
    version: u32,
    state: &PolicyState,
    program: &Program,
    request: &Request,
    finder: &mut P,
    scratch: &mut Scratch,
    replies: &mut WaitingAnswers,
) -> Result<(), NoMemory>
    requires takes { length request.now ≡ length program.now.request }
    requires suits { Suits program.now state.now.shapes }
    ensures judged { OnOk result ((verdict : verdict_type.Verdict)
        × IsJudged program.now state.now.shapes (tables state.now) (map datum request.now)
        (IsRefused (P.refusals finder.old) (P.refusals finder.new)) verdict
        × IsJudgedWith program.now state.now.shapes (tables state.now) (map datum request.now)
        (RefusedIn program.now.effect (P.refusals finder.old) (P.refusals finder.new)) verdict
        × (replies.new ≡ replies.old ++ printed_answer (Decided version verdict
        (rule_of (tables state.now) verdict)) ∷ [])) }
    ensures same { OnErr result (replies.new ≡ replies.old) }
    ensures used { IsUsed (P.refusals finder.old) (P.refusals finder.new) }
{
    order_of_rows_is_one();
    let verdict = decide(program, state, request, finder, scratch)?;
    let rule = named_rule(state, verdict);
    replies.push_verdict(version, verdict, rule)?;
    Ok(())
}
