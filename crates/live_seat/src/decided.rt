ghost use Rattle.std.specs.Prelude.{◌≡◌, IfErr, IfOk, length, map, true};
ghost use Rattle.decision.specs.Programs.{Suits};
ghost use Rattle.live_seat.specs.Decided.{IsDecidedAt, IsStoppedAt};
ghost use Rattle.matcher_meaning.specs.Comes.{takes_memory};
ghost use Rattle.perm_value.specs.Seen.{datum};
ghost use Rattle.regex_gate.specs.Refusals.{IsUsed};

use crate::answered::{Answered, SeatStop};
use crate::loan::end_loan;
use core::mem::replace_with;
use decision::{Program, Scratch, decide};
use live_pair::{Naming, Seat};
use perm_value::Request;
use regex_gate::Finder;

/// The verdict on a request, by one entry of a seat: over the policy that is then published, which has all that the seat knew
/// of (Casbin, enforce). It waits for nobody, and memory is taken by `regexMatch` and `eval` alone.
pub fn decide_seat<J: Naming, P: Finder>(
    seat: &mut Seat<J>,
    program: &Program,
    request: &Request,
    finder: &mut P,
    scratch: &mut Scratch,
) -> Result<Answered, SeatStop>
    requires takes { length request.now ≡ length program.now.request }
    requires suits { Suits program.now J.shapes }
    ensures decided { IfOk result (IsDecidedAt program.now J.shapes J.opening
        (map datum request.now) (P.refusals finder.old) (P.refusals finder.new)
        seat.old seat.new) }
    ensures stopped { IfErr result (IsStoppedAt
        (P.refusals finder.old) (P.refusals finder.new) seat.old seat.new) }
    ensures no_memory { IfErr result (λ stop. stop ≡ SeatStop.NoMemory
        → takes_memory program.now.matcher ≡ true) }
    ensures used { IsUsed (P.refusals finder.old) (P.refusals finder.new) }
{
    let (answered, finder) = replace_with(
        seat,
        finder,
        |seat: Seat<J>, finder: &mut P|
            requires { (length request.now ≡ length program.now.request)
                × Suits program.now J.shapes }
        {
            let (seat, answered) = decided_inside(seat, program, request, finder, scratch);
            (seat, (answered, finder))
        },
    );
    end_loan(finder);
    answered
}

// The same, and the seat as it is afterwards.
fn decided_inside<J: Naming, P: Finder>(
    seat: Seat<J>,
    program: &Program,
    request: &Request,
    finder: &mut P,
    scratch: &mut Scratch,
) -> (Seat<J>, Result<Answered, SeatStop>)
    requires takes { length request.now ≡ length program.now.request }
    requires suits { Suits program.now J.shapes }
    ensures decided { IfOk result.1 (IsDecidedAt program.now J.shapes J.opening
        (map datum request.now) (P.refusals finder.old) (P.refusals finder.new)
        seat result.0) }
    ensures stopped { IfErr result.1 (IsStoppedAt
        (P.refusals finder.old) (P.refusals finder.new) seat result.0) }
    ensures no_memory { IfErr result.1 (λ stop. stop ≡ SeatStop.NoMemory
        → takes_memory program.now.matcher ≡ true) }
    ensures used { IsUsed (P.refusals finder.old) (P.refusals finder.new) }
{
    let entered = match seat.enter() {
        Ok(entered) => entered,
        Err(shut) => return (shut.seat, Err(SeatStop::Shut)),
    };
    let version = entered.version();
    let decided = decide(program, entered.state(), request, finder, scratch);
    let seat = entered.leave();
    match decided {
        Ok(verdict) => (seat, Ok(Answered { version, verdict })),
        Err(_) => (seat, Err(SeatStop::NoMemory)),
    }
}
