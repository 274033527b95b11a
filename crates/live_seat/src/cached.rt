ghost use Rattle.std.specs.Prelude.{◌≡◌, IfErr, IfOk, length, map, true};
ghost use Rattle.decision.specs.Programs.{Suits};
ghost use Rattle.live_seat.specs.Caches.{IsCachedAt, IsLeft, ServesAt};
ghost use Rattle.live_seat.specs.Decided.{IsStoppedAt};
ghost use Rattle.matcher_meaning.specs.Comes.{takes_memory};
ghost use Rattle.perm_value.specs.Seen.{datum};
ghost use Rattle.regex_gate.specs.Refusals.{IsUsed};

use crate::answered::{SeatAnswer, SeatStop};
use crate::loan::end_loan;
use answer_cache::{Cache, decide_cached};
use core::mem::replace_with;
use decision::{Program, Scratch};
use live_pair::{Naming, Seat};
use perm_value::Request;
use regex_gate::Finder;

/// What `decide_seat` answers, by way of a cache that its caller keeps for the seat (Casbin, the cached enforcer): over the
/// policy that is then published, whatever the cache holds. A request that stands in the cache is judged no more, until a publish of edits
/// that the seat enters after; then the cache loses all its verdicts (`decide_cached`).
///
/// A new cache serves each seat (`caches_serve_seats`), and one that served a seat serves it again, whatever was answered. A
/// cache serves no seat of another pair, nor one of another program, once it has verdicts.
pub fn decide_seat_cached<J: Naming, P: Finder>(
    seat: &mut Seat<J>,
    cache: &mut Cache,
    program: &Program,
    request: &Request,
    finder: &mut P,
    scratch: &mut Scratch,
) -> Result<SeatAnswer, SeatStop>
    requires takes { length request.now ≡ length program.now.request }
    requires suits { Suits program.now J.shapes }
    requires serves { ServesAt program.now J.shapes J.opening seat.old.front cache.old }
    ensures decided { IfOk result (IsCachedAt program.now J.shapes J.opening
        (map datum request.now) (P.refusals finder.old) (P.refusals finder.new)
        seat.old seat.new cache.old cache.new) }
    ensures serves { ServesAt program.now J.shapes J.opening seat.new.front cache.new }
    ensures capacity { cache.new.capacity ≡ cache.old.capacity }
    ensures stopped { IfErr result (IsStoppedAt
        (P.refusals finder.old) (P.refusals finder.new) seat.old seat.new) }
    ensures left { IfErr result (IsLeft seat.new.front cache.old cache.new) }
    ensures no_memory { IfErr result (λ stop. stop ≡ SeatStop.NoMemory
        → takes_memory program.now.matcher ≡ true) }
    ensures used { IsUsed (P.refusals finder.old) (P.refusals finder.new) }
{
    let (answered, (cache, finder)) = replace_with(
        seat,
        (cache, finder),
        |seat: Seat<J>, lent: (&mut Cache, &mut P)|
            requires { (length request.now ≡ length program.now.request)
                × Suits program.now J.shapes
                × ServesAt program.now J.shapes J.opening seat.front lent.0.now }
        {
            let (cache, finder) = lent;
            let (seat, answered) = cached_inside(seat, cache, program, request, finder, scratch);
            (seat, (answered, (cache, finder)))
        },
    );
    end_loan(cache);
    end_loan(finder);
    answered
}

// The same, and the seat as it is afterwards.
fn cached_inside<J: Naming, P: Finder>(
    seat: Seat<J>,
    cache: &mut Cache,
    program: &Program,
    request: &Request,
    finder: &mut P,
    scratch: &mut Scratch,
) -> (Seat<J>, Result<SeatAnswer, SeatStop>)
    requires takes { length request.now ≡ length program.now.request }
    requires suits { Suits program.now J.shapes }
    requires serves { ServesAt program.now J.shapes J.opening seat.front cache.old }
    ensures decided { IfOk result.1 (IsCachedAt program.now J.shapes J.opening
        (map datum request.now) (P.refusals finder.old) (P.refusals finder.new)
        seat result.0 cache.old cache.new) }
    ensures serves { ServesAt program.now J.shapes J.opening result.0.front cache.new }
    ensures capacity { cache.new.capacity ≡ cache.old.capacity }
    ensures stopped { IfErr result.1 (IsStoppedAt
        (P.refusals finder.old) (P.refusals finder.new) seat result.0) }
    ensures left { IfErr result.1 (IsLeft result.0.front cache.old cache.new) }
    ensures no_memory { IfErr result.1 (λ stop. stop ≡ SeatStop.NoMemory
        → takes_memory program.now.matcher ≡ true) }
    ensures used { IsUsed (P.refusals finder.old) (P.refusals finder.new) }
{
    let entered = match seat.enter() {
        Ok(entered) => entered,
        Err(shut) => return (shut.seat, Err(SeatStop::Shut)),
    };
    let version = entered.version();
    let state = entered.state();
    let decided = decide_cached(cache, program, state, request, finder, scratch);
    let seat = entered.leave();
    match decided {
        Ok(answer) => (seat, Ok(SeatAnswer { version, answer })),
        Err(_) => (seat, Err(SeatStop::NoMemory)),
    }
}
