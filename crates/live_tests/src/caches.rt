//! Answers at a seat by way of its cache, and without it.
ghost use Rattle.std.specs.Prelude.{◌≡◌, [], IfOk};
ghost use Rattle.decision.specs.Programs.{Suits};
ghost use Rattle.live_seat.specs.Caches.{ServesAt};

use crate::asking::Asking;
use crate::publishes::publish_at_last;
use crate::trial::{Trial, tried};
use answer_cache::{Cache, CachedAnswer, Kept};
use decision::Program;
use effect_fold::Verdict;
use live_pair::{Admin, Naming, Seat};
use live_seat::SeatAnswer;
use outside::NoMemory;
use policy_state::PolicyState;
use std::alloc::Global;
use std::process::Abort;
use std::sync::Wait;
use std::test::Fail;

#[test]
fn a_cache_follows_its_seat_over_a_publish(rt: HostRuntime) -> Result<(), Fail> {
    tried(&rt, rt.alloc(), Trial::Cached)
}

// Opens what the seat asks with.
pub(crate) fn asks_by_cache<J: Naming, R: Wait + Abort>(
    rt: &R,
    alloc: Global,
    admin: &mut Admin<J>,
    seat: Seat<J>,
    program: &Program,
) -> Result<(), Fail>
    requires suits { Suits program.now J.shapes }
{
    let mut seat = seat;
    let mut asking = Asking::open(alloc, program)?;
    follows(rt, alloc, admin, &mut seat, program, &mut asking)
}

// Opens the cache of the seat.
fn follows<J: Naming, R: Wait + Abort>(
    rt: &R,
    alloc: Global,
    admin: &mut Admin<J>,
    seat: &mut Seat<J>,
    program: &Program,
    asking: &mut Asking,
) -> Result<(), Fail>
    requires suits { Suits program.now J.shapes }
{
    let mut cache = new_cache(alloc, admin.desk().state())?;
    answers(rt, alloc, admin, seat, &mut cache, program, asking)
}

// A cache without verdicts.
fn new_cache(alloc: Global, state: &PolicyState) -> Result<Cache, NoMemory>
    ensures none { IfOk result (λ cache. cache.entries ≡ []) }
{
    Cache::open(alloc, state, 10)
}

// The seat answers before the publish of a rule and twice after it, and then decides without the cache, and names the rule.
fn answers<J: Naming, R: Wait + Abort>(
    rt: &R,
    alloc: Global,
    admin: &mut Admin<J>,
    seat: &mut Seat<J>,
    cache: &mut Cache,
    program: &Program,
    asking: &mut Asking,
) -> Result<(), Fail>
    requires suits { Suits program.now J.shapes }
    requires serves { ServesAt program.now J.shapes J.opening seat.old.front cache.old }
{
    let before = asking.answer(seat, cache, program)?;
    assert_eq!(rt; before, found(0, Verdict::Deny(None), false));
    let failed = publish_at_last(rt, alloc, admin, 0);
    assert_eq!(rt; failed, 0);
    let after = asking.answer(seat, cache, program)?;
    assert_eq!(rt; after, found(1, Verdict::Allow(Some(1)), false));
    let after = asking.answer(seat, cache, program)?;
    assert_eq!(rt; after, found(1, Verdict::Allow(Some(1)), true));
    let told = asking.verdict(seat, program)?;
    assert_eq!(rt; told.version, 1);
    assert_eq!(rt; told.verdict, Verdict::Allow(Some(1)));
    let (explained, rule) = asking.explained(alloc, seat, program)?;
    assert_eq!(rt; explained, told);
    let Some(rule) = rule else {
        return Err(Fail::new("no rule"));
    };
    assert_eq!(rt; rule.place_of(b"user0"), Some(0));
    assert_eq!(rt; rule.place_of(b"data1"), Some(1));
    Ok(())
}

fn found(version: u32, verdict: Verdict, hit: bool) -> SeatAnswer {
    let kept = Kept::Yes;
    let answer = CachedAnswer { verdict, hit, kept };
    SeatAnswer { version, answer }
}
