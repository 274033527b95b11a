ghost use Rattle.std.specs.Prelude.{IfOk, List, OnErr};
ghost use Rattle.decision.specs.Programs.{Suits};
ghost use Rattle.live_rounds.specs.Administrators.{IsAdminAmid, IsAdminBehind};
ghost use Rattle.live_rounds.specs.Helps.Posts.{AreServedPosts};
ghost use Rattle.live_rounds.specs.Helps.Turns.{AreOthersDone};
ghost use Rattle.live_rounds.specs.Stretches.{items_of};
ghost use Rattle.script_read.specs.Said.{Said};

use crate::beside::{OthersDone, answer_others};
use crate::gate::Gate;
use crate::posts::{Post, serve_all, share_program};
use crate::stretch::Stretch;
use decision::Program;
use live_pair::{Admin, Naming};
use outside::NoMemory;
use regex_gate::Finder;
use std::alloc::Global;
use std::sync::Wait;
use std::thread::{Threads, join_mut};

/// The workers answer the requests of their posts, while the administrator answers and does the other items of a round in the
/// caller. Where no thread can be started, and where there is no request, the caller does all of it.
pub(crate) fn work_together<J: Naming + Send + Sync, R: Threads + Wait + Sync, P: Finder, G: Gate>(
    rt: &R,
    alloc: Global,
    program: &Program,
    round: &Stretch<'_>,
    gate: &G,
    admin: &mut Admin<J>,
    parts: &[Stretch<'_>],
    posts: &mut Vec<Post<J, P>>,
) -> Result<OthersDone, NoMemory>
    requires suits { Suits program.now J.shapes }
    ensures done { IfOk result (AreOthersDone J.shapes J.opening (items_of round.now)
        admin.old admin.new) }
    ensures stopped { OnErr result ((before : List Said)
        → IsAdminBehind J.shapes J.opening before admin.old
        → IsAdminAmid J.shapes J.opening before (items_of round.now)
        admin.new) }
    ensures served { AreServedPosts P.refusals program.now J.shapes J.opening
        parts.now posts.old.items posts.new.items }
{
    let items = &round.items;
    let before = round.before;
    let mut beside = || answer_others(rt, alloc, items, before, gate, admin);
    if round.requests == 0 {
        return in_turn(rt, alloc, program, gate, parts, posts, &mut beside);
    }
    let alone = round.requests == 1;
    with_workers(rt, alloc, program, gate, parts, posts, alone, &mut beside)
}

// The posts, and then whatever the caller does, without a thread.
fn in_turn<
    J: Naming + Send + Sync,
    R: Threads + Wait + Sync,
    P: Finder,
    G: Gate,
    F: FnMut() -> Result<OthersDone, NoMemory>,
>(
    rt: &R,
    alloc: Global,
    program: &Program,
    gate: &G,
    parts: &[Stretch<'_>],
    posts: &mut Vec<Post<J, P>>,
    beside: &mut F,
) -> Result<OthersDone, NoMemory>
    requires suits { Suits program.now J.shapes }
    requires called { F.pre beside.old }
    ensures called { F.step beside.old result beside.new }
    ensures served { AreServedPosts P.refusals program.now J.shapes J.opening
        parts.now posts.old.items posts.new.items }
{
    serve_vec(rt, alloc, program, gate, parts, posts, true);
    beside()
}

// The posts beside whatever the caller does meanwhile: so each function has one closure. Where they are to be served alone,
// one thread serves all of them.
fn with_workers<
    J: Naming + Send + Sync,
    R: Threads + Wait + Sync,
    P: Finder,
    G: Gate,
    F: FnMut() -> Result<OthersDone, NoMemory>,
>(
    rt: &R,
    alloc: Global,
    program: &Program,
    gate: &G,
    parts: &[Stretch<'_>],
    posts: &mut Vec<Post<J, P>>,
    alone: bool,
    beside: &mut F,
) -> Result<OthersDone, NoMemory>
    requires suits { Suits program.now J.shapes }
    requires called { F.pre beside.old }
    ensures called { F.step beside.old result beside.new }
    ensures served { AreServedPosts P.refusals program.now J.shapes J.opening
        parts.now posts.old.items posts.new.items }
{
    let mut workers = ||
        requires { Suits program.now J.shapes }
    { serve_vec(rt, alloc, program, gate, parts, posts, alone) };
    let (_, done) = join_mut(rt, &mut workers, beside);
    done
}

// The workers' side.
fn serve_vec<J: Naming + Send + Sync, R: Threads + Sync, P: Finder, G: Gate>(
    rt: &R,
    alloc: Global,
    program: &Program,
    gate: &G,
    parts: &[Stretch<'_>],
    posts: &mut Vec<Post<J, P>>,
    alone: bool,
)
    requires suits { Suits program.now J.shapes }
    ensures { AreServedPosts P.refusals program.now J.shapes J.opening
        parts.now posts.old.items posts.new.items }
{
    serve_all(rt, alloc, program, gate, parts, posts.as_mut_slice(), alone);
}
