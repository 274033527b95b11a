ghost use Rattle.std.specs.Prelude.{◌≡◌, ◌<◌};
ghost use Rattle.std.specs.Thread.{IsSync};
ghost use Rattle.decision.specs.contracts.program.Program as program_type;
ghost use Rattle.decision.specs.Programs.{Suits};
ghost use Rattle.live_rounds.specs.Helps.Posts.{AreServedPosts, IsServedPost};

use crate::gate::Gate;
use crate::seat_answers::answer_part;
use crate::stretch::Stretch;
use answer_lines::WaitingAnswers;
use decision::Program;
use live_pair::{Naming, Seat};
use regex_gate::Finder;
use std::alloc::Global;
use std::thread;
use std::thread::Threads;

/// A worker of a round: its seat, its finder, and what it answered to the requests of its part. The parts are lent beside, the first to
/// the first post.
#[derive(Drop)]
pub(crate) struct Post<J: Naming, P: Finder> {
    pub seat: Seat<J>,
    pub finder: P,
    pub replies: WaitingAnswers,
    pub ran_out: bool,
}

impl<J: Naming, P: Finder> Post<J, P> {
    /// A post where nothing was answered yet.
    pub(crate) fn new(alloc: Global, seat: Seat<J>, finder: P) -> Post<J, P>
        ensures seat { result.seat ≡ seat }
        ensures finder { result.finder ≡ finder }
    {
        Post {
            seat,
            finder,
            replies: WaitingAnswers::new(alloc),
            ran_out: false,
        }
    }
}

/// Answers the requests of all posts, each in a thread of its own where one can be started; in the caller's, where they are
/// served alone.
pub(crate) fn serve_all<J: Naming + Send + Sync, R: Threads + Sync, P: Finder, G: Gate>(
    rt: &R,
    alloc: Global,
    program: &Program,
    gate: &G,
    parts: &[Stretch<'_>],
    posts: &mut [Post<J, P>],
    alone: bool,
)
    requires suits { Suits program.now J.shapes }
    ensures { AreServedPosts P.refusals program.now J.shapes J.opening parts.now
        posts.old posts.new }
{
    if posts.is_empty() {
        return;
    }
    share_program(program);
    let threads = threads_for(posts.len(), alone);
    thread::for_each_mut(
        rt,
        posts,
        threads,
        &|worker, post: &mut Post<J, P>|
            requires { Suits program.now J.shapes }
        { serve(alloc, program, worker, gate, parts, post) },
    );
}

// In how many threads so many posts are served at most.
fn threads_for(posts: usize, alone: bool) -> usize
    requires { 0 < posts }
    ensures { 0 < result }
{
    if alone { 1 } else { posts }
}

/// That threads may share a program, as a fact for the calls behind this one.
pub(crate) fn share_program(program: &Program)
    ensures { IsSync program_type.the_row }
{
    share(program);
}

// The same of whatever threads may share.
fn share<T: Sync>(_value: &T)
    ensures { IsSync T.row }
{}

// Answers the requests of a worker's part at its post.
fn serve<J: Naming, P: Finder, G: Gate>(
    alloc: Global,
    program: &Program,
    worker: usize,
    gate: &G,
    parts: &[Stretch<'_>],
    post: &mut Post<J, P>,
)
    requires suits { Suits program.now J.shapes }
    ensures { IsServedPost P.refusals program.now J.shapes J.opening parts.now worker
        post.old post.new }
{
    let Some(part) = parts.get(worker) else {
        post.ran_out = true;
        return;
    };
    let worker = u32::try_from(worker).unwrap_or(u32::MAX);
    let finder = &mut post.finder;
    let Ok(replies) = answer_part(alloc, &mut post.seat, program, part, finder, worker, gate) else {
        post.ran_out = true;
        return;
    };
    post.replies = replies;
}
