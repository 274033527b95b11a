//! The pair that is tried.
ghost use Rattle.std.specs.Prelude.{◌≡◌, []};
ghost use Rattle.decision.specs.Programs.{Suits};
ghost use Rattle.perm_base.specs.Shapes.{AreValid};
ghost use Rattle.policy_state.specs.States.{StandsFor};

use crate::caches::asks_by_cache;
use crate::desks::{desk, program};
use crate::publishes::publishes_again;
use decision::Program;
use live_pair::{Admin, Naming, OpenedBook, PairPlaces, Seat, open_pair};
use perm_base::Shapes;
use policy_desk::Desk;
use std::alloc::Global;
use std::marker::Brand;
use std::process::Abort;
use std::sync::Wait;
use std::test::Fail;
use std::thread::Threads;

/// What is tried with a pair that was just opened.
#[derive(Clone, Copy)]
pub(crate) enum Trial {
    Published,
    Cached,
}

/// Opens a pair with one seat over a policy without rules, tries it, and closes it.
pub(crate) fn tried<R: Threads + Wait + Abort + Sync>(
    rt: &R,
    alloc: Global,
    trial: Trial,
) -> Result<(), Fail> {
    let (program, shapes) = program(alloc)?;
    tried_by(rt, alloc, &program, shapes, trial)
}

fn tried_by<R: Threads + Wait + Abort + Sync>(
    rt: &R,
    alloc: Global,
    program: &Program,
    shapes: Shapes,
    trial: Trial,
) -> Result<(), Fail>
    requires suits { Suits program.now shapes }
    requires valid { AreValid shapes }
{
    let desk = desk(alloc, shapes)?;
    tried_over::<Brand, R>(rt, alloc, OpenedBook::new(), desk, program, trial)
}

fn tried_over<J: Naming + Send + Sync, R: Threads + Wait + Abort + Sync>(
    rt: &R,
    alloc: Global,
    opened: OpenedBook,
    desk: Desk,
    program: &Program,
    trial: Trial,
) -> Result<(), Fail>
    requires book { opened ≡ J.book }
    requires shapes { desk.state.shapes ≡ J.shapes }
    requires stands { StandsFor desk.state J.opening J.first }
    requires pending { desk.pending ≡ [] }
    requires suits { Suits program.now J.shapes }
{
    let mut places = PairPlaces::new();
    let pair = open_pair::<J, R, PairPlaces>(rt, alloc, opened, desk, 1, &mut places);
    let (mut admin, seats) = pair?;
    let outcome = run(trial, rt, alloc, &mut admin, seats, program);
    drop(admin.close(rt));
    outcome
}

// Tries the seat of a pair.
fn run<J: Naming + Send + Sync, R: Threads + Wait + Abort + Sync>(
    trial: Trial,
    rt: &R,
    alloc: Global,
    admin: &mut Admin<J>,
    seats: Vec<Seat<J>>,
    program: &Program,
) -> Result<(), Fail>
    requires suits { Suits program.now J.shapes }
{
    let mut seats = seats;
    let Some(seat) = seats.pop() else {
        return Err(Fail::new("no seat"));
    };
    match trial {
        Trial::Published => publishes_again(rt, alloc, admin, seat),
        Trial::Cached => asks_by_cache(rt, alloc, admin, seat, program),
    }
}
