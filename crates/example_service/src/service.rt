//! The pair: opened over the desk, served at, and closed.
ghost use Rattle.std.specs.Prelude.{◌≡◌, []};
ghost use Rattle.decision.specs.Programs.{Suits};
ghost use Rattle.policy_state.specs.States.{StandsFor, tables};

use crate::beside::read_beside;
use crate::bulletin::Bulletin;
use crate::reader::Reader;
use decision::Program;
use live_pair::{Admin, Naming, OpenedBook, PairPlaces, Seat, open_pair};
use outside::NoMemory;
use policy_desk::Desk;
use std::alloc::Global;
use std::marker::Brand;
use std::sync::Wait;
use std::thread::Threads;

// How many readers there are.
const SEATS: u8 = 4;

/// What was done: how many requests were judged, how many of them in a wrong way, and the last version.
#[derive(Clone, Copy)]
pub(crate) struct Summary {
    pub asked: u64,
    pub wrong: u64,
    pub version: u32,
}

/// Opens a pair over the desk, serves requests at its seats while rules are published, and closes it.
pub(crate) fn serve<R: Threads + Wait + Sync>(
    rt: &R,
    alloc: Global,
    program: &Program,
    desk: Desk,
) -> Result<Summary, NoMemory>
    requires suits { Suits program.now desk.state.shapes }
    requires stands { StandsFor desk.state (tables desk.state) [] }
    requires pending { desk.pending ≡ [] }
{
    serve_pair::<Brand, R>(rt, alloc, program, OpenedBook::new(), desk)
}

// The same for the pair that `J` names.
fn serve_pair<J: Naming + Send + Sync, R: Threads + Wait + Sync>(
    rt: &R,
    alloc: Global,
    program: &Program,
    opened: OpenedBook,
    desk: Desk,
) -> Result<Summary, NoMemory>
    requires book { opened ≡ J.book }
    requires shapes { desk.state.shapes ≡ J.shapes }
    requires stands { StandsFor desk.state J.opening J.first }
    requires pending { desk.pending ≡ [] }
    requires suits { Suits program.now J.shapes }
{
    let mut places = PairPlaces::new();
    let pair = open_pair::<J, R, PairPlaces>(rt, alloc, opened, desk, SEATS, &mut places)?;
    let (mut admin, seats) = pair;
    let summary = serve_seats(rt, alloc, program, &mut admin, seats);
    drop(admin.close(rt));
    summary
}

// Reads at the seats beside the administrator, who tells the readers each front.
fn serve_seats<J: Naming + Send + Sync, R: Threads + Wait + Sync>(
    rt: &R,
    alloc: Global,
    program: &Program,
    admin: &mut Admin<J>,
    seats: Vec<Seat<J>>,
) -> Result<Summary, NoMemory>
    requires suits { Suits program.now J.shapes }
{
    let mut readers = readers_at(alloc, seats)?;
    let bulletin = Bulletin::new(admin.front());
    read_beside(rt, alloc, program, &bulletin, &mut readers, admin)?;
    Ok(summary_of(readers.as_slice(), admin.front().version()))
}

// A reader at each seat.
fn readers_at<J: Naming>(alloc: Global, seats: Vec<Seat<J>>) -> Result<Vec<Reader<J>>, NoMemory> {
    let mut readers = Vec::with_capacity(alloc, seats.len())?;
    for seat in seats {
        readers.push(Reader::at(seat))?;
    }
    Ok(readers)
}

// What the readers did, where this is the last version.
fn summary_of<J: Naming>(readers: &[Reader<J>], version: u32) -> Summary {
    let mut summary = Summary {
        asked: 0,
        wrong: 0,
        version,
    };
    for reader in readers {
        summary.asked = summary.asked.saturating_add(reader.asked());
        summary.wrong = summary.wrong.saturating_add(reader.wrong());
    }
    summary
}
