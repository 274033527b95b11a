//! A reader, and the stream of requests that it answers.
ghost use Rattle.decision.specs.Programs.{Suits};

use crate::administrator::USERS;
use crate::bulletin::Bulletin;
use decision::{Program, Scratch};
use effect_fold::Verdict;
use live_pair::{Front, Naming, Seat};
use live_seat::{Answered, decide_seat};
use outside::NoMemory;
use perm_value::{Request, request_of_fields};
use regex_gate::RegexFinder;
use std::alloc::Global;
use std::sync::Wait;

// How many requests a reader answers.
const REQUESTS: u32 = 2000;

/// A reader at a seat, and how many requests it asked there, of which so many were answered in a wrong way.
#[derive(Drop)]
pub(crate) struct Reader<J: Naming> {
    seat: Seat<J>,
    asked: u64,
    wrong: u64,
}

impl<J: Naming> Reader<J> {
    /// At this seat, before its first request.
    pub(crate) fn at(seat: Seat<J>) -> Reader<J> {
        Reader {
            seat,
            asked: 0,
            wrong: 0,
        }
    }

    /// How many requests it asked.
    pub(crate) fn asked(&self) -> u64 {
        self.asked
    }

    /// How many of them were answered in a wrong way.
    pub(crate) fn wrong(&self) -> u64 {
        self.wrong
    }

    /// Asks of one user after the other whether it may read.
    pub(crate) fn read<R: Wait>(
        &mut self,
        rt: &R,
        alloc: Global,
        program: &Program,
        bulletin: &Bulletin<J>,
    )
        requires suits { Suits program.now J.shapes }
    {
        let mut finder = RegexFinder::new(alloc);
        let mut scratch = Scratch::for_program(alloc, program);
        for request in 0..REQUESTS {
            let user = request % USERS + 1;
            let front = bulletin.last(rt);
            self.ask(alloc, program, &front, user, &mut finder, &mut scratch);
        }
    }

    // Learns a front, asks whether a user may read, and counts the answer.
    fn ask(
        &mut self,
        alloc: Global,
        program: &Program,
        front: &Front<J>,
        user: u32,
        finder: &mut RegexFinder,
        scratch: &mut Scratch,
    )
        requires suits { Suits program.now J.shapes }
    {
        self.seat.learn(front);
        let answered = judged(alloc, &mut self.seat, program, user, finder, scratch);
        let right = is_right(answered, user, front.version());
        self.asked = self.asked.saturating_add(1);
        self.wrong = self.wrong.saturating_add(u64::from(!right));
    }
}

// What the request of a user to read is answered at a seat, unless memory runs out.
fn judged<J: Naming>(
    alloc: Global,
    seat: &mut Seat<J>,
    program: &Program,
    user: u32,
    finder: &mut RegexFinder,
    scratch: &mut Scratch,
) -> Option<Answered>
    requires suits { Suits program.now J.shapes }
{
    let Ok(request) = request_of(alloc, user) else {
        return None;
    };
    let Ok(()) = program.takes(&request) else {
        return None;
    };
    let Ok(answered) = decide_seat(seat, program, &request, finder, scratch) else {
        return None;
    };
    Some(answered)
}

// The request of a user to read.
fn request_of(alloc: Global, user: u32) -> Result<Request, NoMemory> {
    let fields = format!(in alloc; "user{user}, data1, read")?;
    let Ok(request) = request_of_fields(alloc, fields.as_str()) else {
        return Err(NoMemory);
    };
    Ok(request)
}

// Whether an answer is of this version or a later one, and allows just those users that its version has made readers.
fn is_right(answered: Option<Answered>, user: u32, least: u32) -> bool {
    let Some(answered) = answered else {
        return false;
    };
    let allowed = matches!(answered.verdict, Verdict::Allow(_));
    answered.version >= least && allowed == (user <= answered.version)
}
