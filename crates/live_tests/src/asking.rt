//! One request, and what it is judged with.
ghost use Rattle.decision.specs.Programs.{Suits};
ghost use Rattle.live_seat.specs.Caches.{ServesAt};

use answer_cache::Cache;
use decision::{Program, Scratch};
use live_pair::{Naming, Seat};
use live_seat::{Answered, SeatAnswer, decide_seat, decide_seat_cached, explain_seat};
use outside::NoMemory;
use perm_base::Rule;
use perm_value::{Request, request_of_fields};
use regex_gate::RegexFinder;
use std::alloc::Global;
use std::test::Fail;

/// The request of user0 to read data1, and what it is judged with.
#[derive(Drop)]
pub(crate) struct Asking {
    request: Request,
    finder: RegexFinder,
    scratch: Scratch,
}

impl Asking {
    /// By a finder that has refused nothing.
    pub(crate) fn open(alloc: Global, program: &Program) -> Result<Asking, NoMemory> {
        let Ok(request) = request_of_fields(alloc, "user0, data1, read") else {
            return Err(NoMemory);
        };
        Ok(Asking {
            request,
            finder: RegexFinder::new(alloc),
            scratch: Scratch::for_program(alloc, program),
        })
    }

    /// The verdict at a seat.
    pub(crate) fn verdict<J: Naming>(
        &mut self,
        seat: &mut Seat<J>,
        program: &Program,
    ) -> Result<Answered, Fail>
        requires suits { Suits program.now J.shapes }
    {
        let Ok(()) = program.takes(&self.request) else {
            return Err(Fail::new("another number of values"));
        };
        let told = decide_seat(
            seat,
            program,
            &self.request,
            &mut self.finder,
            &mut self.scratch,
        );
        let Ok(told) = told else {
            return Err(Fail::new("no verdict"));
        };
        Ok(told)
    }

    /// The verdict at a seat, and the rule that it names.
    pub(crate) fn explained<J: Naming>(
        &mut self,
        alloc: Global,
        seat: &mut Seat<J>,
        program: &Program,
    ) -> Result<(Answered, Option<Rule>), Fail>
        requires suits { Suits program.now J.shapes }
    {
        let Ok(()) = program.takes(&self.request) else {
            return Err(Fail::new("another number of values"));
        };
        let told = explain_seat(
            alloc,
            seat,
            program,
            &self.request,
            &mut self.finder,
            &mut self.scratch,
        );
        let Ok(told) = told else {
            return Err(Fail::new("no verdict"));
        };
        Ok(told)
    }

    /// The answer by way of a cache that serves the seat, and serves it afterwards.
    pub(crate) fn answer<J: Naming>(
        &mut self,
        seat: &mut Seat<J>,
        cache: &mut Cache,
        program: &Program,
    ) -> Result<SeatAnswer, Fail>
        requires suits { Suits program.now J.shapes }
        requires serves { ServesAt program.now J.shapes J.opening seat.old.front cache.old }
        ensures serves { ServesAt program.now J.shapes J.opening seat.new.front cache.new }
    {
        let Ok(()) = program.takes(&self.request) else {
            return Err(Fail::new("another number of values"));
        };
        let told = decide_seat_cached(
            seat,
            cache,
            program,
            &self.request,
            &mut self.finder,
            &mut self.scratch,
        );
        let Ok(told) = told else {
            return Err(Fail::new("no answer"));
        };
        Ok(told)
    }
}
