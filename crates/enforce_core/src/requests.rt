ghost use Rattle.std.specs.Prelude.{IfErr, IfOk, Ok, map};
ghost use Rattle.decision.specs.Programs.{Suits};
ghost use Rattle.perm_value.specs.Seen.{datum};
ghost use Rattle.enforce_core.specs.Asked.{Asks, AsksValues, LineStops, ReadsLine, ReadsTexts};
ghost use Rattle.enforce_core.specs.Places.{state_at};
ghost use Rattle.enforce_core.specs.Seen.{OnlyAsked};

use crate::enforcer::Enforcer;
use crate::pieces::request_of_texts;
use crate::stops::{AskStop, Decided};
use decision::{Program, Scratch, decide};
use perm_value::Request;
use policy_state::PolicyState;
use regex_keep::KeepingFinder;
use script_read::read_request;
use std::alloc::Global;

impl Enforcer {
    /// The verdict of the policy by which it judges on the request whose values are these texts (Casbin, enforce): they lie one
    /// behind the other in `bytes` and end at `ends`. It takes memory for the request, and `regexMatch` and `eval` take some.
    pub fn enforce(
        &mut self,
        alloc: Global,
        bytes: &[u8],
        ends: &[usize],
    ) -> Result<Decided, AskStop>
        ensures asks { Asks (ReadsTexts bytes.now ends.now) self.old.model
            (state_at self.old.place) self.old.refusals self.new.refusals result }
        ensures only { OnlyAsked self.old self.new }
    {
        let request = request_of_texts(alloc, bytes, ends)?;
        let state = self.place.state();
        judged(
            &self.program,
            state,
            &request,
            &mut self.finder,
            &mut self.scratch,
        )
    }

    /// The same for the request that a line of JSON is.
    pub fn enforce_json(&mut self, alloc: Global, line: &[u8]) -> Result<Decided, AskStop>
        ensures asks { Asks (ReadsLine line.now) self.old.model
            (state_at self.old.place) self.old.refusals self.new.refusals result }
        ensures only { OnlyAsked self.old self.new }
    {
        let request = request_of_json(alloc, line)?;
        let state = self.place.state();
        judged(
            &self.program,
            state,
            &request,
            &mut self.finder,
            &mut self.scratch,
        )
    }
}

// The verdict on a request over a policy, with the policy's version.
fn judged(
    program: &Program,
    state: &PolicyState,
    request: &Request,
    finder: &mut KeepingFinder,
    scratch: &mut Scratch,
) -> Result<Decided, AskStop>
    requires { Suits program.now state.now.shapes }
    ensures { AsksValues program.now state.now finder.old finder.new
        (map datum request.now) result }
{
    if let Err(arity) = program.takes(request) {
        let (got, want) = (arity.got, arity.want);
        return Err(AskStop::Arity { got, want });
    }
    let verdict = decide(program, state, request, finder, scratch)?;
    let version = state.version();
    Ok(Decided { version, verdict })
}

// The request that a line of JSON is.
fn request_of_json(alloc: Global, line: &[u8]) -> Result<Request, AskStop>
    ensures found { IfOk result (λ request. ReadsLine line.now (Ok (map datum request))) }
    ensures stopped { IfErr result (LineStops line.now) }
{
    let Ok(text) = str::from_utf8(line) else {
        return Err(AskStop::NotUtf8 { field: 1 });
    };
    let request = read_request(alloc, true, text)?;
    Ok(request)
}
