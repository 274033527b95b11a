ghost use Rattle.std.specs.Prelude.{◌≡◌, IfOk, OnErr};
ghost use Rattle.script_read.specs.Said.{asks, reading_of, seen};
ghost use Rattle.decision.specs.Programs.{Suits};
ghost use Rattle.desk_session.specs.Requests.{Refuses};
ghost use Rattle.desk_session.specs.Steps.{IsStep, IsStopped};

use crate::asked::asked_in;
use crate::other::answer_other;
use crate::request::answer_text;
use answer_lines::Answer;
use decision::{Program, Scratch};
use outside::NoMemory;
use policy_desk::Desk;
use regex_gate::Finder;
use script_read::{Item, RequestText};
use std::alloc::Global;

/// Answers one item of a script at a desk, and does what it says: requests and queries are answered by the published policy,
/// calls by the drafts (Casbin, enforce and management API). Refused is want of memory alone: then nothing is done, but that a
/// publish may have raised the version before which edits may be let go.
pub fn answer_item<P: Finder>(
    alloc: Global,
    desk: &mut Desk,
    program: &Program,
    item: &Item,
    finder: &mut P,
    scratch: &mut Scratch,
) -> Result<Answer, NoMemory>
    requires suits { Suits program.now desk.old.state.shapes }
    ensures step { IfOk result (IsStep program.now (P.refusals finder.old)
        (P.refusals finder.new) (seen item.now) desk.old desk.new) }
    ensures shapes { desk.new.state.shapes ≡ desk.old.state.shapes }
    ensures stopped { OnErr result (IsStopped desk.old desk.new) }
    ensures refused { OnErr result (Refuses program.now
        (P.refusals finder.old) (P.refusals finder.new) (seen item.now)) }
{
    let Some(asked) = asked_in(item) else {
        return answer_other(&(), alloc, desk, item);
    };
    answer_ask(alloc, desk, program, asked, finder, scratch)
}

// Answers a request by the published policy.
fn answer_ask<P: Finder>(
    alloc: Global,
    desk: &Desk,
    program: &Program,
    asked: &RequestText,
    finder: &mut P,
    scratch: &mut Scratch,
) -> Result<Answer, NoMemory>
    requires suits { Suits program.now desk.now.state.shapes }
    ensures step { IfOk result (IsStep program.now (P.refusals finder.old)
        (P.refusals finder.new) (asks (reading_of asked.now)) desk.now desk.now) }
    ensures refused { OnErr result (Refuses program.now
        (P.refusals finder.old) (P.refusals finder.new) (asks (reading_of asked.now))) }
{
    answer_text(alloc, desk.state(), program, asked, finder, scratch)
}
