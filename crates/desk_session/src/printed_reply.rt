ghost use Rattle.std.specs.Prelude.{◌≡◌, Ok, OnErr, OnOk, map, true};
ghost use Rattle.perm_value.specs.Seen.{datum};
ghost use Rattle.regex_gate.specs.Refusals.{IsUsed};
ghost use Rattle.script_read.specs.Named.{is_named};
ghost use Rattle.script_read.specs.Readings.{request_read};
ghost use Rattle.script_read.specs.Said.{asks, reading};
ghost use Rattle.decision.specs.Programs.{Suits};
ghost use Rattle.desk_session.specs.Requests.{AddsReply, Refuses};

use crate::named::named_rule;
use answer_lines::{Answer, WaitingAnswers};
use decision::{Program, Scratch, decide};
use matcher_meaning::order_of_rows_is_one;
use outside::NoMemory;
use perm_value::{Request, Value};
use policy_state::PolicyState;
use regex_gate::Finder;
use script_read::{AskedLine, RequestLine, read_asked, values_of};
use std::alloc::Global;
use std::mem;

/// Puts what a request of a script, which is read here, is answered over a policy in behind other replies, as it is printed: the answer
/// that `answer_request` gives, with a rule that is not copied. The request is read over the values that are lent, for the sake of their
/// memory; which stand there afterwards is not said. Refused is want of memory alone: then the replies are as they were.
pub fn print_asked<P: Finder>(
    alloc: Global,
    replies: &mut WaitingAnswers,
    state: &PolicyState,
    program: &Program,
    asked: AskedLine<'_>,
    finder: &mut P,
    scratch: &mut Scratch,
    values: &mut Vec<Value>,
) -> Result<(), NoMemory>
    requires suits { Suits program.now state.now.shapes }
    ensures added { OnOk result (AddsReply program.now state.now
        (P.refusals finder.old) (P.refusals finder.new)
        (request_read asked.entry.json asked.entry.line.now) replies.old replies.new) }
    ensures same { OnErr result (replies.new ≡ replies.old) }
    ensures stopped { OnErr result (Refuses program.now
        (P.refusals finder.old) (P.refusals finder.new)
        (asks (request_read asked.entry.json asked.entry.line.now))) }
    ensures used { IsUsed (P.refusals finder.old) (P.refusals finder.new) }
{
    let others = mem::replace(values, Vec::new(alloc));
    let line = read_asked(alloc, others, asked)?;
    let told = print_read(replies, state, program, &line, finder, scratch);
    *values = values_of(alloc, line);
    told
}

// The same for a request that was read.
fn print_read<P: Finder>(
    replies: &mut WaitingAnswers,
    state: &PolicyState,
    program: &Program,
    asked: &RequestLine,
    finder: &mut P,
    scratch: &mut Scratch,
) -> Result<(), NoMemory>
    requires suits { Suits program.now state.now.shapes }
    requires named { is_named (asks (reading asked.now)) ≡ true }
    ensures added { OnOk result (AddsReply program.now state.now
        (P.refusals finder.old) (P.refusals finder.new) (reading asked.now)
        replies.old replies.new) }
    ensures same { OnErr result (replies.new ≡ replies.old) }
    ensures stopped { OnErr result (Refuses program.now
        (P.refusals finder.old) (P.refusals finder.new) (asks (reading asked.now))) }
    ensures used { IsUsed (P.refusals finder.old) (P.refusals finder.new) }
{
    match asked {
        RequestLine::Request(request) => {
            print_judged(replies, state, program, request, finder, scratch)
        }
        RequestLine::Refused(fault) => replies.push_answer(&Answer::Request(*fault)),
    }
}

// What a request is answered.
fn print_judged<P: Finder>(
    replies: &mut WaitingAnswers,
    state: &PolicyState,
    program: &Program,
    request: &Request,
    finder: &mut P,
    scratch: &mut Scratch,
) -> Result<(), NoMemory>
    requires suits { Suits program.now state.now.shapes }
    ensures added { OnOk result (AddsReply program.now state.now
        (P.refusals finder.old) (P.refusals finder.new) (Ok (map datum request.now))
        replies.old replies.new) }
    ensures same { OnErr result (replies.new ≡ replies.old) }
    ensures stopped { OnErr result (Refuses program.now
        (P.refusals finder.old) (P.refusals finder.new) (asks (Ok (map datum request.now)))) }
    ensures used { IsUsed (P.refusals finder.old) (P.refusals finder.new) }
{
    order_of_rows_is_one();
    if let Err(arity) = program.takes(request) {
        let (got, want) = (arity.got, arity.want);
        return replies.push_answer(&Answer::Arity { got, want });
    }
    let verdict = decide(program, state, request, finder, scratch)?;
    let rule = named_rule(state, verdict);
    replies.push_verdict(state.version(), verdict, rule)
}
