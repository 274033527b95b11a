ghost use Rattle.std.specs.Prelude.{◌≡◌, Ok, OnErr, OnOk, map, true};
ghost use Rattle.perm_value.specs.Seen.{datum};
ghost use Rattle.script_read.specs.Named.{is_named};
ghost use Rattle.script_read.specs.Readings.{request_read};
ghost use Rattle.script_read.specs.Said.{asks, reading};
ghost use Rattle.decision.specs.Programs.{Suits};
ghost use Rattle.desk_session.specs.Requests.{Refuses, TellsAnswer};

use crate::named::named_rule;
use answer_lines::{Answer, Line, push_decided, push_line};
use decision::{Program, Scratch, decide};
use matcher_meaning::order_of_rows_is_one;
use outside::NoMemory;
use perm_value::{Request, Value};
use policy_state::PolicyState;
use regex_gate::Finder;
use script_read::{AskedLine, RequestLine, read_asked, values_of};
use std::alloc::Global;
use std::mem;

/// Appends the line that tells what a line of requests is answered over a policy: the answer that `answer_request` gives, as
/// `push_line` tells it, with a rule that is not copied. It takes memory for the text, and for `regexMatch` and `eval` alone;
/// refused is want of it.
pub fn push_request<P: Finder>(
    text: &mut String,
    number: u32,
    state: &PolicyState,
    program: &Program,
    asked: &RequestLine,
    finder: &mut P,
    scratch: &mut Scratch,
) -> Result<(), NoMemory>
    requires suits { Suits program.now state.now.shapes }
    requires named { is_named (asks (reading asked.now)) ≡ true }
    ensures told { OnOk result (TellsAnswer program.now state.now
        (P.refusals finder.old) (P.refusals finder.new) (reading asked.now) number
        text.old text.new) }
    ensures stopped { OnErr result (Refuses program.now
        (P.refusals finder.old) (P.refusals finder.new) (asks (reading asked.now))) }
{
    match asked {
        RequestLine::Request(request) => {
            push_judged(text, number, state, program, request, finder, scratch)
        }
        RequestLine::Refused(fault) => {
            let answer = Answer::Request(*fault);
            push_line(text, &Line { number, answer })
        }
    }
}

/// Appends the line that tells what a request of a script, which is read here, is answered over a policy, as `push_request` says it.
/// The request is read over the values that are lent, for the sake of their memory; which stand there afterwards is not said.
pub fn push_asked<P: Finder>(
    alloc: Global,
    text: &mut String,
    number: u32,
    state: &PolicyState,
    program: &Program,
    asked: AskedLine<'_>,
    finder: &mut P,
    scratch: &mut Scratch,
    values: &mut Vec<Value>,
) -> Result<(), NoMemory>
    requires suits { Suits program.now state.now.shapes }
    ensures told { OnOk result (TellsAnswer program.now state.now
        (P.refusals finder.old) (P.refusals finder.new)
        (request_read asked.entry.json asked.entry.line.now) number text.old text.new) }
    ensures stopped { OnErr result (Refuses program.now
        (P.refusals finder.old) (P.refusals finder.new)
        (asks (request_read asked.entry.json asked.entry.line.now))) }
{
    let others = mem::replace(values, Vec::new(alloc));
    let line = read_asked(alloc, others, asked)?;
    let told = push_request(text, number, state, program, &line, finder, scratch);
    *values = values_of(alloc, line);
    told
}

// Appends the line of what a request is answered.
fn push_judged<P: Finder>(
    text: &mut String,
    number: u32,
    state: &PolicyState,
    program: &Program,
    request: &Request,
    finder: &mut P,
    scratch: &mut Scratch,
) -> Result<(), NoMemory>
    requires suits { Suits program.now state.now.shapes }
    ensures told { OnOk result (TellsAnswer program.now state.now
        (P.refusals finder.old) (P.refusals finder.new) (Ok (map datum request.now)) number
        text.old text.new) }
    ensures stopped { OnErr result (Refuses program.now
        (P.refusals finder.old) (P.refusals finder.new) (asks (Ok (map datum request.now)))) }
{
    order_of_rows_is_one();
    if let Err(arity) = program.takes(request) {
        let (got, want) = (arity.got, arity.want);
        let answer = Answer::Arity { got, want };
        return push_line(text, &Line { number, answer });
    }
    let verdict = decide(program, state, request, finder, scratch)?;
    let rule = named_rule(state, verdict);
    push_decided(text, number, state.version(), verdict, rule)
}
