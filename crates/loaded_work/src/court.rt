ghost use Rattle.std.specs.Prelude.{◌≡◌, ◌≤◌, ◌+◌, IfErr, IfOk, OnErr, OnOk, min, true};
ghost use Rattle.outside.specs.Faults.{Rose};
ghost use Rattle.policy_state.specs.States.{tables};
ghost use Rattle.regex_gate.specs.Refusals.{IsUsed};
ghost use Rattle.script_read.specs.Named.{is_named};
ghost use Rattle.script_read.specs.Reads.{Says};
ghost use Rattle.script_read.specs.Said.{asks, reading};
ghost use Rattle.script_read.specs.Script.{IsRequests};
ghost use Rattle.version_log.specs.Log.{versions};
ghost use Rattle.decision.specs.Programs.{Suits};
ghost use Rattle.loaded_work.specs.Helps.TaskSteps.{AnswersLine, AreAnswered, IsReady, PrintedAll, PrintedSome, StopsLine};
ghost use Rattle.loaded_work.specs.Sinks.{taken};

use crate::gather::push_full;
use crate::loaded::Loaded;
use crate::opened::open_loaded;
use decision::{Program, Scratch};
use desk_session::push_request;
use matcher_meaning::case_verdict_is_there;
use outside::{NoMemory, Sink, push_all};
use perm_value::Value;
use policy_state::PolicyState;
use regex_gate::Finder;
use run_status::Stop;
use script_read::{RequestLine, next_request, read_line_over, values_of};
use std::alloc::Global;
use std::mem;

/// What requests are answered by: a program, a policy that suits it, and whether requests are JSON.
#[derive(Clone, Copy)]
pub struct Court<'a> {
    pub program: &'a Program,
    pub state: &'a PolicyState,
    pub json: bool,
}

/// Answers each request of a text by a line.
pub fn enforce<K: Sink, P: Finder>(
    alloc: Global,
    loaded: Loaded,
    json: bool,
    input: &str,
    out: &mut K,
    finder: &mut P,
) -> Result<(), Stop>
    requires { IsReady loaded }
    ensures { AreAnswered (IsRequests json input.now) loaded
        (P.refusals finder.old) (P.refusals finder.new)
        (taken (K.taken out.old) (K.faults out.old)) (taken (K.taken out.new) (K.faults out.new))
        result }
{
    let opened = open_loaded(alloc, loaded)?;
    let court = Court {
        program: &opened.program,
        state: &opened.state,
        json,
    };
    print_answers(alloc, out, &court, input, finder)
}

// Prints a line for each request of a text, numbered from 1.
fn print_answers<K: Sink, P: Finder>(
    alloc: Global,
    out: &mut K,
    court: &Court<'_>,
    input: &str,
    finder: &mut P,
) -> Result<(), Stop>
    requires suits { Suits court.now.program.now court.now.state.now.shapes }
    requires opening { versions court.now.state.now.log ≡ 0 }
    ensures printed { OnOk result (PrintedAll (IsRequests court.now.json input.now)
        court.now.program.now court.now.state.now.shapes (tables court.now.state.now)
        (P.refusals finder.old) (P.refusals finder.new) (K.taken out.old) (K.taken out.new)) }
    ensures stopped { IfErr result (PrintedSome (IsRequests court.now.json input.now)
        court.now.program.now court.now.state.now.shapes (tables court.now.state.now)
        (P.refusals finder.old) (P.refusals finder.new) (K.taken out.old) (K.taken out.new)
        (Rose (K.faults out.old) (K.faults out.new))) }
    ensures counted { K.faults out.old ≤ K.faults out.new }
    ensures used { IsUsed (P.refusals finder.old) (P.refusals finder.new) }
{
    case_verdict_is_there();
    let mut scratch = Scratch::for_program(alloc, court.program);
    let mut values = Vec::new(alloc);
    let mut text = String::new(alloc);
    let mut rest = input;
    let mut number = 0;
    while let Some((line, after)) = next_request(rest) {
        number = next_number(number);
        push_answer(
            alloc,
            &mut text,
            number,
            court,
            line,
            finder,
            &mut scratch,
            &mut values,
        )?;
        push_full(out, &mut text)?;
        rest = after;
    }
    push_all(out, text.as_bytes())?;
    Ok(())
}

/// The number behind this one, as far as numbers go.
pub fn next_number(number: u32) -> u32
    ensures { result ≡ min (number + 1) 4294967295 }
{
    number.saturating_add(1)
}

// Appends the line of the request with this number. It is read over the values that are lent, for the sake of their memory; which
// stand there afterwards is not said.
fn push_answer<P: Finder>(
    alloc: Global,
    text: &mut String,
    number: u32,
    court: &Court<'_>,
    line: &str,
    finder: &mut P,
    scratch: &mut Scratch,
    values: &mut Vec<Value>,
) -> Result<(), NoMemory>
    requires suits { Suits court.now.program.now court.now.state.now.shapes }
    ensures answered { OnOk result (AnswersLine court.now.program.now court.now.state.now
        court.now.json (P.refusals finder.old) (P.refusals finder.new) line.now number
        text.old text.new) }
    ensures stopped { OnErr result (StopsLine court.now.program.now
        court.now.json (P.refusals finder.old) (P.refusals finder.new) line.now) }
{
    let others = mem::replace(values, Vec::new(alloc));
    let asked = read_line_over(alloc, others, court.json, line)?;
    let told = push_request(
        text,
        number,
        court.state,
        court.program,
        &asked,
        finder,
        scratch,
    );
    *values = values_of(alloc, asked);
    told
}

/// What a line asks, or why it is no request.
pub fn ask(alloc: Global, json: bool, line: &str) -> Result<RequestLine, NoMemory>
    ensures says { IfOk result (λ asked. Says json line.now (reading asked)) }
    ensures named { IfOk result (λ asked. is_named (asks (reading asked)) ≡ true) }
{
    read_line_over(alloc, Vec::new(alloc), json, line)
}
