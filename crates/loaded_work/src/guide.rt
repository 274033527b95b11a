ghost use Rattle.std.specs.Prelude.{◌≡◌, ◌≤◌, IfErr, IfOk, Ok, OnErr, OnOk, map, true};
ghost use Rattle.near_miss.specs.Parts.{AreParts};
ghost use Rattle.outside.specs.Faults.{Rose};
ghost use Rattle.perm_value.specs.Seen.{datum};
ghost use Rattle.policy_state.specs.States.{tables};
ghost use Rattle.regex_gate.specs.Refusals.{IsUsed};
ghost use Rattle.script_read.specs.Named.{is_named};
ghost use Rattle.script_read.specs.Said.{asks, reading};
ghost use Rattle.script_read.specs.Script.{IsRequests};
ghost use Rattle.version_log.specs.Log.{versions};
ghost use Rattle.decision.specs.Programs.{Suits};
ghost use Rattle.loaded_work.specs.Helps.ExplainedLines.{AreExplained, ExplainedAll, ExplainedSome, ExplainsLine, TellsBelow, TellsExplained};
ghost use Rattle.loaded_work.specs.Helps.TaskSteps.{IsReady, StopsLine};
ghost use Rattle.loaded_work.specs.Sinks.{taken};
ghost use Rattle.desk_session.specs.Requests.{Refuses};

use crate::court::{ask, next_number};
use crate::gather::push_full;
use crate::loaded::Loaded;
use crate::opened::{Opened, open_loaded};
use decision::{Program, Scratch};
use desk_session::push_request;
use matcher_meaning::case_verdict_is_there;
use near_miss::{Explainer, make_explainer, near_misses, near_misses_are_there, push_near_misses};
use outside::{NoMemory, Sink, push_all};
use perm_value::Request;
use policy_state::PolicyState;
use regex_gate::Finder;
use run_status::Stop;
use script_read::{RequestLine, next_request};
use std::alloc::Global;

/// What requests are explained by: a program, a policy that suits it, the parts of its matcher, whether requests are JSON, and how
/// many near misses are told at most.
#[derive(Clone, Copy)]
pub(crate) struct Guide<'a> {
    pub program: &'a Program,
    pub state: &'a PolicyState,
    pub explainer: &'a Explainer,
    pub json: bool,
    pub most: u32,
}

/// Answers each request of a text by its line, with the first near misses below it.
pub fn explain<K: Sink, P: Finder>(
    alloc: Global,
    loaded: Loaded,
    json: bool,
    most: u32,
    input: &str,
    out: &mut K,
    finder: &mut P,
) -> Result<(), Stop>
    requires { IsReady loaded }
    ensures { AreExplained (IsRequests json input.now) most
        loaded.model loaded.shapes loaded.tables.policy
        (P.refusals finder.old) (P.refusals finder.new)
        (taken (K.taken out.old) (K.faults out.old)) (taken (K.taken out.new) (K.faults out.new))
        result }
{
    let opened = open_loaded(alloc, loaded)?;
    explain_opened(alloc, &opened, json, most, input, out, finder)
}

// The same by what is opened.
fn explain_opened<K: Sink, P: Finder>(
    alloc: Global,
    opened: &Opened,
    json: bool,
    most: u32,
    input: &str,
    out: &mut K,
    finder: &mut P,
) -> Result<(), Stop>
    requires suits { Suits opened.now.program opened.now.state.shapes }
    requires opening { versions opened.now.state.log ≡ 0 }
    ensures { AreExplained (IsRequests json input.now) most
        opened.now.program opened.now.state.shapes (tables opened.now.state)
        (P.refusals finder.old) (P.refusals finder.new)
        (taken (K.taken out.old) (K.faults out.old)) (taken (K.taken out.new) (K.faults out.new))
        result }
{
    let explainer = explainer_of(alloc, &opened.program)?;
    explain_by(alloc, opened, &explainer, json, most, input, out, finder)
}

// The parts of the matcher of a program.
fn explainer_of(alloc: Global, program: &Program) -> Result<Explainer, NoMemory>
    ensures { IfOk result (AreParts program.now) }
{
    make_explainer(alloc, program.model())
}

// The same by the parts of the matcher.
fn explain_by<'a, K: Sink, P: Finder>(
    alloc: Global,
    opened: &'a Opened,
    explainer: &'a Explainer,
    json: bool,
    most: u32,
    input: &str,
    out: &mut K,
    finder: &mut P,
) -> Result<(), Stop>
    requires suits { Suits opened.now.program opened.now.state.shapes }
    requires opening { versions opened.now.state.log ≡ 0 }
    requires parts { AreParts opened.now.program explainer.now }
    ensures { AreExplained (IsRequests json input.now) most
        opened.now.program opened.now.state.shapes (tables opened.now.state)
        (P.refusals finder.old) (P.refusals finder.new)
        (taken (K.taken out.old) (K.faults out.old)) (taken (K.taken out.new) (K.faults out.new))
        result }
{
    let guide = Guide {
        program: &opened.program,
        state: &opened.state,
        explainer,
        json,
        most,
    };
    print_explained(alloc, out, &guide, input, finder)
}

// Prints a piece for each request of a text, numbered from 1.
fn print_explained<K: Sink, P: Finder>(
    alloc: Global,
    out: &mut K,
    guide: &Guide<'_>,
    input: &str,
    finder: &mut P,
) -> Result<(), Stop>
    requires suits { Suits guide.now.program.now guide.now.state.now.shapes }
    requires opening { versions guide.now.state.now.log ≡ 0 }
    requires parts { AreParts guide.now.program.now guide.now.explainer.now }
    ensures printed { OnOk result (ExplainedAll (IsRequests guide.now.json input.now)
        guide.now.most
        guide.now.program.now guide.now.state.now.shapes (tables guide.now.state.now)
        (P.refusals finder.old) (P.refusals finder.new) (K.taken out.old) (K.taken out.new)) }
    ensures stopped { IfErr result (ExplainedSome (IsRequests guide.now.json input.now)
        guide.now.most
        guide.now.program.now guide.now.state.now.shapes (tables guide.now.state.now)
        (P.refusals finder.old) (P.refusals finder.new) (K.taken out.old) (K.taken out.new)
        (Rose (K.faults out.old) (K.faults out.new))) }
    ensures counted { K.faults out.old ≤ K.faults out.new }
    ensures used { IsUsed (P.refusals finder.old) (P.refusals finder.new) }
{
    case_verdict_is_there();
    near_misses_are_there();
    let mut scratch = Scratch::for_program(alloc, guide.program);
    let mut text = String::new(alloc);
    let mut rest = input;
    let mut number = 0;
    while let Some((line, after)) = next_request(rest) {
        number = next_number(number);
        push_explained(alloc, &mut text, number, guide, line, finder, &mut scratch)?;
        push_full(out, &mut text)?;
        rest = after;
    }
    push_all(out, text.as_bytes())?;
    Ok(())
}

// Appends the line of the request with this number, and what stands below it.
fn push_explained<P: Finder>(
    alloc: Global,
    text: &mut String,
    number: u32,
    guide: &Guide<'_>,
    line: &str,
    finder: &mut P,
    scratch: &mut Scratch,
) -> Result<(), NoMemory>
    requires suits { Suits guide.now.program.now guide.now.state.now.shapes }
    ensures explained { OnOk result (ExplainsLine guide.now.explainer.now guide.now.most
        guide.now.program.now guide.now.state.now guide.now.json
        (P.refusals finder.old) (P.refusals finder.new) line.now number text.old text.new) }
    ensures stopped { OnErr result (StopsLine guide.now.program.now
        guide.now.json (P.refusals finder.old) (P.refusals finder.new) line.now) }
{
    let asked = ask(alloc, guide.json, line)?;
    push_asked(alloc, text, number, guide, &asked, finder, scratch)
}

// Appends the line of what is asked, and what stands below it.
fn push_asked<P: Finder>(
    alloc: Global,
    text: &mut String,
    number: u32,
    guide: &Guide<'_>,
    asked: &RequestLine,
    finder: &mut P,
    scratch: &mut Scratch,
) -> Result<(), NoMemory>
    requires suits { Suits guide.now.program.now guide.now.state.now.shapes }
    requires named { is_named (asks (reading asked.now)) ≡ true }
    ensures told { OnOk result (TellsExplained guide.now.explainer.now guide.now.most
        guide.now.program.now guide.now.state.now
        (P.refusals finder.old) (P.refusals finder.new) (reading asked.now) number
        text.old text.new) }
    ensures stopped { OnErr result (Refuses guide.now.program.now
        (P.refusals finder.old) (P.refusals finder.new) (asks (reading asked.now))) }
{
    push_request(
        text,
        number,
        guide.state,
        guide.program,
        asked,
        finder,
        scratch,
    )?;
    push_below(alloc, text, guide, asked, finder)?;
    Ok(())
}

// Appends what stands below the line of what is asked.
fn push_below<P: Finder>(
    alloc: Global,
    text: &mut String,
    guide: &Guide<'_>,
    asked: &RequestLine,
    finder: &mut P,
) -> Result<(), NoMemory>
    ensures told { OnOk result (TellsBelow guide.now.explainer.now guide.now.most
        guide.now.program.now guide.now.state.now
        (P.refusals finder.old) (P.refusals finder.new) (reading asked.now)
        text.old text.new) }
    ensures stopped { OnErr result (Refuses guide.now.program.now
        (P.refusals finder.old) (P.refusals finder.new) (asks (reading asked.now))) }
{
    match asked {
        RequestLine::Request(request) => push_misses(alloc, text, guide, request, finder),
        RequestLine::Refused(_fault) => Ok(()),
    }
}

// Appends the near misses of a request, where it is decided.
fn push_misses<P: Finder>(
    alloc: Global,
    text: &mut String,
    guide: &Guide<'_>,
    request: &Request,
    finder: &mut P,
) -> Result<(), NoMemory>
    ensures told { OnOk result (TellsBelow guide.now.explainer.now guide.now.most
        guide.now.program.now guide.now.state.now
        (P.refusals finder.old) (P.refusals finder.new) (Ok (map datum request.now))
        text.old text.new) }
    ensures stopped { OnErr result (Refuses guide.now.program.now
        (P.refusals finder.old) (P.refusals finder.new) (asks (Ok (map datum request.now)))) }
{
    if let Err(_arity) = guide.program.takes(request) {
        return Ok(());
    }
    let misses = near_misses(
        alloc,
        guide.explainer,
        guide.state,
        request,
        guide.most,
        finder,
    )?;
    push_near_misses(text, guide.explainer, guide.state, misses.as_slice())?;
    Ok(())
}
