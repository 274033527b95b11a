ghost use Rattle.std.specs.Prelude.{◌≡◌, IfOk, Ok, OnErr, map, true};
ghost use Rattle.answer_lines.specs.Told.{is_printable};
ghost use Rattle.perm_value.specs.Seen.{datum};
ghost use Rattle.script_read.specs.Named.{is_named};
ghost use Rattle.script_read.specs.Said.{asks, reading, reading_of};
ghost use Rattle.decision.specs.Programs.{Suits};
ghost use Rattle.desk_session.specs.Requests.{IsAnsweredBy, Refuses};

use crate::named::copy_named;
use answer_lines::Answer;
use decision::{Program, Scratch, decide};
use matcher_meaning::order_of_rows_is_one;
use outside::NoMemory;
use perm_value::Request;
use policy_state::PolicyState;
use regex_gate::Finder;
use script_read::{RequestLine, RequestText, read_text};
use std::alloc::Global;

/// What a line of requests is answered over a policy: the verdict on a request with the policy's version and the rule that the
/// verdict names, or why there is none (Casbin, enforce). A search that the finder refuses is told as a fault. It copies that
/// one rule, and takes memory for this and for `regexMatch` and `eval` alone; refused is want of it.
pub fn answer_request<P: Finder>(
    alloc: Global,
    state: &PolicyState,
    program: &Program,
    asked: &RequestLine,
    finder: &mut P,
    scratch: &mut Scratch,
) -> Result<Answer, NoMemory>
    requires suits { Suits program.now state.now.shapes }
    ensures answer { IfOk result (IsAnsweredBy program.now state.now
        (P.refusals finder.old) (P.refusals finder.new) (reading asked.now)) }
    ensures printable { IfOk result (λ reply. is_named (asks (reading asked.now)) ≡ true
        → is_printable reply ≡ true) }
    ensures stopped { OnErr result (Refuses program.now
        (P.refusals finder.old) (P.refusals finder.new) (asks (reading asked.now))) }
{
    match asked {
        RequestLine::Request(request) => judge(alloc, state, program, request, finder, scratch),
        RequestLine::Refused(fault) => Ok(Answer::Request(*fault)),
    }
}

/// What a request of a script, which is read here, is answered over a policy, as `answer_request` says it.
pub fn answer_text<P: Finder>(
    alloc: Global,
    state: &PolicyState,
    program: &Program,
    text: &RequestText,
    finder: &mut P,
    scratch: &mut Scratch,
) -> Result<Answer, NoMemory>
    requires suits { Suits program.now state.now.shapes }
    ensures answer { IfOk result (IsAnsweredBy program.now state.now
        (P.refusals finder.old) (P.refusals finder.new) (reading_of text.now)) }
    ensures printable { IfOk result (λ reply. is_printable reply ≡ true) }
    ensures stopped { OnErr result (Refuses program.now
        (P.refusals finder.old) (P.refusals finder.new) (asks (reading_of text.now))) }
{
    let asked = read_text(alloc, Vec::new(alloc), text)?;
    answer_request(alloc, state, program, &asked, finder, scratch)
}

// What a request is answered.
fn judge<P: Finder>(
    alloc: Global,
    state: &PolicyState,
    program: &Program,
    request: &Request,
    finder: &mut P,
    scratch: &mut Scratch,
) -> Result<Answer, NoMemory>
    requires suits { Suits program.now state.now.shapes }
    ensures answer { IfOk result (IsAnsweredBy program.now state.now
        (P.refusals finder.old) (P.refusals finder.new) (Ok (map datum request.now))) }
    ensures printable { IfOk result (λ reply. is_printable reply ≡ true) }
    ensures stopped { OnErr result (Refuses program.now
        (P.refusals finder.old) (P.refusals finder.new) (asks (Ok (map datum request.now)))) }
{
    order_of_rows_is_one();
    if let Err(arity) = program.takes(request) {
        let (got, want) = (arity.got, arity.want);
        return Ok(Answer::Arity { got, want });
    }
    let verdict = decide(program, state, request, finder, scratch)?;
    let rule = copy_named(alloc, state, verdict)?;
    let version = state.version();
    Ok(Answer::Decided {
        version,
        verdict,
        rule,
    })
}
