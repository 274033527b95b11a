ghost use Rattle.std.specs.Prelude.{◌≡◌, ◌+◌, ◌≤◌, ◌<◌, IfErr, IfOk, Ok, OnErr, OnOk, length, map, true};
ghost use Rattle.outside.specs.Faults.{Rose};
ghost use Rattle.perm_value.specs.Seen.{datum};
ghost use Rattle.policy_state.specs.States.{tables};
ghost use Rattle.regex_gate.specs.Refusals.{IsUsed};
ghost use Rattle.script_read.specs.Named.{is_named};
ghost use Rattle.script_read.specs.Said.{asks, reading};
ghost use Rattle.script_read.specs.Script.{IsRequests};
ghost use Rattle.version_log.specs.Log.{versions};
ghost use Rattle.decision.specs.Programs.{Suits};
ghost use Rattle.cached_work.specs.CacheHits.{hits_of, opened};
ghost use Rattle.cached_work.specs.Helps.CacheSteps.{AnswersCached, CachedAnswered, IsGoodCache, PrintedCached, TellsCached};
ghost use Rattle.loaded_work.specs.Helps.TaskSteps.{IsReady, PrintedSome, StopsLine};
ghost use Rattle.loaded_work.specs.Sinks.{taken};
ghost use Rattle.desk_session.specs.Requests.{Refuses};

use answer_cache::{Cache, decide_cached};
use answer_lines::{Answer, Line, push_decided, push_line};
use decision::Scratch;
use desk_session::named_rule;
use loaded_work::{Court, Loaded, ask, next_number, open_loaded, push_full};
use matcher_meaning::{case_verdict_is_there, order_of_rows_is_one};
use outside::{NoMemory, Sink, push_all};
use perm_value::Request;
use regex_gate::Finder;
use run_status::{Stop, tell_hits};
use script_read::{RequestLine, next_request};
use std::alloc::Global;

/// Answers each request of a text by a line, by way of a cache of this capacity, and tells on `err` how many came from it.
pub fn enforce_cached<K: Sink, E: Sink, P: Finder>(
    alloc: Global,
    loaded: Loaded,
    json: bool,
    capacity: u32,
    input: &str,
    out: &mut K,
    err: &mut E,
    finder: &mut P,
) -> Result<(), Stop>
    requires ready { IsReady loaded }
    requires some { 0 < capacity }
    requires most { capacity ≤ 10000 }
    ensures { CachedAnswered (IsRequests json input.now)
        loaded.model loaded.shapes loaded.tables.policy capacity
        (P.refusals finder.old) (P.refusals finder.new)
        (taken (K.taken out.old) (K.faults out.old)) (taken (K.taken out.new) (K.faults out.new))
        (taken (E.taken err.old) (E.faults err.old)) (taken (E.taken err.new) (E.faults err.new))
        result }
{
    let opened = open_loaded(alloc, loaded)?;
    let court = Court {
        program: &opened.program,
        state: &opened.state,
        json,
    };
    answer_cached(alloc, &court, capacity, input, out, err, finder)
}

// The same at a court.
fn answer_cached<K: Sink, E: Sink, P: Finder>(
    alloc: Global,
    court: &Court<'_>,
    capacity: u32,
    input: &str,
    out: &mut K,
    err: &mut E,
    finder: &mut P,
) -> Result<(), Stop>
    requires suits { Suits court.now.program.now court.now.state.now.shapes }
    requires opening { versions court.now.state.now.log ≡ 0 }
    requires some { 0 < capacity }
    requires most { capacity ≤ 10000 }
    ensures { CachedAnswered (IsRequests court.now.json input.now)
        court.now.program.now court.now.state.now.shapes (tables court.now.state.now) capacity
        (P.refusals finder.old) (P.refusals finder.new)
        (taken (K.taken out.old) (K.faults out.old)) (taken (K.taken out.new) (K.faults out.new))
        (taken (E.taken err.old) (E.faults err.old)) (taken (E.taken err.new) (E.faults err.new))
        result }
{
    let mut cache = Cache::open(alloc, court.state, capacity)?;
    let hits = print_cached(alloc, out, court, input, &mut cache, finder)?;
    tell_hits(err, hits);
    Ok(())
}

// Prints a line for each request of a text, numbered from 1; how many were answered from the cache.
fn print_cached<K: Sink, P: Finder>(
    alloc: Global,
    out: &mut K,
    court: &Court<'_>,
    input: &str,
    cache: &mut Cache,
    finder: &mut P,
) -> Result<u64, Stop>
    requires suits { Suits court.now.program.now court.now.state.now.shapes }
    requires opening { versions court.now.state.now.log ≡ 0 }
    requires fresh { cache.old ≡ opened cache.old.capacity }
    ensures printed { IfOk result (PrintedCached (IsRequests court.now.json input.now)
        court.now.program.now court.now.state.now.shapes (tables court.now.state.now)
        (P.refusals finder.old) (P.refusals finder.new) (K.taken out.old) (K.taken out.new)
        cache.old.capacity) }
    ensures stopped { IfErr result (PrintedSome (IsRequests court.now.json input.now)
        court.now.program.now court.now.state.now.shapes (tables court.now.state.now)
        (P.refusals finder.old) (P.refusals finder.new) (K.taken out.old) (K.taken out.new)
        (Rose (K.faults out.old) (K.faults out.new))) }
    ensures counted { K.faults out.old ≤ K.faults out.new }
    ensures used { IsUsed (P.refusals finder.old) (P.refusals finder.new) }
{
    case_verdict_is_there();
    let mut scratch = Scratch::for_program(alloc, court.program);
    let mut text = String::new(alloc);
    let mut rest = input;
    let mut number = 0;
    let mut hits = 0;
    while let Some((line, after)) = next_request(rest) {
        number = next_number(number);
        let hit = push_cached(
            alloc,
            &mut text,
            number,
            court,
            line,
            cache,
            finder,
            &mut scratch,
        )?;
        hits = counted(hits, hit, input);
        push_full(out, &mut text)?;
        rest = after;
    }
    push_all(out, text.as_bytes())?;
    Ok(hits)
}

// One hit more, where it is one: there are fewer so far than the input has bytes.
fn counted(hits: u64, hit: bool, input: &str) -> u64
    requires { hits < length input.now }
    ensures { result ≡ hits + hits_of hit }
{
    prove!(hits < input.len() as u64);
    hits + u64::from(hit)
}

// Appends the line of the request with this number; whether it was answered from the cache.
fn push_cached<P: Finder>(
    alloc: Global,
    text: &mut String,
    number: u32,
    court: &Court<'_>,
    line: &str,
    cache: &mut Cache,
    finder: &mut P,
    scratch: &mut Scratch,
) -> Result<bool, NoMemory>
    requires suits { Suits court.now.program.now court.now.state.now.shapes }
    requires good { IsGoodCache court.now.program.now court.now.state.now cache.old }
    ensures answered { IfOk result (AnswersCached court.now.program.now court.now.state.now
        court.now.json (P.refusals finder.old) (P.refusals finder.new) line.now number
        text.old text.new cache.old cache.new) }
    ensures good { OnOk result (IsGoodCache court.now.program.now court.now.state.now cache.new) }
    ensures stopped { OnErr result (StopsLine court.now.program.now
        court.now.json (P.refusals finder.old) (P.refusals finder.new) line.now) }
{
    let asked = ask(alloc, court.json, line)?;
    push_asked(text, number, court, &asked, cache, finder, scratch)
}

// Appends the line of what is asked.
fn push_asked<P: Finder>(
    text: &mut String,
    number: u32,
    court: &Court<'_>,
    asked: &RequestLine,
    cache: &mut Cache,
    finder: &mut P,
    scratch: &mut Scratch,
) -> Result<bool, NoMemory>
    requires suits { Suits court.now.program.now court.now.state.now.shapes }
    requires named { is_named (asks (reading asked.now)) ≡ true }
    requires good { IsGoodCache court.now.program.now court.now.state.now cache.old }
    ensures told { IfOk result (TellsCached court.now.program.now court.now.state.now
        (P.refusals finder.old) (P.refusals finder.new) (reading asked.now) number
        text.old text.new cache.old cache.new) }
    ensures good { OnOk result (IsGoodCache court.now.program.now court.now.state.now cache.new) }
    ensures stopped { OnErr result (Refuses court.now.program.now
        (P.refusals finder.old) (P.refusals finder.new) (asks (reading asked.now))) }
{
    match asked {
        RequestLine::Request(request) => {
            push_found(text, number, court, request, cache, finder, scratch)
        }
        RequestLine::Refused(fault) => {
            let answer = Answer::Request(*fault);
            push_line(text, &Line { number, answer })?;
            Ok(false)
        }
    }
}

// Appends the line of what a request is answered.
fn push_found<P: Finder>(
    text: &mut String,
    number: u32,
    court: &Court<'_>,
    request: &Request,
    cache: &mut Cache,
    finder: &mut P,
    scratch: &mut Scratch,
) -> Result<bool, NoMemory>
    requires suits { Suits court.now.program.now court.now.state.now.shapes }
    requires good { IsGoodCache court.now.program.now court.now.state.now cache.old }
    ensures told { IfOk result (TellsCached court.now.program.now court.now.state.now
        (P.refusals finder.old) (P.refusals finder.new) (Ok (map datum request.now)) number
        text.old text.new cache.old cache.new) }
    ensures good { OnOk result (IsGoodCache court.now.program.now court.now.state.now cache.new) }
    ensures stopped { OnErr result (Refuses court.now.program.now
        (P.refusals finder.old) (P.refusals finder.new) (asks (Ok (map datum request.now)))) }
{
    order_of_rows_is_one();
    if let Err(arity) = court.program.takes(request) {
        let (got, want) = (arity.got, arity.want);
        let answer = Answer::Arity { got, want };
        push_line(text, &Line { number, answer })?;
        return Ok(false);
    }
    let found = decide_cached(cache, court.program, court.state, request, finder, scratch)?;
    let rule = named_rule(court.state, found.verdict);
    push_decided(text, number, court.state.version(), found.verdict, rule)?;
    Ok(found.hit)
}
