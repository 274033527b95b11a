ghost use Rattle.std.specs.Prelude.{◌≡◌, ◌++◌, ◌∷◌, [], IfErr, IfOk, IsErrOf, Ok, OnErr, OnOk, map, true};
ghost use Rattle.answer_lines.specs.Printed.{printed_answer};
ghost use Rattle.answer_lines.specs.Told.{is_printable};
ghost use Rattle.decision.specs.Programs.{Suits};
ghost use Rattle.live_rounds.specs.Helps.Behind.{IsServedBehind};
ghost use Rattle.live_rounds.specs.Served.{IsPartServed};
ghost use Rattle.live_rounds.specs.Stretches.{items_of};
ghost use Rattle.live_seat.specs.Decided.{IsStoppedAt};
ghost use Rattle.perm_value.specs.Seen.{datum};
ghost use Rattle.regex_gate.specs.Refusals.{IsUsed};
ghost use Rattle.script_read.specs.Named.{is_named};
ghost use Rattle.script_read.specs.Readings.{request_read};
ghost use Rattle.script_read.specs.Said.{asks, reading};

use crate::gate::Gate;
use crate::stretch::Stretch;
use answer_lines::WaitingAnswers;
use decision::{Program, Scratch};
use desk_session::Answer;
use live_pair::{Naming, Seat};
use live_seat::{SeatStop, print_seat};
use outside::NoMemory;
use perm_value::{Request, Value};
use regex_gate::Finder;
use script_read::{AskedLine, FirstItem, RequestLine, read_asked, values_of};
use std::alloc::Global;
use std::mem;

// The line of an answer to a request has mostly no more bytes.
const BYTES_EACH: usize = 56;

/// Answers the requests among a worker's items at a seat, each in its turn, until an entry is refused. Memory for the replies is taken
/// at once.
pub(crate) fn answer_part<J: Naming, P: Finder, G: Gate>(
    alloc: Global,
    seat: &mut Seat<J>,
    program: &Program,
    part: &Stretch<'_>,
    finder: &mut P,
    worker: u32,
    gate: &G,
) -> Result<WaitingAnswers, NoMemory>
    requires suits { Suits program.now J.shapes }
    ensures served { IfOk result (λ replies. IsPartServed program.now J.shapes J.opening
        (items_of part.now) (P.refusals finder.old) (P.refusals finder.new)
        seat.old seat.new replies) }
    ensures used { IsUsed (P.refusals finder.old) (P.refusals finder.new) }
{
    let bytes = part.requests.saturating_mul(BYTES_EACH);
    let mut replies = WaitingAnswers::with_room(alloc, part.requests, bytes)?;
    let mut scratch = Scratch::for_program(alloc, program);
    let mut values = Vec::new(alloc);
    let mut left = part.items.again();
    let mut number = part.before;
    while let Some(first) = left.next_told() {
        number = number.saturating_add(1);
        let FirstItem::Request(asked) = first else {
            continue;
        };
        gate.pass(worker, number);
        replies.expect(number);
        match answer_asked(
            alloc,
            seat,
            program,
            asked,
            finder,
            &mut scratch,
            &mut values,
            &mut replies,
        ) {
            Ok(()) => {}
            Err(SeatStop::Shut) => return Ok(replies),
            Err(SeatStop::NoMemory) => return Err(NoMemory),
        }
    }
    Ok(replies)
}

// Answers a request at a seat, by one entry where it is decided, and puts the reply in behind others. Its values take the place of
// others.
fn answer_asked<J: Naming, P: Finder>(
    alloc: Global,
    seat: &mut Seat<J>,
    program: &Program,
    asked: AskedLine<'_>,
    finder: &mut P,
    scratch: &mut Scratch,
    values: &mut Vec<Value>,
    replies: &mut WaitingAnswers,
) -> Result<(), SeatStop>
    requires suits { Suits program.now J.shapes }
    ensures served { OnOk result (IsServedBehind program.now J.shapes J.opening
        (request_read asked.entry.json asked.entry.line.now)
        (P.refusals finder.old) (P.refusals finder.new)
        seat.old seat.new replies.old replies.new) }
    ensures shut { IsErrOf result SeatStop.Shut → IsStoppedAt
        (P.refusals finder.old) (P.refusals finder.new) seat.old seat.new SeatStop.Shut }
    ensures same { OnErr result (replies.new ≡ replies.old) }
    ensures used { IsUsed (P.refusals finder.old) (P.refusals finder.new) }
{
    let others = mem::replace(values, Vec::new(alloc));
    let Ok(line) = read_asked(alloc, others, asked) else {
        return Err(SeatStop::NoMemory);
    };
    let told = answer_read(seat, program, &line, finder, scratch, replies);
    *values = values_of(alloc, line);
    told
}

// The same for a request that was read.
fn answer_read<J: Naming, P: Finder>(
    seat: &mut Seat<J>,
    program: &Program,
    line: &RequestLine,
    finder: &mut P,
    scratch: &mut Scratch,
    replies: &mut WaitingAnswers,
) -> Result<(), SeatStop>
    requires suits { Suits program.now J.shapes }
    requires named { is_named (asks (reading line.now)) ≡ true }
    ensures served { OnOk result (IsServedBehind program.now J.shapes J.opening
        (reading line.now) (P.refusals finder.old) (P.refusals finder.new)
        seat.old seat.new replies.old replies.new) }
    ensures shut { IsErrOf result SeatStop.Shut → IsStoppedAt
        (P.refusals finder.old) (P.refusals finder.new) seat.old seat.new SeatStop.Shut }
    ensures same { OnErr result (replies.new ≡ replies.old) }
    ensures used { IsUsed (P.refusals finder.old) (P.refusals finder.new) }
{
    match line {
        RequestLine::Request(request) => judge(seat, program, request, finder, scratch, replies),
        RequestLine::Refused(fault) => print(replies, &Answer::Request(*fault)),
    }
}

// What a request is answered at a seat, behind other replies.
fn judge<J: Naming, P: Finder>(
    seat: &mut Seat<J>,
    program: &Program,
    request: &Request,
    finder: &mut P,
    scratch: &mut Scratch,
    replies: &mut WaitingAnswers,
) -> Result<(), SeatStop>
    requires suits { Suits program.now J.shapes }
    ensures served { OnOk result (IsServedBehind program.now J.shapes J.opening
        (Ok (map datum request.now)) (P.refusals finder.old) (P.refusals finder.new)
        seat.old seat.new replies.old replies.new) }
    ensures shut { IsErrOf result SeatStop.Shut → IsStoppedAt
        (P.refusals finder.old) (P.refusals finder.new) seat.old seat.new SeatStop.Shut }
    ensures same { OnErr result (replies.new ≡ replies.old) }
    ensures used { IsUsed (P.refusals finder.old) (P.refusals finder.new) }
{
    if let Err(arity) = program.takes(request) {
        let (got, want) = (arity.got, arity.want);
        return print(replies, &Answer::Arity { got, want });
    }
    print_seat(seat, program, request, finder, scratch, replies)
}

// Prints an answer behind other replies.
fn print(replies: &mut WaitingAnswers, answer: &Answer) -> Result<(), SeatStop>
    requires printable { is_printable answer.now ≡ true }
    ensures printed { OnOk result (replies.new ≡ replies.old ++ printed_answer answer.now ∷ []) }
    ensures same { OnErr result (replies.new ≡ replies.old) }
    ensures no_memory { IfErr result (λ stop. stop ≡ SeatStop.NoMemory) }
{
    replies.push_answer(answer)?;
    Ok(())
}
