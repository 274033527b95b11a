ghost use Rattle.std.specs.Prelude.{◌≡◌, ◌++◌, decimal};
ghost use Rattle.outside.specs.Pushes.{PushesAll};
ghost use Rattle.run_status.specs.Hits.{hits_line};
ghost use Rattle.run_status.specs.Messages.{line_of};
ghost use Rattle.run_status.specs.Statuses.{status_of};
ghost use Rattle.run_status.specs.Told.{IsTold};
ghost use Rattle.run_status.specs.Helps.Pieces.{piece_text, text_of};

use crate::message::{Message, Piece, message_of};
use crate::status::Status;
use crate::stop::Stop;
use itoa::Buffer;
use outside::{Failed, Sink, push_all};

/// Tells a stop: pushes its line, and gives the status that the run ends with. Where a push fails, the status alone
/// tells it. It takes no memory.
pub fn tell_stop<E: Sink>(err: &mut E, stop: Stop) -> Status
    ensures status { result ≡ status_of stop }
    ensures told { IsTold (E.taken err.old) (E.taken err.new)
        (E.faults err.old) (E.faults err.new) (line_of stop) }
{
    let _ = push_stop(err, stop);
    stop.status()
}

/// Pushes the line of a stop, with its LF. It takes no memory.
pub fn push_stop<E: Sink>(err: &mut E, stop: Stop) -> Result<(), Failed>
    ensures { PushesAll (E.taken err.old) (E.taken err.new)
        (E.faults err.old) (E.faults err.new) (line_of stop) result }
{
    push_message(err, message_of(stop))?;
    push_all(err, b"\n")
}

/// Tells how many requests were answered from a cache: pushes the line. Where a push fails, no more is told. It takes no memory.
pub fn tell_hits<E: Sink>(err: &mut E, hits: u64)
    ensures { IsTold (E.taken err.old) (E.taken err.new)
        (E.faults err.old) (E.faults err.new) (hits_line hits) }
{
    let _ = push_hits(err, hits);
}

fn push_hits<E: Sink>(err: &mut E, hits: u64) -> Result<(), Failed>
    ensures { PushesAll (E.taken err.old) (E.taken err.new)
        (E.faults err.old) (E.faults err.new) (hits_line hits) result }
{
    push_numbered(err, "cache: hits ", hits)?;
    push_all(err, b"\n")
}

fn push_message<E: Sink>(err: &mut E, message: Message) -> Result<(), Failed>
    ensures { PushesAll (E.taken err.old) (E.taken err.new)
        (E.faults err.old) (E.faults err.new) (text_of message) result }
{
    push_piece(err, message.first)?;
    push_piece(err, message.second)?;
    push_piece(err, message.third)
}

fn push_piece<E: Sink>(err: &mut E, piece: Piece) -> Result<(), Failed>
    ensures { PushesAll (E.taken err.old) (E.taken err.new)
        (E.faults err.old) (E.faults err.new) (piece_text piece) result }
{
    match piece.number {
        None => push_text(err, piece.text),
        Some(number) => push_numbered(err, piece.text, number),
    }
}

fn push_numbered<E: Sink>(err: &mut E, text: &str, number: u64) -> Result<(), Failed>
    ensures { PushesAll (E.taken err.old) (E.taken err.new)
        (E.faults err.old) (E.faults err.new) (text.now ++ decimal number) result }
{
    push_text(err, text)?;
    push_number(err, number)
}

fn push_text<E: Sink>(err: &mut E, text: &str) -> Result<(), Failed>
    ensures { PushesAll (E.taken err.old) (E.taken err.new)
        (E.faults err.old) (E.faults err.new) text.now result }
{
    push_all(err, text.as_bytes())
}

fn push_number<E: Sink>(err: &mut E, number: u64) -> Result<(), Failed>
    ensures { PushesAll (E.taken err.old) (E.taken err.new)
        (E.faults err.old) (E.faults err.new) (decimal number) result }
{
    let mut digits = Buffer::new();
    push_all(err, digits.format(number).as_bytes())
}
