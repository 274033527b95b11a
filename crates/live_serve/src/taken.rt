ghost use Rattle.std.specs.Prelude.{◌++◌, Err, OnOk, codes, decimal};
ghost use Rattle.answer_lines.specs.LineText.{Appends, numbered};
ghost use Rattle.loaded_work.specs.Followed.{IsKnown, done_text, refused_text, taken_text};

use crate::text::push_number;
use itoa::Buffer;
use log_ship::{TakeRefused, Taken};
use outside::NoMemory;

/// Appends the line of what became of a packet. Refused is want of memory, here or where the packet was taken.
pub(crate) fn push_taken(
    text: &mut String,
    number: u64,
    taken: Result<Taken, TakeRefused>,
) -> Result<(), NoMemory>
    ensures appended { OnOk result (Appends text.old text.new
        (numbered number (taken_text taken))) }
    ensures known { OnOk result (IsKnown taken) }
{
    push_number(text, number)?;
    push_answer(text, taken)?;
    text.push_str("\n")?;
    Ok(())
}

// Appends what became of a packet, or why it was not taken.
fn push_answer(text: &mut String, taken: Result<Taken, TakeRefused>) -> Result<(), NoMemory>
    ensures appended { OnOk result (Appends text.old text.new (taken_text taken)) }
    ensures known { OnOk result (IsKnown taken) }
{
    match taken {
        Ok(done) => push_done(text, done),
        Err(refused) => push_why(text, refused),
    }
}

fn push_done(text: &mut String, taken: Taken) -> Result<(), NoMemory>
    ensures { OnOk result (Appends text.old text.new (done_text taken)) }
{
    match taken {
        Taken::Repeated => push_word(text, "repeated"),
        Taken::Waiting => push_word(text, "waiting"),
        Taken::Applied { version } => push_at(text, "applied @", version),
    }
}

fn push_why(text: &mut String, refused: TakeRefused) -> Result<(), NoMemory>
    ensures appended { OnOk result (Appends text.old text.new (refused_text refused)) }
    ensures known { OnOk result (IsKnown (Err refused)) }
{
    match refused {
        TakeRefused::TooFar { version } => push_at(text, "refused: too far, version ", version),
        TakeRefused::Malformed { line } => push_at(text, "refused: malformed, line ", line),
        TakeRefused::Misfit => push_word(text, "refused: misfit"),
        TakeRefused::NoMemory => Err(NoMemory),
    }
}

fn push_at(text: &mut String, word: &str, number: u32) -> Result<(), NoMemory>
    ensures { OnOk result (Appends text.old text.new (word.now ++ decimal number)) }
{
    let mut digits = Buffer::new();
    text.push_str(word)?;
    text.push_str(digits.format(number))?;
    Ok(())
}

fn push_word(text: &mut String, word: &str) -> Result<(), NoMemory>
    ensures { OnOk result (Appends text.old text.new word.now) }
{
    text.push_str(word)?;
    Ok(())
}
