ghost use Rattle.std.specs.Prelude.{◌≡◌, ◌++◌, ◌<◌, OnOk, codes, decimal, drop, length, slice_index, true};
ghost use Rattle.answer_lines.specs.LineText.{Appends, answer_text, numbered};
ghost use Rattle.answer_lines.specs.Told.{is_printable};

use answer_lines::{Line, push_line};
use itoa::Buffer;
use outside::NoMemory;

/// Appends the line that tells an answer, as `push_line` does, under a number that may be greater than a `Line` has. The line is made
/// under 0 in `plain` first. It takes memory for the texts alone, and refused is want of it alone.
pub(crate) fn push_told(
    text: &mut String,
    plain: &mut String,
    number: u64,
    line: &Line,
) -> Result<(), NoMemory>
    requires printable { is_printable line.now.answer ≡ true }
    requires under_0 { line.now.number ≡ 0 }
    ensures { OnOk result (Appends text.old text.new
        (numbered number (answer_text line.now.answer))) }
{
    plain.clear();
    push_line(plain, line)?;
    push_number(text, number)?;
    text.push_str(behind_front(plain.as_str()))?;
    Ok(())
}

/// Appends the line of what is refused.
pub(crate) fn push_refused(
    text: &mut String,
    number: u64,
    front: &str,
    cause: &str,
) -> Result<(), NoMemory>
    ensures { OnOk result (Appends text.old text.new (numbered number (front.now ++ cause.now))) }
{
    push_number(text, number)?;
    push_words(text, front, cause)?;
    text.push_str("\n")?;
    Ok(())
}

// Appends a number, and the blank behind it.
pub(crate) fn push_number(text: &mut String, number: u64) -> Result<(), NoMemory>
    ensures { OnOk result (Appends text.old text.new (decimal number ++ codes " ")) }
{
    let mut digits = Buffer::new();
    text.push_str(digits.format(number))?;
    text.push_str(" ")?;
    Ok(())
}

fn push_words(text: &mut String, first: &str, second: &str) -> Result<(), NoMemory>
    ensures { OnOk result (Appends text.old text.new (first.now ++ second.now)) }
{
    text.push_str(first)?;
    text.push_str(second)?;
    Ok(())
}

// A text without its first two bytes, of which the second is ASCII.
fn behind_front(text: &str) -> &str
    requires long { 1 < length text.now }
    requires ascii { slice_index text.now 1 < 128 }
    ensures { result.now ≡ drop 2 text.now }
{
    &text[2..]
}
