ghost use Rattle.std.specs.Prelude.{◌++◌, OnErr, OnOk, decimal};
ghost use Rattle.answer_lines.specs.LineText.{Appends, IsKept, counted_text};

use itoa::Buffer;
use outside::NoMemory;

/// Appends a text.
pub(crate) fn push_text(text: &mut String, more: &str) -> Result<(), NoMemory>
    ensures appended { OnOk result (Appends text.old text.new more.now) }
    ensures kept { OnErr result (IsKept text.old text.new) }
{
    text.push_str(more)?;
    Ok(())
}

/// Appends a number in decimal digits.
pub(crate) fn push_number(text: &mut String, number: u32) -> Result<(), NoMemory>
    ensures appended { OnOk result (Appends text.old text.new (decimal number)) }
    ensures kept { OnErr result (IsKept text.old text.new) }
{
    let mut digits = Buffer::new();
    text.push_str(digits.format(number))?;
    Ok(())
}

/// Appends a text and a number.
pub(crate) fn push_at(text: &mut String, more: &str, number: u32) -> Result<(), NoMemory>
    ensures appended { OnOk result (Appends text.old text.new (more.now ++ decimal number)) }
    ensures kept { OnErr result (IsKept text.old text.new) }
{
    text.push_str(more)?;
    push_number(text, number)
}

/// Appends a word, a version, and the count or number of what follows.
pub(crate) fn push_counted(
    text: &mut String,
    word: &str,
    version: u32,
    count: u32,
) -> Result<(), NoMemory>
    ensures appended { OnOk result (Appends text.old text.new (counted_text word.now version count)) }
    ensures kept { OnErr result (IsKept text.old text.new) }
{
    text.push_str(word)?;
    push_at(text, " @", version)?;
    push_at(text, " ", count)?;
    push_text(text, ":")
}
