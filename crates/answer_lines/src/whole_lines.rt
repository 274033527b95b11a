ghost use Rattle.std.specs.Prelude.{◌≡◌, ◌+◌, IfOk, OnErr, OnOk, length, option_copied, string_bytes, take, true};
ghost use Rattle.std.specs.Str.{IsCharBoundary};
ghost use Rattle.answer_lines.specs.LineText.{Appends, answer_text, decided_text, numbered};
ghost use Rattle.answer_lines.specs.Told.{comes_with_rule, is_printable};

use crate::answer::Answer;
use crate::line::{push_decided, push_numbered};
use effect_fold::Verdict;
use outside::NoMemory;
use perm_base::Rule;

/// Appends the line of an answer with this number, and says how long it is. Where memory runs out the text is as it was; a line of
/// more than 2^32 - 1 bytes is for want of memory.
pub(crate) fn push_whole(text: &mut String, number: u32, answer: &Answer) -> Result<u32, NoMemory>
    requires printable { is_printable answer.now ≡ true }
    ensures appended { OnOk result (Appends text.old text.new
        (numbered number (answer_text answer.now))) }
    ensures size { IfOk result (λ size. size ≡ length (numbered number (answer_text answer.now))) }
    ensures same { OnErr result (string_bytes text.new ≡ string_bytes text.old) }
{
    let before = text.len();
    let Ok(()) = push_numbered(text, number, answer) else {
        text.truncate(before);
        return Err(NoMemory);
    };
    size_behind(text, before)
}

/// Appends the line of a verdict as `push_whole` appends that of `Answer::Decided`, with a rule that is not copied.
pub(crate) fn push_whole_verdict(
    text: &mut String,
    number: u32,
    version: u32,
    verdict: Verdict,
    rule: Option<&Rule>,
) -> Result<u32, NoMemory>
    requires printable { comes_with_rule verdict (option_copied rule) ≡ true }
    ensures appended { OnOk result (Appends text.old text.new
        (decided_text number version verdict (option_copied rule.entry))) }
    ensures size { IfOk result (λ size. size
        ≡ length (decided_text number version verdict (option_copied rule.entry))) }
    ensures same { OnErr result (string_bytes text.new ≡ string_bytes text.old) }
{
    let before = text.len();
    let Ok(()) = push_decided(text, number, version, verdict, rule) else {
        text.truncate(before);
        return Err(NoMemory);
    };
    size_behind(text, before)
}

// How many bytes stand behind so many. Where a u32 cannot say it, they are cut off.
fn size_behind(text: &mut String, before: usize) -> Result<u32, NoMemory>
    requires { IsCharBoundary (string_bytes text.old) before }
    ensures size { IfOk result (λ size. before + size ≡ length (string_bytes text.old)) }
    ensures same { OnOk result (string_bytes text.new ≡ string_bytes text.old) }
    ensures cut { OnErr result (string_bytes text.new ≡ take before (string_bytes text.old)) }
{
    let Ok(size) = u32::try_from(text.len() - before) else {
        text.truncate(before);
        return Err(NoMemory);
    };
    Ok(size)
}
