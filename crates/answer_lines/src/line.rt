ghost use Rattle.std.specs.Prelude.{◌≡◌, ◌≤◌, ◌++◌, [], IfOk, OnErr, OnOk, codes, decimal, length, option_copied, true};
ghost use Rattle.answer_lines.specs.LineText.{Appends, IsKept, answer_text, decided_text, line_text, numbered};
ghost use Rattle.answer_lines.specs.Told.{comes_with_rule, is_printable};

use crate::answer::{Answer, Line};
use crate::front::Front;
use crate::line_text::push_answer;
use crate::pieces::push_number;
use crate::verdicts::push_verdict;
use effect_fold::Verdict;
use outside::{NoMemory, Text};
use perm_base::Rule;
use std::alloc::Global;

/// Prints the line that tells an answer, as `2 allow @0 p#1 alice, data1, read`, with its LF. An answer of rules or of an edit
/// has further lines, which begin with two blanks. Fields are printed as `print_fields` prints them, and an edit as
/// `print_edit` does, without its last line. Refused is want of memory alone.
pub fn print_line(alloc: Global, line: &Line) -> Result<Text, NoMemory>
    requires printable { is_printable line.now.answer ≡ true }
    ensures printed { IfOk result (λ text. text ≡ line_text line.now) }
{
    let mut text = String::new(alloc);
    push_line(&mut text, line)?;
    Ok(Text::from_string(text))
}

/// Appends the line that tells an answer, as `print_line` prints it. It takes memory for the text alone, and refused is want
/// of it alone: then a part of the line may stand behind what the text held.
pub fn push_line(text: &mut String, line: &Line) -> Result<(), NoMemory>
    requires printable { is_printable line.now.answer ≡ true }
    ensures appended { OnOk result (Appends text.old text.new (line_text line.now)) }
    ensures kept { OnErr result (IsKept text.old text.new) }
{
    push_numbered(text, line.number, &line.answer)
}

/// Appends the line of an answer with this number.
pub(crate) fn push_numbered(text: &mut String, number: u32, answer: &Answer) -> Result<(), NoMemory>
    requires printable { is_printable answer.now ≡ true }
    ensures appended { OnOk result (Appends text.old text.new
        (numbered number (answer_text answer.now))) }
    ensures kept { OnErr result (IsKept text.old text.new) }
{
    push_front(text, number)?;
    push_answer(text, answer)?;
    text.push_str("\n")?;
    Ok(())
}

/// Appends the line that tells a verdict, as `push_line` appends that of `Answer::Decided`, with a rule that is not copied. It
/// takes memory for the text alone, and refused is want of it alone: then a part of the line may stand behind what the text held.
pub fn push_decided(
    text: &mut String,
    number: u32,
    version: u32,
    verdict: Verdict,
    rule: Option<&Rule>,
) -> Result<(), NoMemory>
    requires printable { comes_with_rule verdict (option_copied rule) ≡ true }
    ensures appended { OnOk result (Appends text.old text.new
        (decided_text number version verdict (option_copied rule.entry))) }
    ensures kept { OnErr result (IsKept text.old text.new) }
{
    let mut front = Front::new();
    push_start(&mut front, number);
    push_verdict(text, &mut front, version, verdict, rule)?;
    text.push_str("\n")?;
    Ok(())
}

// Puts the number by which a line begins into an empty front.
#[inline(always)]
fn push_start(front: &mut Front, number: u32)
    requires { front.old ≡ [] }
    ensures text { front.new ≡ decimal number ++ codes " " }
    ensures few { length front.new ≤ 11 }
{
    front.push_number(number);
    front.push(" ");
}

// Appends the number by which a line begins.
fn push_front(text: &mut String, number: u32) -> Result<(), NoMemory>
    ensures appended { OnOk result (Appends text.old text.new (decimal number ++ codes " ")) }
    ensures kept { OnErr result (IsKept text.old text.new) }
{
    push_number(text, number)?;
    text.push_str(" ")?;
    Ok(())
}
