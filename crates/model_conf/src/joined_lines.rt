ghost use Rattle.std.specs.Prelude.{◌≡◌, ◌+◌, ◌<◌, ◌≤◌, ◌^◌, ℕ, List, [], IfOk, MatchBool, MatchOption, length, string_bytes};
ghost use Rattle.text_parts.specs.Numbered.{numbered, text_lines};
ghost use Rattle.model_conf.specs.Logical.{EndsOpen, IsWhole};

use outside::NoMemory;
use text_parts::{before_blanks, next_text_line};

/// Joins to a text the lines that continue it, the first of which has this number. Gives what stands behind them, and
/// the number of the next line. Where memory runs out, the text is not to be used.
pub(crate) fn join_lines<'a>(
    text: &mut String,
    lines: &'a str,
    number: u32,
) -> Result<(&'a str, u32), NoMemory>
    requires { number + length lines.now < 2 ^ 32 }
    ensures whole { IfOk result (λ left. IsWhole
        (string_bytes text.old) (numbered number (text_lines lines.now))
        (string_bytes text.new) (numbered left.1 (text_lines left.0.now))) }
    ensures fewer { IfOk result (λ left.
        left.1 + length left.0.now ≤ number + length lines.now) }
    ensures shorter { IfOk result (λ left. length left.0.now ≤ length lines.now) }
{
    let mut rest = lines;
    let mut next = number;
    while drop_open(text) {
        let Some((line, after)) = next_text_line(rest) else {
            drop_all_open(text);
            return Ok((rest, next));
        };
        text.push(' ')?;
        text.push_str(line)?;
        rest = after;
        next += 1;
    }
    Ok((rest, next))
}

/// What stands before the `\` that a text ends in, blanks behind it apart.
pub(crate) fn open_front(text: &str) -> Option<&str>
    ensures { MatchOption result
        ((front : List ℕ) → ¬ (EndsOpen text.now front))
        (λ front. EndsOpen text.now front.now) }
{
    before_blanks(text).strip_suffix('\\')
}

// Drops each `\` at the end of a text that no line continues.
fn drop_all_open(text: &mut String)
    ensures { IsWhole (string_bytes text.old) [] (string_bytes text.new) [] }
{
    while drop_open(text) {}
}

// Drops the `\` that a text ends in, and the blanks behind it, where it does.
fn drop_open(text: &mut String) -> bool
    ensures { MatchBool result
        (EndsOpen (string_bytes text.old) (string_bytes text.new))
        (((front : List ℕ) → ¬ (EndsOpen (string_bytes text.old) front))
        × (string_bytes text.new ≡ string_bytes text.old)) }
{
    let Some(front) = open_front(text.as_str()) else {
        return false;
    };
    let end = front.len();
    text.truncate(end);
    true
}
