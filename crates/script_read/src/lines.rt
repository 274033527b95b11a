ghost use Rattle.std.specs.Prelude.{◌≡◌, ◌+◌, ◌<◌, ◌≤◌, ◌^◌, [], ◌∷◌};
ghost use Rattle.std.specs.Prelude.{IfNone, IfSome, length, option_map};
ghost use Rattle.script_read.specs.Helps.Asks.{AreBehindAsked, IsAskedLine};
ghost use Rattle.script_read.specs.Helps.Ends.{behind_end, end_number};
ghost use Rattle.text_parts.specs.Full.{full_lines};
ghost use Rattle.text_parts.specs.Numbered.{line as line_at};

use crate::word::{begins_ask, ends_block};
use text_parts::{next_full_line, next_line, without_cr};

/// The first line of a text that ends a block: its number, and what stands behind it. The first line
/// of the text has the given number.
pub(crate) fn block_end(text: &str, number: u64) -> Option<(u64, &str)>
    requires { number + length text.now < 2 ^ 64 }
    ensures end { option_map (λ end. end.0) result ≡ end_number (full_lines number text.now) }
    ensures none { IfNone result (behind_end (full_lines number text.now) ≡ []) }
    ensures behind { IfSome result (λ end. behind_end (full_lines number text.now)
        ≡ full_lines (end.0 + 1) end.1.now) }
    ensures within { IfSome result (λ end.
        end.0 + 1 + length end.1.now ≤ number + length text.now) }
    ensures shorter { IfSome result (λ end. length end.1.now < length text.now) }
{
    let mut rest = text;
    let mut first = number;
    while let Some((at, line, after)) = next_full_line(rest, first) {
        if ends_block(line) {
            return Some((at, after));
        }
        first = at + 1;
        rest = after;
    }
    None
}

/// The first line of a text that counts, as `next_full_line` gives it, behind lines of requests that are told by their first bytes
/// alone, as most are.
pub(crate) fn next_other_line(text: &str, number: u64) -> Option<(u64, &str, &str)>
    requires { number + length text.now < 2 ^ 64 }
    ensures none { IfNone result (AreBehindAsked (full_lines number text.now) []) }
    ensures first { IfSome result (λ found. AreBehindAsked (full_lines number text.now)
        (line_at found.0 found.1.now ∷ full_lines (found.0 + 1) found.2.now)) }
    ensures within { IfSome result (λ found.
        found.0 + 1 + length found.2.now ≤ number + length text.now) }
    ensures shorter { IfSome result (λ found. length found.2.now < length text.now) }
{
    let mut rest = text;
    let mut at = number;
    while let Some((_line, after)) = asked_line(rest) {
        at += 1;
        rest = after;
    }
    let (at, line, after) = next_full_line(rest, at)?;
    Some((at, line, after))
}

/// The first line of a text where it begins with `ask` and a blank, and what stands behind it. Its CR is cut off last, so that a
/// loop that does not look at the line does without.
#[inline(always)]
pub(crate) fn asked_line(text: &str) -> Option<(&str, &str)>
    ensures { IfSome result (λ found. IsAskedLine text.now found.0.now found.1.now) }
{
    if !begins_ask(text) {
        return None;
    }
    let (line, after) = next_line(text)?;
    Some((without_cr(line), after))
}
