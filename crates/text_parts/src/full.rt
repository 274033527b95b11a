ghost use Rattle.std.specs.Prelude.{◌≡◌, ◌+◌, ◌<◌, ◌≤◌, ◌^◌, [], ◌∷◌, IfNone, IfSome, length};
ghost use Rattle.text_parts.specs.Full.{full_lines, given_number};
ghost use Rattle.text_parts.specs.Numbered.{line};

use crate::lines::next_text_line;
use crate::passed::is_passed;

// The greatest number of a line that is given.
const LAST_NUMBER: u64 = 4_294_967_295;

/// The first line of a text that is neither blank nor a comment: its number, the line, and what stands behind it. The
/// first line of the text has the given number.
pub fn next_full_line(text: &str, number: u64) -> Option<(u64, &str, &str)>
    requires { number + length text.now < 2 ^ 64 }
    ensures none { IfNone result (full_lines number text.now ≡ []) }
    ensures first { IfSome result (λ found. full_lines number text.now
        ≡ line found.0 found.1.now ∷ full_lines (found.0 + 1) found.2.now) }
    ensures within { IfSome result (λ found.
        found.0 + 1 + length found.2.now ≤ number + length text.now) }
    ensures shorter { IfSome result (λ found. length found.2.now < length text.now) }
{
    let mut rest = text;
    let mut at = number;
    while let Some((line, after)) = next_text_line(rest) {
        if !is_passed(line) {
            return Some((at, line, after));
        }
        at += 1;
        rest = after;
    }
    None
}

/// A line's number as it is given: one above 2^32 - 1 is given as 2^32 - 1.
pub fn given_number(number: u64) -> u32
    ensures { result ≡ given_number number }
{
    if number > LAST_NUMBER {
        u32::MAX
    } else {
        number as u32
    }
}
