ghost use Rattle.std.specs.Prelude.{◌≡◌, ◌==◌, ◌&&◌, ◌+◌, ◌-◌, ◌<◌, ◌≤◌, ◌^◌, IfSome, false, length, nat_lt};
ghost use Rattle.std.specs.List.{after_first, before_first};
ghost use Rattle.text_parts.specs.Numbered.{line, numbered, text_lines};
ghost use Rattle.file_lint.specs.Places.{behind_blanks_at, blanks_before, ends_in, file_lines, from_key, is_equals, is_open, key_in, line_at, open_length, place, place_in};
ghost use Rattle.file_lint.specs.Helps.Steps.{begins_with_key, goes_on, lines_found};

use crate::places::Place;
use text_parts::{before_blanks, is_blank, is_passed_in_model, next_text_line, trimmed};

/// A line that is continued ends in `\`, blanks apart.
pub(crate) fn is_open(text: &str) -> bool
    ensures { result ≡ is_open text.now }
{
    ends_in(before_blanks(text).as_bytes(), b'\\')
}

/// A text ends in this byte.
pub(crate) fn ends_in(text: &[u8], sign: u8) -> bool
    ensures { result ≡ ends_in sign text.now }
{
    text.ends_with(&[sign])
}

/// How many bytes of a line that is continued stand before the `\`.
pub(crate) fn open_length(text: &str) -> usize
    ensures { result ≡ open_length text.now }
{
    before_blanks(text).len().saturating_sub(1)
}

/// How many blanks stand in front of a text.
pub(crate) fn blanks_before(text: &[u8]) -> usize
    ensures value { result ≡ blanks_before text.now }
    ensures within { result ≤ length text.now }
{
    blank_count(text)
}

fn blank_count(text: &[u8]) -> usize
    ensures { result ≡ blanks_before text.now }
{
    text.iter().take_while(|byte| is_blank(**byte)).count()
}

/// Where a value begins that stands in a line behind so many bytes: behind the blanks there.
pub(crate) fn behind_blanks_at(text: &str, offset: usize) -> usize
    requires { offset ≤ length text.now + 1 }
    ensures value { result ≡ behind_blanks_at offset text.now }
    ensures within { result ≤ length text.now + 1 }
{
    let bytes = text.as_bytes();
    if offset >= bytes.len() {
        return offset;
    }
    offset + blanks_before(&bytes[offset..])
}

/// The key that a line names.
pub(crate) fn key_in(text: &str) -> &str
    ensures { result.now ≡ key_in text.now }
{
    trimmed(cut_at_equals(text).0)
}

/// What stands before the first `=` of a text, and what behind it.
pub(crate) fn cut_at_equals(text: &str) -> (&str, &str)
    ensures front { result.0.now ≡ before_first is_equals text.now }
    ensures back { result.1.now ≡ after_first is_equals text.now }
    ensures within { length result.0.now ≤ length text.now }
{
    cut_at(text, '=')
}

/// What stands before the first such sign of ASCII in a text, and what behind it; the text and nothing where it has none.
pub(crate) fn cut_at(text: &str, sign: char) -> (&str, &str)
    requires { sign < 128 }
    ensures front { result.0.now ≡ before_first (λ byte. byte == sign) text.now }
    ensures back { result.1.now ≡ after_first (λ byte. byte == sign) text.now }
    ensures within { length result.0.now ≤ length text.now }
{
    let Some((front, back)) = text.split_once(sign) else {
        return (text, "");
    };
    (front, back)
}

/// The line of a number in a text; empty where there is none.
pub(crate) fn line_at(text: &str, number: u64) -> &str
    ensures { result.now ≡ line_at number (file_lines text.now) }
{
    let mut at = 1;
    let mut rest = text;
    while let Some((line, after)) = next_text_line(rest) {
        if at == number {
            return line;
        }
        at += 1;
        rest = after;
    }
    ""
}

/// The line of a text that begins with a key: its number, the line, and what stands behind it.
pub(crate) fn from_key<'a>(text: &'a str, key: &str) -> Option<(u64, &'a str, &'a str)>
    ensures found { lines_found result ≡ from_key key.now false (file_lines text.now) }
    ensures within { IfSome result (λ found.
        found.0 + length found.2.now ≤ 1 + length text.now) }
{
    let mut continued = false;
    let mut number = 1;
    let mut rest = text;
    while let Some((line, after)) = next_text_line(rest) {
        if begins_with_key(line, key, continued) {
            return Some((number, line, after));
        }
        continued = goes_on(line, continued);
        number += 1;
        rest = after;
    }
    None
}

// The line begins with the key: it continues no other, and is not passed over.
fn begins_with_key(line: &str, key: &str, continued: bool) -> bool
    ensures { result ≡ begins_with_key key.now continued line.now }
{
    !continued && !is_passed_in_model(line) && key_in(line) == key
}

// The next line continues this one.
fn goes_on(line: &str, continued: bool) -> bool
    ensures { result ≡ goes_on continued line.now }
{
    (continued || !is_passed_in_model(line)) && is_open(line)
}

/// The byte that has so many before it in a line with those that continue it.
pub(crate) fn place_in(number: u64, first: &str, behind: &str, before: usize) -> Place
    requires numbers { number + length behind.now < 2 ^ 64 }
    requires few { before + 1 < 2 ^ 64 }
    ensures { result ≡ place_in (line number first.now)
        (numbered (number + 1) (text_lines behind.now)) before }
{
    let mut at = number;
    let mut text = first;
    let mut rest = behind;
    let mut left = before;
    while let Some((next, after)) = next_text_line(rest) {
        if !goes_past(text, left) {
            return place_behind(at, left);
        }
        left = behind_line(text, left);
        at += 1;
        text = next;
        rest = after;
    }
    place_behind(at, left)
}

// The byte that has so many before it stands behind this line, which the next one continues.
fn goes_past(text: &str, before: usize) -> bool
    ensures { result ≡ (is_open text.now && nat_lt (open_length text.now) before) }
{
    is_open(text) && open_length(text) < before
}

// How many of so many bytes stand behind a line that is continued, and the blank between it and the next.
fn behind_line(text: &str, before: usize) -> usize
    ensures { result ≡ before - (open_length text.now + 1) }
{
    before.saturating_sub(open_length(text)).saturating_sub(1)
}

// The place behind so many bytes of a line.
fn place_behind(line: u64, before: usize) -> Place
    requires { before + 1 < 2 ^ 64 }
    ensures { result ≡ place line (before + 1) }
{
    Place {
        line,
        column: before as u64 + 1,
    }
}
