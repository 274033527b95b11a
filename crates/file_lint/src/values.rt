ghost use Rattle.std.specs.Prelude.{◌≡◌, ◌==◌, ◌&&◌, ◌+◌, ◌-◌, ◌<◌, ◌≤◌, ◌^◌, length};
ghost use Rattle.std.specs.List.{before_first};
ghost use Rattle.text_parts.specs.Numbered.{line, numbered, text_lines};
ghost use Rattle.file_lint.specs.Places.{behind_blanks_at, front_at, front_of, is_equals, is_open, open_length, place_in, place_of_value, rest_at, value_in};

use crate::lines::{
    behind_blanks_at, blanks_before, cut_at_equals, from_key, is_open, line_at, open_length,
    place_in,
};
use crate::places::Place;
use text_parts::next_text_line;

/// The byte of the value of a key that has so many bytes of the value before it; the front of the file where no line has the key.
pub(crate) fn place_of_value(text: &str, key: &str, before: u32) -> Place
    ensures { result ≡ place_of_value key.now before text.now }
{
    match from_key(text, key) {
        Some((number, first, behind)) => {
            value_in(value_offset(first), number, first, behind, before)
        }
        None => Place { line: 1, column: 1 },
    }
}

// How many bytes of a line stand before its value: those up to the first `=`.
fn value_offset(line: &str) -> usize
    ensures value { result ≡ length (before_first is_equals line.now) + 1 }
    ensures within { result ≤ length line.now + 1 }
{
    cut_at_equals(line).0.len() + 1
}

// The byte of a value that has so many bytes of the value before it. The value stands behind so many bytes of a line, or behind
// blanks of the lines that continue it.
fn value_in(offset: usize, number: u64, first: &str, behind: &str, before: u32) -> Place
    requires front { offset ≤ length first.now + 1 }
    requires numbers { number + length behind.now < 2 ^ 64 }
    ensures { result ≡ value_in offset (line number first.now)
        (numbered (number + 1) (text_lines behind.now)) before }
{
    let mut skipped = offset;
    let mut at = number;
    let mut text = first;
    let mut rest = behind;
    while let Some((next, after)) = next_text_line(rest) {
        if !is_blank_front(text, skipped) {
            return behind_front(skipped, at, text, rest, before);
        }
        skipped = 0;
        at += 1;
        text = next;
        rest = after;
    }
    behind_front(skipped, at, text, rest, before)
}

// Behind so many bytes of a line stand blanks alone, and the next line continues it.
fn is_blank_front(text: &str, skipped: usize) -> bool
    requires { skipped ≤ length text.now + 1 }
    ensures { result ≡ (is_open text.now
        && behind_blanks_at skipped text.now == open_length text.now) }
{
    is_open(text) && behind_blanks_at(text, skipped) == open_length(text)
}

// The byte that has so many bytes before it behind the blanks at a place of a line.
fn behind_front(skipped: usize, number: u64, text: &str, rest: &str, before: u32) -> Place
    requires front { skipped ≤ length text.now + 1 }
    requires numbers { number + length rest.now < 2 ^ 64 }
    ensures { result ≡ place_in (line number text.now)
        (numbered (number + 1) (text_lines rest.now)) (behind_blanks_at skipped text.now + before) }
{
    let front = behind_blanks_at(text, skipped);
    place_in(number, text, rest, front + before as usize)
}

/// The first byte of a line that is no blank.
pub(crate) fn front_of(text: &str, number: u64) -> Place
    ensures { result ≡ front_of number text.now }
{
    Place {
        line: number,
        column: blanks_before(line_at(text, number).as_bytes()) as u64 + 1,
    }
}

/// What stands in the line of a place in front of it.
pub(crate) fn front_at<'a>(text: &'a str, at: &Place) -> &'a [u8]
    ensures { result.now ≡ front_at at.now text.now }
{
    cut_line(text, at).0
}

/// What stands in the line of a place at it and behind.
pub(crate) fn rest_at<'a>(text: &'a str, at: &Place) -> &'a [u8]
    ensures { result.now ≡ rest_at at.now text.now }
{
    cut_line(text, at).1
}

// A line, cut at a place.
fn cut_line<'a>(text: &'a str, at: &Place) -> (&'a [u8], &'a [u8])
    ensures front { result.0.now ≡ front_at at.now text.now }
    ensures rest { result.1.now ≡ rest_at at.now text.now }
{
    let bytes = line_at(text, at.line).as_bytes();
    let before = bytes_before(at);
    if before >= bytes.len() {
        return (bytes, &[]);
    }
    (&bytes[..before], &bytes[before..])
}

// How many bytes of its line stand before a place.
fn bytes_before(at: &Place) -> usize
    ensures { result ≡ at.now.column - 1 }
{
    at.column.saturating_sub(1) as usize
}
