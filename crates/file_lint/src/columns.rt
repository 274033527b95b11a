ghost use Rattle.std.specs.Prelude.{◌≡◌, ◌+◌, ◌≤◌, length};
ghost use Rattle.file_lint.specs.Columns.{behind_byte, ended, ends_field, field_column, field_count, field_front, fields_left, is_quoted};
ghost use Rattle.file_lint.specs.declared.columns.Within.TheVariants as state;

use crate::lines::blanks_before;
use text_parts::is_blank;

/// How far a line is read: at the front of a field, in quotes, behind a quote that closes them, or in a field without.
#[derive(Clone, Copy)]
pub(crate) enum Within {
    Front,
    Quoted,
    Closed,
    Plain,
}

/// The column of a field, whose line has so many before it.
pub(crate) fn field_column(line: &str, before: u64) -> u64
    ensures { result ≡ field_column before line.now }
{
    field_front(line, before) as u64 + 1
}

// How many bytes stand in front of a field, blanks in front of it among them.
fn field_front(line: &str, before: u64) -> usize
    ensures value { result ≡ field_front before state.Front line.now }
    ensures within { result ≤ length line.now }
{
    let mut left = before;
    let mut within = Within::Front;
    let mut rest = line.as_bytes();
    let mut passed = 0;
    while left > 0 {
        let Some((byte, behind)) = rest.split_first() else {
            return passed;
        };
        left = fields_left(left, ends_field(within, *byte));
        within = behind_byte(within, *byte);
        rest = behind;
        passed += 1;
    }
    passed + blanks_before(rest)
}

// How many fields are left to pass.
fn fields_left(left: u64, ends: bool) -> u64
    ensures { result ≡ fields_left left ends }
{
    if ends { left.saturating_sub(1) } else { left }
}

/// How many fields a line has.
pub(crate) fn field_count(line: &str) -> u64
    ensures { result ≡ field_count state.Front line.now }
{
    let mut within = Within::Front;
    let mut rest = line.as_bytes();
    let mut count = 1;
    while let Some((byte, behind)) = rest.split_first() {
        count += ended(ends_field(within, *byte));
        within = behind_byte(within, *byte);
        rest = behind;
    }
    count
}

// One, where a field ends.
fn ended(ends: bool) -> u64
    ensures value { result ≡ ended ends }
    ensures few { result ≤ 1 }
{
    if ends { 1 } else { 0 }
}

fn behind_byte(within: Within, byte: u8) -> Within
    ensures { result ≡ behind_byte within byte }
{
    match within {
        Within::Front => behind_front(byte),
        Within::Quoted => {
            if byte == b'"' {
                Within::Closed
            } else {
                Within::Quoted
            }
        }
        Within::Closed => behind_quote(byte),
        Within::Plain => {
            if byte == b',' {
                Within::Front
            } else {
                Within::Plain
            }
        }
    }
}

// Behind one byte more at the front of a field.
fn behind_front(byte: u8) -> Within
    ensures { result ≡ behind_byte state.Front byte }
{
    if is_blank(byte) {
        Within::Front
    } else if byte == b'"' {
        Within::Quoted
    } else if byte == b',' {
        Within::Front
    } else {
        Within::Plain
    }
}

// Behind one byte more behind a quote that closes a field.
fn behind_quote(byte: u8) -> Within
    ensures { result ≡ behind_byte state.Closed byte }
{
    if byte == b'"' {
        Within::Quoted
    } else if byte == b',' {
        Within::Front
    } else {
        Within::Closed
    }
}

fn ends_field(within: Within, byte: u8) -> bool
    ensures { result ≡ ends_field within byte }
{
    byte == b',' && !is_quoted(within)
}

fn is_quoted(within: Within) -> bool
    ensures { result ≡ is_quoted within }
{
    match within {
        Within::Quoted => true,
        Within::Front | Within::Closed | Within::Plain => false,
    }
}
