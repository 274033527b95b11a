//! Reading a pattern, token by token.

ghost use Rattle.std.specs.Prelude.{◌≡◌, ◌<◌, ◌≤◌, ◌+◌, ◌-◌, ◌==◌, [], IfSome, IfNone, length, drop, slice_index};
ghost use Rattle.std.specs.List.{prefix_len, list_any};
ghost use Rattle.key_match.specs.Pieces.{in_range, has};
ghost use Rattle.key_match.specs.Patterns.{in_braces, colon_piece, brace_piece, glob_piece, rest_or_literal, class_or_literal, items_or_literal, ranges_of};
ghost use Rattle.key_match.specs.Helps.Tokens.{pieces_at, first_at, reader_of, set_of, byte_before, IsFirst, IsReadAt, IsItemAt};

use crate::bytes::place_from;

/// How the segments of a pattern are written.
#[derive(Clone, Copy)]
pub(crate) enum Dialect {
    /// `:name`, up to the next `/`.
    Colon,
    /// `{name}`.
    Brace,
    /// None are: the pattern is a glob.
    Glob,
}

/// What one byte may be.
#[derive(Clone, Copy)]
pub(crate) enum ByteTest<'p> {
    /// This byte.
    Only(u8),
    /// Any but `/`.
    NotSlash,
    /// Any but `/` that is among the items of a class, or with `^` is not.
    Class { negated: bool, items: &'p [u8] },
}

/// A piece of a pattern.
#[derive(Clone, Copy)]
pub(crate) enum Token<'p> {
    /// One byte.
    One(ByteTest<'p>),
    /// One or more bytes without `/`, under a name.
    Segment(&'p [u8]),
    /// Any bytes without `/`.
    Stretch,
    /// Any bytes.
    Rest,
}

/// A token, and the place in the pattern after it.
#[derive(Clone, Copy)]
pub(crate) struct Reading<'p> {
    pub(crate) token: Token<'p>,
    pub(crate) next: usize,
}

// The bytes of an item of a class, from the first to the last, and the place after it.
#[derive(Clone, Copy)]
struct ClassItem {
    first: u8,
    last: u8,
    next: usize,
}

/// The token at a place of the pattern, or `None` at its end.
pub(crate) fn token_at<'p>(dialect: Dialect, pattern: &'p [u8], at: usize) -> Option<Reading<'p>>
    ensures found { IfSome result (IsReadAt dialect pattern.now at) }
    ensures ended { IfNone result (pieces_at dialect pattern.now at ≡ []) }
{
    if at < pattern.len() {
        Some(first_token(dialect, pattern, at))
    } else {
        None
    }
}

fn first_token<'p>(dialect: Dialect, pattern: &'p [u8], at: usize) -> Reading<'p>
    requires { at < length pattern.now }
    ensures first { IsFirst (first_at (reader_of dialect) pattern.now at) at result }
    ensures within { result.next ≤ length pattern.now }
{
    match dialect {
        Dialect::Colon => colon_token(pattern, at),
        Dialect::Brace => brace_token(pattern, at),
        Dialect::Glob => glob_token(pattern, at),
    }
}

fn colon_token<'p>(pattern: &'p [u8], at: usize) -> Reading<'p>
    requires { at < length pattern.now }
    ensures first { IsFirst (first_at colon_piece pattern.now at) at result }
    ensures within { result.next ≤ length pattern.now }
{
    if pattern[at] != b':' {
        return plain_token(pattern, at);
    }
    let end = place_from(pattern, b'/', at + 1);
    if at + 1 < end {
        return Reading {
            token: Token::Segment(&pattern[at + 1..end]),
            next: end,
        };
    }
    plain_token(pattern, at)
}

fn brace_token<'p>(pattern: &'p [u8], at: usize) -> Reading<'p>
    requires { at < length pattern.now }
    ensures first { IsFirst (first_at brace_piece pattern.now at) at result }
    ensures within { result.next ≤ length pattern.now }
{
    if pattern[at] != b'{' {
        return plain_token(pattern, at);
    }
    let end = name_end(pattern, at + 1);
    if at + 1 < end && end < pattern.len() && pattern[end] == b'}' {
        return Reading {
            token: Token::Segment(&pattern[at + 1..end]),
            next: end + 1,
        };
    }
    plain_token(pattern, at)
}

// The token of a byte that begins no segment.
fn plain_token<'p>(pattern: &'p [u8], at: usize) -> Reading<'p>
    requires { at < length pattern.now }
    ensures first { IsFirst
        (rest_or_literal (byte_before pattern.now at) (slice_index pattern.now at)) at result }
    ensures within { result.next ≤ length pattern.now }
{
    let token = if pattern[at] == b'*' && is_after_slash(pattern, at) {
        Token::Rest
    } else {
        Token::One(ByteTest::Only(pattern[at]))
    };
    Reading {
        token,
        next: at + 1,
    }
}

// Whether a place stands after `/`. The lone `*` counts as such.
fn is_after_slash(pattern: &[u8], at: usize) -> bool
    requires { at < length pattern.now }
    ensures { result ≡ (byte_before pattern.now at == 47) }
{
    if at == 0 {
        pattern == b"*".as_slice()
    } else {
        pattern[at - 1] == b'/'
    }
}

fn glob_token<'p>(pattern: &'p [u8], at: usize) -> Reading<'p>
    requires { at < length pattern.now }
    ensures first { IsFirst (first_at glob_piece pattern.now at) at result }
    ensures within { result.next ≤ length pattern.now }
{
    let token = match pattern[at] {
        b'*' => Token::Stretch,
        b'?' => Token::One(ByteTest::NotSlash),
        b'[' => return class_token(pattern, at),
        byte => Token::One(ByteTest::Only(byte)),
    };
    Reading {
        token,
        next: at + 1,
    }
}

// The class that begins with `[` at a place, or else the `[`.
fn class_token<'p>(pattern: &'p [u8], at: usize) -> Reading<'p>
    requires { at < length pattern.now }
    ensures first { IsFirst (class_or_literal (drop (at + 1) pattern.now)) at result }
    ensures within { result.next ≤ length pattern.now }
{
    if at + 1 < pattern.len() && pattern[at + 1] == b'^' {
        items_token(pattern, at, true, at + 2)
    } else {
        items_token(pattern, at, false, at + 1)
    }
}

// The same, where the items begin at `start`.
fn items_token<'p>(pattern: &'p [u8], at: usize, negated: bool, start: usize) -> Reading<'p>
    requires after { at < start }
    requires in_pattern { start ≤ length pattern.now }
    ensures first { IsFirst
        (items_or_literal negated (start - (at + 1)) (drop start pattern.now)) at result }
    ensures within { result.next ≤ length pattern.now }
{
    let end = place_from(pattern, b']', start);
    if start < end && end < pattern.len() {
        let items = &pattern[start..end];
        return Reading {
            token: Token::One(ByteTest::Class { negated, items }),
            next: end + 1,
        };
    }
    Reading {
        token: Token::One(ByteTest::Only(b'[')),
        next: at + 1,
    }
}

// The place of the first `/`, `{` or `}` from a place on, or the pattern's end.
fn name_end(pattern: &[u8], from: usize) -> usize
    requires { from ≤ length pattern.now }
    ensures end { result ≡ from + prefix_len in_braces (drop from pattern.now) }
    ensures within { result ≤ length pattern.now }
{
    for at in from..pattern.len() {
        if pattern[at] == b'/' || pattern[at] == b'{' || pattern[at] == b'}' {
            return at;
        }
    }
    pattern.len()
}

/// Whether a byte passes.
pub(crate) fn passes(test: ByteTest, byte: u8) -> bool
    ensures { result ≡ has (set_of test.entry) byte }
{
    match test {
        ByteTest::Only(wanted) => byte == wanted,
        ByteTest::NotSlash => byte != b'/',
        ByteTest::Class { negated, items } => byte != b'/' && negated != is_among(items, byte),
    }
}

// Whether a byte is among the items of a class, of which `a-b` is a range.
fn is_among(items: &[u8], byte: u8) -> bool
    ensures { result ≡ list_any (in_range byte) (ranges_of items.now) }
{
    let mut at = 0;
    while at < items.len() {
        let item = item_at(items, at);
        if item.first <= byte && byte <= item.last {
            return true;
        }
        at = item.next;
    }
    false
}

// The item at a place of a class.
fn item_at(items: &[u8], at: usize) -> ClassItem
    requires { at < length items.now }
    ensures { IsItemAt items.now at result }
{
    let first = items[at];
    if at + 2 < items.len() && items[at + 1] == b'-' {
        return ClassItem {
            first,
            last: items[at + 2],
            next: at + 3,
        };
    }
    ClassItem {
        first,
        last: first,
        next: at + 1,
    }
}
