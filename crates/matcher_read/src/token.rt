ghost use Rattle.std.specs.Prelude.{◌≡◌, ◌<◌, ◌≤◌, ◌+◌, ◌-◌, true, IfSome, length, option_map, slice_index, drop};
ghost use Rattle.std.specs.Char.{is_ascii_digit};
ghost use Rattle.std.specs.List.{prefix_len};
ghost use Rattle.std.specs.Str.{IsCharBoundary};
ghost use Rattle.matcher_read.specs.Helps.Cuts.{begins_name, sized_token, goes_on, is_quote, name_at, name_size, number_at, sign_at, sign_of_one, sign_of_two, text_at, token_at};
ghost use Rattle.matcher_read.specs.Helps.TokenLists.{token_of};

use crate::tree::Operator;
use text_parts::{cut_at, is_letter, is_word};

/// A token of a matcher (Casbin, syntax for models: matchers).
#[derive(Clone, Copy)]
pub(crate) enum Token<'a> {
    /// Identifiers joined by `.`.
    Name(&'a str),
    /// A name that `(` follows, other than `true`, `false` and `in`.
    Called(&'a str),
    /// `eval ( p.column )`, and where its `(` stands.
    Eval { opening: u32, column: &'a str },
    /// Digits.
    Number(&'a str),
    /// What stands between two equal quotes.
    Text(&'a str),
    /// What stands behind a quote that is never closed.
    Unclosed(&'a str),
    /// A sign between two sides, or `-` before one.
    Operator(Operator),
    /// `!`
    Exclamation,
    /// `(`
    Opening,
    /// `)`
    Closing,
    /// `,`
    Comma,
}

/// A token, and the place of its first byte in the text, counted from 1.
#[derive(Clone, Copy)]
pub(crate) struct PlacedToken<'a> {
    pub(crate) at: u32,
    pub(crate) token: Token<'a>,
}

/// The longest token at the front of a text, and how many bytes spell it.
pub(crate) fn first_token(text: &str) -> Option<(Token<'_>, usize)>
    ensures value { token_at text.now
        ≡ option_map (λ front. sized_token (token_of front.0) front.1) result }
    ensures some { IfSome result (λ front. 0 < front.1) }
    ensures boundary { IfSome result (λ front. IsCharBoundary text.now front.1) }
{
    let bytes = text.as_bytes();
    if bytes.is_empty() {
        return None;
    }
    if is_letter(bytes[0]) {
        return Some(first_name(text));
    }
    if bytes[0].is_ascii_digit() {
        return Some(first_number(text));
    }
    if is_quote(bytes[0]) {
        return Some(first_text(text));
    }
    first_sign(bytes)
}

// The name at the front of a text.
fn first_name(text: &str) -> (Token<'_>, usize)
    requires { begins_name text.now ≡ true }
    ensures value { sized_token (token_of result.0) result.1 ≡ name_at text.now }
    ensures some { 0 < result.1 }
    ensures boundary { IsCharBoundary text.now result.1 }
{
    let size = name_size(text.as_bytes());
    (Token::Name(&text[..size]), size)
}

// The number at the front of a text.
fn first_number(text: &str) -> (Token<'_>, usize)
    requires { 0 < prefix_len is_ascii_digit text.now }
    ensures value { sized_token (token_of result.0) result.1 ≡ number_at text.now }
    ensures some { 0 < result.1 }
    ensures boundary { IsCharBoundary text.now result.1 }
{
    let size = digits(text.as_bytes());
    (Token::Number(&text[..size]), size)
}

// The text between the quote that stands first and the next equal one.
fn first_text(text: &str) -> (Token<'_>, usize)
    requires some { 0 < length text.now }
    requires ascii { slice_index text.now 0 < 128 }
    ensures value { sized_token (token_of result.0) result.1 ≡ text_at text.now }
    ensures some { 0 < result.1 }
    ensures boundary { IsCharBoundary text.now result.1 }
{
    let quote = text.as_bytes()[0];
    let rest = &text[1..];
    match cut_at(rest, quote) {
        Some((inside, _)) => (Token::Text(inside), inside.len() + 2),
        None => (Token::Unclosed(rest), rest.len() + 1),
    }
}

// The sign at the front of bytes; where one of two bytes fits, it is taken.
fn first_sign(bytes: &[u8]) -> Option<(Token<'static>, usize)>
    requires { 0 < length bytes.now }
    ensures value { option_map (λ front. sized_token (token_of front.0) front.1) result
        ≡ sign_at bytes.now }
    ensures some { IfSome result (λ front. 0 < front.1) }
    ensures ascii { IfSome result (λ front. slice_index bytes.now (front.1 - 1) < 128) }
    ensures within { IfSome result (λ front. front.1 ≤ length bytes.now) }
{
    if bytes.len() > 1
        && let Some(operator) = sign_of_two(bytes[0], bytes[1])
    {
        return Some((Token::Operator(operator), 2));
    }
    let token = sign_of_one(bytes[0])?;
    Some((token, 1))
}

// The sign of two bytes.
fn sign_of_two(first: u8, second: u8) -> Option<Operator>
    ensures { result ≡ sign_of_two first second }
{
    match (first, second) {
        (b'|', b'|') => Some(Operator::Or),
        (b'&', b'&') => Some(Operator::And),
        (b'=', b'=') => Some(Operator::Equal),
        (b'!', b'=') => Some(Operator::NotEqual),
        (b'<', b'=') => Some(Operator::AtMost),
        (b'>', b'=') => Some(Operator::AtLeast),
        _ => None,
    }
}

// The sign of one byte.
fn sign_of_one(byte: u8) -> Option<Token<'static>>
    ensures { option_map token_of result ≡ sign_of_one byte }
{
    match byte {
        b'<' => Some(Token::Operator(Operator::Less)),
        b'>' => Some(Token::Operator(Operator::Greater)),
        b'+' => Some(Token::Operator(Operator::Plus)),
        b'-' => Some(Token::Operator(Operator::Minus)),
        b'*' => Some(Token::Operator(Operator::Times)),
        b'/' => Some(Token::Operator(Operator::Over)),
        b'%' => Some(Token::Operator(Operator::Remainder)),
        b'!' => Some(Token::Exclamation),
        b'(' => Some(Token::Opening),
        b')' => Some(Token::Closing),
        b',' => Some(Token::Comma),
        _ => None,
    }
}

// How many bytes at the front are identifiers joined by dots.
fn name_size(bytes: &[u8]) -> usize
    ensures { result ≡ name_size bytes.now }
{
    let mut size = 0;
    while size < bytes.len() && goes_on(bytes, size) {
        size += 1;
    }
    size
}

// A byte goes on with a name; a dot does before another identifier.
fn goes_on(bytes: &[u8], at: usize) -> bool
    requires { at < length bytes.now }
    ensures { result ≡ goes_on (slice_index bytes.now at) (drop (at + 1) bytes.now) }
{
    is_word(bytes[at]) || bytes[at] == b'.' && at + 1 < bytes.len() && is_letter(bytes[at + 1])
}

// How many digits stand at the front.
fn digits(bytes: &[u8]) -> usize
    ensures { result ≡ prefix_len is_ascii_digit bytes.now }
{
    bytes
        .iter()
        .take_while(|byte| byte.is_ascii_digit())
        .count()
}

fn is_quote(byte: u8) -> bool
    ensures { result ≡ is_quote byte }
{
    byte == b'"' || byte == b'\''
}
