ghost use Rattle.std.specs.Prelude.{◌≡◌, ◌+◌, ◌<◌, ◌≤◌, [], ◌∷◌, IfSome, MatchOption, drop, length};
ghost use Rattle.matcher_read.specs.Helps.Cuts.{begins_opening, blanks, cut, marked};
ghost use Rattle.matcher_read.specs.Matcher.{most_bytes};
ghost use Rattle.matcher_read.specs.Helps.TokenLists.{HasDigits, end_of, pieces, placed_of, token_of};
ghost use Rattle.matcher_read.specs.Tokens.{is_reserved, with_calls};

use crate::token::{PlacedToken, Token, first_token};
use std::marker::Model;
use text_parts::behind_blanks;

/// The tokens of a text that are left, the first of them read.
#[derive(Drop)]
pub(crate) struct Tokens<'a> {
    // The first token that is left.
    current: Option<PlacedToken<'a>>,
    // What stands behind it, and the place of that in the whole text.
    rest: &'a str,
    place: u32,
}

impl<'a> Model for Tokens<'a> {
    ghost use Rattle.std.specs.Prelude.{option_map};
    ghost use Rattle.matcher_read.specs.Helps.Cuts.{IsLeft, listed};
    ghost use Rattle.matcher_read.specs.Helps.TokenLists.{TokenList, placed_of};

    ghost Value = { TokenList };

    ghost view = { λ s. listed (option_map placed_of s.current) s.place s.rest.now };

    ghost invariant = { λ s. IsLeft (option_map placed_of s.current) s.place s.rest.now };
}

impl<'a> Tokens<'a> {
    /// The first token that is left.
    pub(crate) fn peek(&self) -> Option<PlacedToken<'a>>
        ensures token { MatchOption result (self.now.tokens ≡ [])
            (λ token. self.now.tokens ≡ placed_of token ∷ drop 1 self.now.tokens) }
        ensures digits { IfSome result (λ token. HasDigits (token_of token.token)) }
    {
        self.current
    }

    /// The tokens behind the first, if there is one.
    pub(crate) fn behind(&self) -> Tokens<'a>
        ensures tokens { result.tokens ≡ drop 1 self.now.tokens }
        ensures stray { result.stray ≡ self.now.stray }
        ensures size { result.size ≡ self.now.size }
    {
        tokens_from(self.rest, self.place)
    }

    /// The place where the tokens end: that of a byte that begins none, or else the length of the text and 1.
    pub(crate) fn end(&self) -> u32
        requires { self.now.tokens ≡ [] }
        ensures { result ≡ end_of self.now.stray self.now.size }
    {
        self.place
    }
}

/// The tokens of a text whose first byte stands at a place.
pub(crate) fn tokens_from(text: &str, place: u32) -> Tokens<'_>
    requires place { 0 < place }
    requires few { place + length text.now ≤ most_bytes + 1 }
    ensures tokens { result.tokens ≡ with_calls ((cut place text.now).tokens) }
    ensures stray { result.stray ≡ (cut place text.now).stray }
    ensures size { result.size + 1 ≡ place + length text.now }
{
    let (front, at) = past_blanks(text, place);
    let Some((token, size)) = first_token(front) else {
        return Tokens {
            current: None,
            rest: front,
            place: at,
        };
    };
    let (rest, next) = past_blanks(&front[size..], at + size as u32);
    Tokens {
        current: Some(PlacedToken {
            at,
            token: before(token, rest),
        }),
        rest,
        place: next,
    }
}

// What stands behind the blanks at the front, and its place.
fn past_blanks(text: &str, place: u32) -> (&str, u32)
    requires { place + length text.now ≤ most_bytes + 1 }
    ensures front { result.0.now ≡ drop (blanks text.now) text.now }
    ensures place { result.1 ≡ place + blanks text.now }
    ensures few { result.1 + length result.0.now ≡ place + length text.now }
{
    let front = behind_blanks(text);
    (front, place + (text.len() - front.len()) as u32)
}

// A token by what stands behind it and its blanks: a name before `(` is called, unless it is a word.
fn before<'a>(token: Token<'a>, rest: &str) -> Token<'a>
    ensures { token_of result ≡ marked (token_of token.entry) (begins_opening rest.now) }
{
    match token {
        Token::Name(name) if begins_opening(rest) && !is_reserved(name) => Token::Called(name),
        _ => token,
    }
}

fn begins_opening(text: &str) -> bool
    ensures { result ≡ begins_opening text.now }
{
    text.len() > 0 && text.as_bytes()[0] == b'('
}

fn is_reserved(name: &str) -> bool
    ensures { result ≡ is_reserved (pieces name.now) }
{
    name == "true" || name == "false" || name == "in"
}
