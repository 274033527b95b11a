ghost use Rattle.std.specs.Prelude.{◌≡◌, ◌<◌, ◌≤◌, None, Some, List, [], ◌∷◌, Option, IfSome, MatchOption, drop, length, option_map, ℕ};
ghost use Rattle.matcher_read.specs.Helps.Forms.{BeginsWith, eval_at, evals_behind};
ghost use Rattle.matcher_read.specs.Helps.TokenLists.{HasDigits, end_of, pieces, placed_of, token_of};
ghost use Rattle.matcher_read.specs.Matcher.{most_bytes};
ghost use Rattle.matcher_read.specs.Tokens as token;
ghost use Rattle.matcher_read.specs.Tokens.{IsCut, Placed, as_read, column_of, eval_column, is_eval};

use crate::token::{PlacedToken, Token};
use crate::tokens::{Tokens, tokens_from};
use std::marker::Model;

/// The tokens of a text that are left, each `eval ( p.column )` as one, and the first of them read.
#[derive(Drop)]
pub(crate) struct Forms<'a> {
    // The first that is left.
    current: Option<PlacedToken<'a>>,
    // The tokens behind it.
    rest: Tokens<'a>,
}

impl<'a> Model for Forms<'a> {
    ghost use Rattle.std.specs.Prelude.{option_map};
    ghost use Rattle.matcher_read.specs.Helps.Forms.{IsFormed, formed};
    ghost use Rattle.matcher_read.specs.Helps.TokenLists.{TokenList, placed_of};

    ghost Value = { TokenList };

    ghost view = { λ s. formed (option_map placed_of s.current) s.rest };

    ghost invariant = { λ s. IsFormed (option_map placed_of s.current) s.rest };
}

impl<'a> Forms<'a> {
    /// The tokens of a text.
    pub(crate) fn new(text: &'a str) -> Forms<'a>
        requires { length text.now ≤ most_bytes }
        ensures found { (tokens : List Placed) × IsCut 1 text.now tokens result.stray
            × (result.tokens ≡ as_read tokens) }
        ensures only { (tokens : List Placed) (stray : Option ℕ) → IsCut 1 text.now tokens stray
            → (result.tokens ≡ as_read tokens) × (result.stray ≡ stray) }
        ensures size { result.size ≡ length text.now }
    {
        forms_of(&tokens_from(text, 1))
    }

    /// The first token that is left.
    pub(crate) fn peek(&self) -> Option<PlacedToken<'a>>
        ensures token { MatchOption result (self.now.tokens ≡ [])
            (λ token. self.now.tokens ≡ placed_of token ∷ drop 1 self.now.tokens) }
        ensures digits { IfSome result (λ token. HasDigits (token_of token.token)) }
    {
        self.current
    }

    /// Passes over the first token that is left.
    pub(crate) fn advance(&mut self)
        requires { 0 < length self.old.tokens }
        ensures tokens { self.new.tokens ≡ drop 1 self.old.tokens }
        ensures stray { self.new.stray ≡ self.old.stray }
        ensures size { self.new.size ≡ self.old.size }
    {
        *self = forms_of(&self.rest);
    }

    /// The place where the tokens end: that of a byte that begins none, or else the length of the text and 1.
    pub(crate) fn end(&self) -> u32
        requires { self.now.tokens ≡ [] }
        ensures { result ≡ end_of self.now.stray self.now.size }
    {
        self.rest.end()
    }
}

// The tokens, with the first that they begin with read.
fn forms_of<'a>(tokens: &Tokens<'a>) -> Forms<'a>
    ensures tokens { result.tokens ≡ evals_behind 0 tokens.now.tokens }
    ensures stray { result.stray ≡ tokens.now.stray }
    ensures size { result.size ≡ tokens.now.size }
{
    let rest = tokens.behind();
    let Some(first) = tokens.peek() else {
        return Forms {
            current: None,
            rest,
        };
    };
    if let Some((form, behind)) = eval_form(first, &rest) {
        return Forms {
            current: Some(form),
            rest: behind,
        };
    }
    Forms {
        current: Some(first),
        rest,
    }
}

// `eval ( p.column )` as one token, and the tokens behind it, where a token and those behind it begin so.
fn eval_form<'a>(
    first: PlacedToken<'a>,
    behind: &Tokens<'a>,
) -> Option<(PlacedToken<'a>, Tokens<'a>)>
    ensures { MatchOption result (eval_at (placed_of first.entry) behind.now.tokens ≡ None)
        (λ found. BeginsWith found.0 found.1 (placed_of first.entry) behind.now) }
{
    let second = behind.peek()?;
    let inside = behind.behind();
    let third = inside.peek()?;
    let last = inside.behind();
    let fourth = last.peek()?;
    let column = eval_column(first.token, second.token, third.token, fourth.token)?;
    let form = PlacedToken {
        at: first.at,
        token: Token::Eval {
            opening: second.at,
            column,
        },
    };
    Some((form, last.behind()))
}

// The column of `eval ( p.column )`, where the four tokens are that.
fn eval_column<'a>(
    first: Token<'a>,
    second: Token<'a>,
    third: Token<'a>,
    fourth: Token<'a>,
) -> Option<&'a str>
    ensures { option_map (λ column. column.now) result
        ≡ eval_column (token_of first.entry) (token_of second.entry) (token_of third.entry)
        (token_of fourth.entry) }
{
    if !is_eval(first) {
        return None;
    }
    let Token::Opening = second else {
        return None;
    };
    let Token::Closing = fourth else {
        return None;
    };
    let Token::Name(name) = third else {
        return None;
    };
    column_of(name)
}

// A call of `eval`.
fn is_eval(token: Token) -> bool
    ensures { result ≡ is_eval (token_of token.entry) }
{
    match token {
        Token::Called(name) => name == "eval",
        _ => false,
    }
}

// The column of `p.column`.
fn column_of(name: &str) -> Option<&str>
    ensures { option_map (λ column. column.now) result ≡ column_of (token.name (pieces name.now)) }
{
    let Some((first, column)) = name.split_once('.') else {
        return None;
    };
    let None = column.split_once('.') else {
        return None;
    };
    if first == "p" {
        return Some(column);
    }
    None
}
