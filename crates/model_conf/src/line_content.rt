ghost use Rattle.std.specs.Prelude.{◌≡◌, ◌||◌, ◌==◌, ℕ, List, [], ◌∷◌, ◌++◌, MatchOption};
ghost use Rattle.model_conf.specs.Comments.{IsUncommented};
ghost use Rattle.model_conf.specs.Statements.{LineSays};
ghost use Rattle.model_conf.specs.Helps.Steps.{quote_after, said_by};

use text_parts::{cut_at, trimmed};

/// What a logical line says.
#[derive(Clone, Copy)]
pub(crate) enum LineContent<'a> {
    Header(&'a str),
    Pair(&'a str, &'a str),
    Nothing,
}

/// What a logical line says, without its comment and the blanks at its ends.
pub(crate) fn read_said(line: &str) -> LineContent<'_>
    ensures { LineSays line.now (said_by result) }
{
    let text = trimmed(without_comment(line));
    if let Some(name) = header_name(text) {
        return LineContent::Header(name);
    }
    match cut_at(text, b'=') {
        Some((key, value)) => LineContent::Pair(trimmed(key), trimmed(value)),
        None => LineContent::Nothing,
    }
}

// The name between `[` and `]`.
fn header_name(text: &str) -> Option<&str>
    ensures { MatchOption result
        ((name : List ℕ) → ¬ (text.now ≡ 91 ∷ name ++ 93 ∷ []))
        (λ name. text.now ≡ 91 ∷ name.now ++ 93 ∷ []) }
{
    text.strip_prefix('[')?.strip_suffix(']')
}

// A text up to its first `#` outside quoted texts.
fn without_comment(text: &str) -> &str
    ensures { IsUncommented text.now result.now }
{
    let mut quote = None;
    for (at, byte) in text.as_bytes().iter().enumerate() {
        if quote.is_none() && *byte == b'#' {
            return &text[..at];
        }
        quote = quote_after(quote, *byte);
    }
    text
}

// The sign of the quoted text that is open behind one byte more.
fn quote_after(quote: Option<u8>, byte: u8) -> Option<u8>
    ensures { result ≡ quote_after quote byte }
{
    match quote {
        None if byte == b'"' || byte == b'\'' => Some(byte),
        Some(sign) if sign == byte => None,
        _ => quote,
    }
}
