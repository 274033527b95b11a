ghost use Rattle.std.specs.Prelude.{◌≡◌, ◌<◌, ◌∷◌, ◌++◌, ℕ, List, false, IfNone, IfSome, MatchOption};
ghost use Rattle.text_parts.specs.Lines.{has_byte};

use memchr::memchr;

/// What stands before the first such byte of ASCII in a text, and what stands behind it.
pub fn cut_at(text: &str, byte: u8) -> Option<(&str, &str)>
    requires { byte < 128 }
    ensures none { IfNone result (has_byte byte text.now ≡ false) }
    ensures parts { IfSome result (λ cut. text.now ≡ cut.0.now ++ byte ∷ cut.1.now) }
    ensures first { IfSome result (λ cut. has_byte byte cut.0.now ≡ false) }
{
    match memchr(byte, text.as_bytes()) {
        Some(at) => Some((&text[..at], &text[at + 1..])),
        None => None,
    }
}

/// What stands behind this byte of ASCII, if the text begins with it.
pub fn behind(text: &str, byte: u8) -> Option<&str>
    requires { byte < 128 }
    ensures { MatchOption result ((rest : List ℕ) → ¬ (text.now ≡ byte ∷ rest))
        (λ rest. text.now ≡ byte ∷ rest.now) }
{
    text.strip_prefix(char::from(byte))
}

/// The text holds the byte.
pub fn has_byte(text: &str, byte: u8) -> bool
    ensures { result ≡ has_byte byte text.now }
{
    text.as_bytes().iter().any(|b| *b == byte)
}
