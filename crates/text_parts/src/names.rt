ghost use Rattle.std.specs.Prelude.{◌≡◌};
ghost use Rattle.text_parts.specs.Names.{is_identifier, is_letter, is_word};

/// A letter or `_`, and then letters, digits or `_`.
pub fn is_identifier(text: &str) -> bool
    ensures { result ≡ is_identifier text.now }
{
    match text.as_bytes() {
        [] => false,
        [first, others @ ..] => is_letter(*first) && others.iter().all(|byte| is_word(*byte)),
    }
}

/// A letter of ASCII or `_`.
pub fn is_letter(byte: u8) -> bool
    ensures { result ≡ is_letter byte }
{
    byte.is_ascii_alphabetic() || byte == b'_'
}

/// A letter or a digit of ASCII, or `_`.
pub fn is_word(byte: u8) -> bool
    ensures { result ≡ is_word byte }
{
    byte.is_ascii_alphanumeric() || byte == b'_'
}
