//! Where a text is cut.

ghost use Rattle.std.specs.Prelude.{◌≡◌, ◌<◌, ◌++◌, [], ◌∷◌, codes, length, IfNone, IfSome, MatchOption};
ghost use Rattle.ip_match.specs.Helps.Parts.{parts_of, HasNoGap};

/// The text before the first separator and the text after it.
pub(crate) fn cut(text: &[u8], separator: u8) -> Option<(&[u8], &[u8])>
    ensures parts { MatchOption result
        (parts_of separator text.now ≡ text.now ∷ [])
        (λ cut. parts_of separator text.now ≡ cut.0.now ∷ parts_of separator cut.1.now) }
    ensures shorter { IfSome result (λ cut. length cut.1.now < length text.now) }
{
    let at = text.iter().position(|byte| *byte == separator)?;
    Some((&text[..at], &text[at + 1..]))
}

/// The text before the first `::` and the text after it.
pub(crate) fn cut_at_gap(text: &[u8]) -> Option<(&[u8], &[u8])>
    ensures spelled { IfSome result (λ cut. text.now ≡ cut.0.now ++ codes "::" ++ cut.1.now) }
    ensures first { IfSome result (λ cut. HasNoGap (cut.0.now ++ codes ":")) }
    ensures none { IfNone result (HasNoGap text.now) }
{
    for at in 1..text.len() {
        if text[at - 1] == b':' && text[at] == b':' {
            return Some((&text[..at - 1], &text[at + 1..]));
        }
    }
    None
}
