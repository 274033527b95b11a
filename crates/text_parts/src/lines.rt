ghost use Rattle.std.specs.Prelude.{◌≡◌, ◌<◌, ◌++◌, ℕ, List, [], ◌∷◌, false, IfNone, IfSome, length};
ghost use Rattle.text_parts.specs.Lines.{AreLines, has_byte, lines_of, with_ends, without_cr};
ghost use Rattle.text_parts.specs.Numbered.{text_lines};

use crate::cuts::cut_at;

/// The first line of a text, without its LF, and what stands behind it.
pub fn next_line(text: &str) -> Option<(&str, &str)>
    ensures none { IfNone result (lines_of text.now ≡ []) }
    ensures first { IfSome result (λ cut. lines_of text.now ≡ cut.0.now ∷ lines_of cut.1.now) }
    ensures shorter { IfSome result (λ cut. length cut.1.now < length text.now) }
{
    if text.is_empty() {
        return None;
    }
    match cut_at(text, b'\n') {
        Some((line, after)) => Some((line, after)),
        None => Some((text, "")),
    }
}

/// A line without the CR at its end.
pub fn without_cr(line: &str) -> &str
    ensures { result.now ≡ without_cr line.now }
{
    match line.strip_suffix('\r') {
        Some(line) => line,
        None => line,
    }
}

/// The first line of a text, without its LF or CR LF, and what stands behind it.
pub fn next_text_line(text: &str) -> Option<(&str, &str)>
    ensures none { IfNone result (text_lines text.now ≡ []) }
    ensures first { IfSome result (λ cut. text_lines text.now ≡ cut.0.now ∷ text_lines cut.1.now) }
    ensures shorter { IfSome result (λ cut. length cut.1.now < length text.now) }
{
    let (line, after) = next_line(text)?;
    Some((without_cr(line), after))
}

/// The law that texts without LF, each followed by LF, have exactly these lines.
pub fn lines_with_ends()
    ensures { (texts : List (List ℕ)) → AreLines texts → lines_of (with_ends texts) ≡ texts }
{}

/// The law that the last line of a text, if it is not empty, may lack its LF.
pub fn lines_without_last_end()
    ensures { (texts : List (List ℕ)) (last : List ℕ)
        → AreLines texts → has_byte 10 last ≡ false → 0 < length last
        → lines_of (with_ends texts ++ last) ≡ texts ++ last ∷ [] }
{}
