//! Finding a byte.

ghost use Rattle.std.specs.Prelude.{◌≡◌, ◌≤◌, ◌+◌, ◌==◌, drop, length};
ghost use Rattle.std.specs.List.{position_or_len};

/// The place of the first `wanted` in a text from a place on, or the text's length.
pub(crate) fn place_from(text: &[u8], wanted: u8, from: usize) -> usize
    requires { from ≤ length text.now }
    ensures place { result ≡ from + position_or_len (λ byte. byte == wanted) (drop from text.now) }
    ensures within { result ≤ length text.now }
{
    for at in from..text.len() {
        if text[at] == wanted {
            return at;
        }
    }
    text.len()
}
