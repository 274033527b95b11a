ghost use Rattle.std.specs.Prelude.{◌≡◌, option_map};
ghost use Rattle.file_lint.specs.Hints.{begins_so};
ghost use Rattle.file_lint.specs.ModelNames.{header_in, key_and_rest, key_behind, key_of, lower_of, order_mark, section_of};

use crate::hints::begins_so;
use crate::lines::cut_at;
use model_conf::Key;
use text_parts::trimmed;

/// A text begins with the byte-order mark of UTF-8.
pub(crate) fn has_order_mark(text: &str) -> bool
    ensures { result ≡ begins_so order_mark text.now }
{
    begins_so(text.as_bytes(), &[0xEF, 0xBB, 0xBF])
}

/// The name between `[` and `]`.
pub(crate) fn header_in(line: &str) -> &str
    ensures { result.now ≡ header_in line.now }
{
    trimmed(cut_at(cut_at(line, '[').1, ']').0)
}

/// The key that is written in upper case.
pub(crate) fn lower_of(key: &str) -> Option<&'static str>
    ensures { option_map (λ lower. lower.now) result ≡ lower_of key.now }
{
    match key {
        "R" => Some("r"),
        "P" => Some("p"),
        "E" => Some("e"),
        "M" => Some("m"),
        "G" => Some("g"),
        _ => None,
    }
}

/// The section of a key.
pub(crate) fn section_of(key: Key) -> &'static str
    ensures { result.now ≡ section_of key }
{
    match key {
        Key::R => "request_definition",
        Key::P => "policy_definition",
        Key::E => "policy_effect",
        Key::M => "matchers",
    }
}

/// The key that a column stands behind, and what stands behind the `.`.
pub(crate) fn key_and_rest(name: &[u8]) -> Option<(Key, &[u8])>
    ensures { option_map (λ cut. (cut.0, cut.1.now)) result ≡ key_and_rest name.now }
{
    let (byte, behind) = name.split_first()?;
    key_behind(*byte, behind)
}

// The same by the first byte and those behind it.
fn key_behind(byte: u8, behind: &[u8]) -> Option<(Key, &[u8])>
    ensures { option_map (λ cut. (cut.0, cut.1.now)) result ≡ key_behind byte behind.now }
{
    let (dot, rest) = behind.split_first()?;
    if *dot != b'.' {
        return None;
    }
    key_of(byte, rest)
}

fn key_of(byte: u8, rest: &[u8]) -> Option<(Key, &[u8])>
    ensures { option_map (λ cut. (cut.0, cut.1.now)) result ≡ key_of byte rest.now }
{
    if byte == b'r' {
        Some((Key::R, rest))
    } else if byte == b'p' {
        Some((Key::P, rest))
    } else {
        None
    }
}
