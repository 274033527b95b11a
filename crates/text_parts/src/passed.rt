ghost use Rattle.std.specs.Prelude.{◌≡◌};
ghost use Rattle.text_parts.specs.Passed.{is_passed, is_passed_in_model};

use crate::blanks::behind_blanks;

/// A line of blanks alone, or one whose first byte that is no blank is `#`.
pub fn is_passed(line: &str) -> bool
    ensures { result ≡ is_passed line.now }
{
    match behind_blanks(line).as_bytes() {
        [] => true,
        [first, ..] => *first == b'#',
    }
}

/// A line that is passed over in a model's text: also one whose first byte that is no blank is `;`.
pub fn is_passed_in_model(line: &str) -> bool
    ensures { result ≡ is_passed_in_model line.now }
{
    match behind_blanks(line).as_bytes() {
        [] => true,
        [first, ..] => *first == b'#' || *first == b';',
    }
}
