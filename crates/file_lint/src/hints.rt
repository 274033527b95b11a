ghost use Rattle.std.specs.Prelude.{◌≡◌};
ghost use Rattle.file_lint.specs.Hints.{begins_second, begins_so, compares, ends_here, ends_in_digit, hint, hint_of_forms, hint_of_names, hint_of_signs, is_continued, is_end, is_fraction, is_over, is_power};

use crate::lines::{blanks_before, ends_in};

/// What to write in place of what no matcher goes on with, by what stands in front of it and from its place on.
pub(crate) fn hint(before: &[u8], rest: &[u8]) -> &'static str
    ensures { result.now ≡ hint before.now rest.now }
{
    if is_end(rest) {
        "the matcher ends here, and something is missing"
    } else if begins_so(rest, b"=~") {
        "there is no `=~`: write regexMatch(TEXT, PATTERN)"
    } else if begins_so(rest, b"!~") {
        "there is no `!~`: write !regexMatch(TEXT, PATTERN)"
    } else if compares(rest) {
        "comparisons are not chained: write `a == b && b == c`"
    } else {
        hint_of_signs(before, rest)
    }
}

// The same for signs that compare, choose and join.
fn hint_of_signs(before: &[u8], rest: &[u8]) -> &'static str
    ensures { result.now ≡ hint_of_signs before.now rest.now }
{
    if begins_so(rest, b"=") {
        "there is no `=`: write `==`"
    } else if begins_so(rest, b"?") {
        "there is no `? :`: write `a && b || !a && c`"
    } else if is_power(before, rest) {
        "there is no `**`: write a product"
    } else if begins_so(rest, b"&") {
        "there is no `&`: write `&&`"
    } else {
        hint_of_forms(before, rest)
    }
}

// The same for signs of lists and numbers.
fn hint_of_forms(before: &[u8], rest: &[u8]) -> &'static str
    ensures { result.now ≡ hint_of_forms before.now rest.now }
{
    if begins_so(rest, b"|") {
        "there is no `|`: write `||`"
    } else if begins_so(rest, b"[") {
        "there is no `[a, b]`: write `(a, b)`"
    } else if is_fraction(before, rest) {
        "numbers are whole"
    } else {
        hint_of_names(rest)
    }
}

// The same for names.
fn hint_of_names(rest: &[u8]) -> &'static str
    ensures { result.now ≡ hint_of_names rest.now }
{
    if begins_so(rest, b"r_") {
        "write `r.` in place of `r_`"
    } else if begins_so(rest, b"p_") {
        "write `p.` in place of `p_`"
    } else if begins_second(rest) {
        "a model has one r and one p: write `r.` or `p.`"
    } else {
        "no matcher goes on so"
    }
}

// A sign that compares stands in front.
fn compares(rest: &[u8]) -> bool
    ensures { result ≡ compares rest.now }
{
    begins_so(rest, b"==")
        || begins_so(rest, b"!=")
        || begins_so(rest, b"<")
        || begins_so(rest, b">")
}

// A second request or policy does.
fn begins_second(rest: &[u8]) -> bool
    ensures { result ≡ begins_second rest.now }
{
    begins_so(rest, b"r2.")
        || begins_so(rest, b"p2.")
        || begins_so(rest, b"r3.")
        || begins_so(rest, b"p3.")
}

// The point of a number that is no whole one.
fn is_fraction(before: &[u8], rest: &[u8]) -> bool
    ensures { result ≡ is_fraction before.now rest.now }
{
    begins_so(rest, b".") && ends_in_digit(before)
}

// The second sign of `**`.
fn is_power(before: &[u8], rest: &[u8]) -> bool
    ensures { result ≡ is_power before.now rest.now }
{
    begins_so(rest, b"*") && ends_in(before, b'*')
}

// Behind blanks it is over.
fn is_end(text: &[u8]) -> bool
    ensures { result ≡ is_end text.now }
{
    is_over(&text[blanks_before(text)..])
}

// Nothing stands there, or a comment, or the sign of a line that is continued.
fn is_over(text: &[u8]) -> bool
    ensures { result ≡ is_over text.now }
{
    let Some((first, behind)) = text.split_first() else {
        return true;
    };
    ends_here(*first, behind)
}

fn ends_here(byte: u8, behind: &[u8]) -> bool
    ensures { result ≡ ends_here byte behind.now }
{
    byte == b'#' || is_continued(byte, behind)
}

// The sign of a line that is continued, at its end.
fn is_continued(byte: u8, behind: &[u8]) -> bool
    ensures { result ≡ is_continued byte behind.now }
{
    byte == b'\\' && blanks_before(behind) == behind.len()
}

/// A text begins so.
pub(crate) fn begins_so(text: &[u8], front: &[u8]) -> bool
    ensures { result ≡ begins_so front.now text.now }
{
    text.starts_with(front)
}

fn ends_in_digit(text: &[u8]) -> bool
    ensures { result ≡ ends_in_digit text.now }
{
    match text.last() {
        Some(last) => last.is_ascii_digit(),
        None => false,
    }
}
