ghost use Rattle.std.specs.Prelude.{◌≡◌, ◌≤◌, IfSome};
ghost use Rattle.std.specs.Char.{is_ascii_digit};
ghost use Rattle.std.specs.List.{list_all};
ghost use Rattle.command_words.specs.Values.{number_between};

/// The number that one to so many decimal digits write, where it lies in a range.
pub(crate) fn number_between(text: &str, digits: usize, least: u32, most: u32) -> Option<u32>
    requires { digits ≤ 9 }
    ensures value { result ≡ number_between digits least most text.now }
    ensures within { IfSome result (λ number. (least ≤ number) × (number ≤ most)) }
{
    if text.is_empty() || text.len() > digits || !are_digits(text) {
        return None;
    }
    let number = text.parse().ok()?;
    if number < least || number > most {
        return None;
    }
    Some(number)
}

fn are_digits(text: &str) -> bool
    ensures { result ≡ list_all is_ascii_digit text.now }
{
    text.as_bytes().iter().all(|byte| byte.is_ascii_digit())
}
