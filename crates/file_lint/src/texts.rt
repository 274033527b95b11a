ghost use Rattle.std.specs.Prelude.{◌≡◌, ◌++◌, IfOk, OnOk, decimal, string_bytes};
ghost use Rattle.file_lint.specs.Texts.{quoted};

use itoa::Buffer;
use outside::NoMemory;
use std::alloc::Global;

/// Appends a text.
pub(crate) fn push(text: &mut String, more: &str) -> Result<(), NoMemory>
    ensures { OnOk result (string_bytes text.new ≡ string_bytes text.old ++ more.now) }
{
    text.push_str(more)?;
    Ok(())
}

/// Appends a text in quotes.
pub(crate) fn push_quoted(text: &mut String, more: &str) -> Result<(), NoMemory>
    ensures { OnOk result (string_bytes text.new ≡ string_bytes text.old ++ quoted more.now) }
{
    text.push_str("\"")?;
    text.push_str(more)?;
    text.push_str("\"")?;
    Ok(())
}

/// Appends a number in decimal digits.
pub(crate) fn push_number(text: &mut String, number: u64) -> Result<(), NoMemory>
    ensures { OnOk result (string_bytes text.new ≡ string_bytes text.old ++ decimal number) }
{
    let mut digits = Buffer::new();
    text.push_str(digits.format(number))?;
    Ok(())
}

/// A text in quotes, and one behind it.
pub(crate) fn quoted_and(alloc: Global, text: &str, more: &str) -> Result<String, NoMemory>
    ensures { IfOk result (λ made. string_bytes made ≡ quoted text.now ++ more.now) }
{
    let mut made = String::new(alloc);
    push_quoted(&mut made, text)?;
    push(&mut made, more)?;
    Ok(made)
}

/// Three texts, one behind the other.
pub(crate) fn joined(
    alloc: Global,
    first: &str,
    second: &str,
    third: &str,
) -> Result<String, NoMemory>
    ensures { IfOk result (λ made. string_bytes made ≡ first.now ++ second.now ++ third.now) }
{
    let mut made = String::from_str(alloc, first)?;
    push(&mut made, second)?;
    push(&mut made, third)?;
    Ok(made)
}
