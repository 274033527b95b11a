use anyhow::{Context, Result};
use std::io::Write;
use std::str;

/// Answers each line of a text in its turn, and writes the line with its answer.
pub fn answer_each<W: Write, F: FnMut(&str) -> Result<String>>(
    text: &[u8],
    out: &mut W,
    mut answer: F,
) -> Result<()>
    requires { F.IsAlwaysCallable answer }
{
    for line in str::from_utf8(text)?.lines() {
        let answer = answer(line).context(format_args!("no such line: {line}"))?;
        writeln!(out, "  {line} = {answer}")?;
    }
    Ok(())
}

/// The text before and behind the first such sign, or all of it.
pub fn cut(text: &str, sign: char) -> (&str, &str) {
    text.split_once(sign).unwrap_or((text, ""))
}
