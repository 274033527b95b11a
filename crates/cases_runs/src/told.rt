use crate::case::Case;
use anyhow::Result;
use std::io::Write;

// A line of more bytes than the first is long, and of it so many are shown in front and at the end.
const LONG: usize = 300;

const SHOWN: usize = 80;

const SHOWN_AT_END: usize = 40;

/// Says what a run came to.
pub(crate) fn push_told(
    report: &mut Vec<u8>,
    case: &Case,
    matcher: &[u8],
    code: u8,
    out: &[u8],
    err: &[u8],
) -> Result<()> {
    write!(report, "case {}", case.name)?;
    if let Some(matcher) = matcher.strip_suffix(b"\n") {
        report.extend_from_slice(b": ")?;
        report.extend_from_slice(matcher)?;
    }
    writeln!(report, ": status {code}")?;
    push_lines(report, "out", out)?;
    push_lines(report, "err", err)
}

// Says which lines a sink took. A last one without an end of line is said to be a front.
fn push_lines(report: &mut Vec<u8>, sink: &str, bytes: &[u8]) -> Result<()> {
    for line in bytes.split_inclusive(|byte| *byte == b'\n') {
        match line.strip_suffix(b"\n") {
            Some(line) => push_line(report, &["  ", sink, " "], line)?,
            None => push_line(report, &["  ", sink, "-front "], line)?,
        }
    }
    Ok(())
}

fn push_line(report: &mut Vec<u8>, tag: &[&str], line: &[u8]) -> Result<()> {
    for part in tag {
        report.extend_from_slice(part.as_bytes())?;
    }
    push_short(report, line)?;
    report.push(b'\n')?;
    Ok(())
}

// Appends a line; of a long one its first bytes, its length and its last bytes.
fn push_short(report: &mut Vec<u8>, line: &[u8]) -> Result<()> {
    let end = line.len().saturating_sub(SHOWN_AT_END);
    match line.split_at_checked(end) {
        Some((front, back)) if line.len() > LONG => {
            report.extend_from_slice(front.get(..SHOWN).unwrap_or(front))?;
            write!(report, " .. {} bytes .. ", line.len())?;
            report.extend_from_slice(back)?;
        }
        _ => report.extend_from_slice(line)?,
    }
    Ok(())
}
