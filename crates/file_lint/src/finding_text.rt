ghost use Rattle.std.specs.Prelude.{◌≡◌, ◌≤◌, ◌++◌, OnOk, length, string_bytes};
ghost use Rattle.file_lint.specs.Findings.{count_line, count_of, finding_line, finding_lines, is_error, is_same, level_text, place_text, told_text};

use crate::finding::{Finding, Level};
use crate::texts::push_number;
use outside::NoMemory;

/// How many findings are of a level.
pub fn count_of(findings: &[Finding], level: Level) -> u64
    ensures value { result ≡ count_of level findings.now }
    ensures few { result ≤ length findings.now }
{
    count(findings, level) as u64
}

fn count(findings: &[Finding], level: Level) -> usize
    ensures { result ≡ count_of level findings.now }
{
    findings
        .iter()
        .filter(|found| is_same(level, found.level))
        .count()
}

/// Appends the line of each finding in a file of this name.
pub fn push_findings(text: &mut String, file: &str, findings: &[Finding]) -> Result<(), NoMemory>
    ensures { OnOk result (string_bytes text.new
        ≡ string_bytes text.old ++ finding_lines file.now findings.now) }
{
    for found in findings {
        push_finding(text, file, found)?;
    }
    Ok(())
}

/// Appends the line of these counts.
pub fn push_counts(text: &mut String, errors: u64, warnings: u64) -> Result<(), NoMemory>
    ensures { OnOk result (string_bytes text.new
        ≡ string_bytes text.old ++ count_line errors warnings) }
{
    push_number(text, errors)?;
    text.push_str(" errors, ")?;
    push_number(text, warnings)?;
    text.push_str(" warnings\n")?;
    Ok(())
}

fn push_finding(text: &mut String, file: &str, found: &Finding) -> Result<(), NoMemory>
    ensures { OnOk result (string_bytes text.new
        ≡ string_bytes text.old ++ finding_line file.now found.now) }
{
    push_place(text, file, found)?;
    push_told(text, found)?;
    Ok(())
}

// Appends the file of a finding, and its place.
fn push_place(text: &mut String, file: &str, found: &Finding) -> Result<(), NoMemory>
    ensures { OnOk result (string_bytes text.new
        ≡ string_bytes text.old ++ place_text file.now found.now) }
{
    text.push_str(file)?;
    text.push_str(":")?;
    push_number(text, found.line)?;
    text.push_str(":")?;
    push_number(text, found.column)?;
    Ok(())
}

// Appends the level of a finding, and its words.
fn push_told(text: &mut String, found: &Finding) -> Result<(), NoMemory>
    ensures { OnOk result (string_bytes text.new ≡ string_bytes text.old ++ told_text found.now) }
{
    text.push_str(": ")?;
    text.push_str(level_text(found.level))?;
    text.push_str(": ")?;
    text.push_str(found.text.as_str())?;
    text.push_str("\n")?;
    Ok(())
}

fn level_text(level: Level) -> &'static str
    ensures { result.now ≡ level_text level }
{
    match level {
        Level::Error => "error",
        Level::Warning => "warning",
    }
}

fn is_same(level: Level, other: Level) -> bool
    ensures { result ≡ is_same level other }
{
    match level {
        Level::Error => is_error(other),
        Level::Warning => !is_error(other),
    }
}

fn is_error(level: Level) -> bool
    ensures { result ≡ is_error level }
{
    match level {
        Level::Error => true,
        Level::Warning => false,
    }
}
