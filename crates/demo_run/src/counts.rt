ghost use Rattle.std.specs.Prelude.{◌≡◌, ◌+◌, ◌++◌, IfOk, List, OnOk, decimal, map, string_bytes};
ghost use Rattle.answer_lines.specs.LineText.{Appends};
ghost use Rattle.answer_lines.specs.Printed.{ArePrinted, printed_line, shown_of};
ghost use Rattle.answer_lines.specs.declared.answer.Line as line;
ghost use Rattle.demo_run.specs.Helps.Tallies.{IsTallied};
ghost use Rattle.demo_run.specs.Summary.{head_text, none_counted, tally_text, truths_text, verdicts_text, with_shown, with_truth};

use answer_lines::{Line, PrintedLines, Shown, shown_by};
use itoa::Buffer;
use outside::NoMemory;
use std::alloc::Global;

/// How many verdicts and answers of each kind there are, and the last version of a publish.
#[derive(Clone, Copy, Debug, PartialEq, Eq)]
pub struct Counts {
    pub allow: u64,
    pub deny: u64,
    pub fault: u64,
    pub yes: u64,
    pub no: u64,
    pub version: u64,
}

/// Lines that were counted: how many there are, and of which kinds.
#[derive(Clone, Copy, Debug, PartialEq, Eq)]
pub struct Tally {
    pub items: u64,
    pub counts: Counts,
}

impl Tally {
    /// Before the first line.
    pub(crate) fn none() -> Tally
        ensures items { result.items ≡ 0 }
        ensures counts { result.counts ≡ none_counted }
    {
        Tally {
            items: 0,
            counts: Counts {
                allow: 0,
                deny: 0,
                fault: 0,
                yes: 0,
                no: 0,
                version: 0,
            },
        }
    }
}

/// Counts lines behind others. More than 2^64 - 1 are for want of memory.
pub(crate) fn count_lines(tally: &mut Tally, lines: &[Line]) -> Result<(), NoMemory>
    ensures { OnOk result (IsTallied tally.old lines.now tally.new) }
{
    let mut counts = tally.counts;
    for line in lines {
        counts = with_shown(counts, shown_by(&line.answer))?;
    }
    set_tally(tally, lines.len(), counts)
}

/// The same of lines that were printed.
pub(crate) fn count_printed(tally: &mut Tally, lines: &PrintedLines) -> Result<(), NoMemory>
    ensures { OnOk result ((told : List line.Line)
        → ArePrinted (map printed_line told) lines.now → IsTallied tally.old told tally.new) }
{
    count_shown(tally, &lines.shown)
}

// The same of what lines show.
fn count_shown(tally: &mut Tally, shown: &[Shown]) -> Result<(), NoMemory>
    ensures { OnOk result ((told : List line.Line)
        → shown.now ≡ shown_of (map printed_line told) → IsTallied tally.old told tally.new) }
{
    let mut counts = tally.counts;
    for one in shown {
        counts = with_shown(counts, *one)?;
    }
    set_tally(tally, shown.len(), counts)
}

// So many lines more, with which these are the counts.
fn set_tally(tally: &mut Tally, more: usize, counts: Counts) -> Result<(), NoMemory>
    ensures items { OnOk result (tally.new.items ≡ tally.old.items + more) }
    ensures counts { OnOk result (tally.new.counts ≡ counts) }
{
    let Some(items) = tally.items.checked_add(more as u64) else {
        return Err(NoMemory);
    };
    tally.items = items;
    tally.counts = counts;
    Ok(())
}

/// The summary of lines that were counted.
pub(crate) fn summary(alloc: Global, count: u64, tally: Tally) -> Result<String, NoMemory>
    ensures { IfOk result (λ text. string_bytes text ≡ tally_text count tally.items tally.counts) }
{
    let mut text = String::new(alloc);
    push_head(&mut text, count, tally.items)?;
    push_verdicts(&mut text, tally.counts)?;
    push_truths(&mut text, tally.counts)?;
    Ok(text)
}

// Appends which demonstration it is, and how many items it has.
fn push_head(text: &mut String, count: u64, items: u64) -> Result<(), NoMemory>
    ensures { OnOk result (Appends text.old text.new (head_text count items)) }
{
    push_counted(text, "demo ", count)?;
    push_counted(text, ": items ", items)
}

// Appends how many verdicts of each kind there are.
fn push_verdicts(text: &mut String, counts: Counts) -> Result<(), NoMemory>
    ensures { OnOk result (Appends text.old text.new (verdicts_text counts)) }
{
    push_counted(text, ", allow ", counts.allow)?;
    push_counted(text, ", deny ", counts.deny)?;
    push_counted(text, ", fault ", counts.fault)
}

// Appends how many calls changed the policy and how many did not, and the last version.
fn push_truths(text: &mut String, counts: Counts) -> Result<(), NoMemory>
    ensures { OnOk result (Appends text.old text.new (truths_text counts)) }
{
    push_counted(text, ", true ", counts.yes)?;
    push_counted(text, ", false ", counts.no)?;
    push_counted(text, ", version ", counts.version)?;
    text.push_str("\n")?;
    Ok(())
}

// Appends words and a number.
fn push_counted(text: &mut String, words: &str, number: u64) -> Result<(), NoMemory>
    ensures { OnOk result (Appends text.old text.new (words.now ++ decimal number)) }
{
    text.push_str(words)?;
    push_number(text, number)
}

// Appends a number in decimal digits.
fn push_number(text: &mut String, number: u64) -> Result<(), NoMemory>
    ensures { OnOk result (Appends text.old text.new (decimal number)) }
{
    let mut digits = Buffer::new();
    text.push_str(digits.format(number))?;
    Ok(())
}

// One answer more, by what it shows.
fn with_shown(counts: Counts, shown: Shown) -> Result<Counts, NoMemory>
    ensures { IfOk result (λ more. more ≡ with_shown counts shown) }
{
    match shown {
        Shown::Allow(_) => with_allow(counts),
        Shown::Deny(_) => with_deny(counts),
        Shown::Fault(_) => with_fault(counts),
        Shown::Truth(changed) => with_truth(counts, changed),
        Shown::Published(version) => Ok(with_version(counts, version)),
        Shown::Other => Ok(counts),
    }
}

// One call more, by whether it changed the policy.
fn with_truth(counts: Counts, changed: bool) -> Result<Counts, NoMemory>
    ensures { IfOk result (λ more. more ≡ with_truth counts changed) }
{
    if changed {
        return with_yes(counts);
    }
    with_no(counts)
}

fn with_allow(counts: Counts) -> Result<Counts, NoMemory>
    ensures { IfOk result (λ more. more ≡ record counts { allow = counts.allow + 1 }) }
{
    let mut more = counts;
    more.allow = one_more(counts.allow)?;
    Ok(more)
}

fn with_deny(counts: Counts) -> Result<Counts, NoMemory>
    ensures { IfOk result (λ more. more ≡ record counts { deny = counts.deny + 1 }) }
{
    let mut more = counts;
    more.deny = one_more(counts.deny)?;
    Ok(more)
}

fn with_fault(counts: Counts) -> Result<Counts, NoMemory>
    ensures { IfOk result (λ more. more ≡ record counts { fault = counts.fault + 1 }) }
{
    let mut more = counts;
    more.fault = one_more(counts.fault)?;
    Ok(more)
}

fn with_yes(counts: Counts) -> Result<Counts, NoMemory>
    ensures { IfOk result (λ more. more ≡ record counts { yes = counts.yes + 1 }) }
{
    let mut more = counts;
    more.yes = one_more(counts.yes)?;
    Ok(more)
}

fn with_no(counts: Counts) -> Result<Counts, NoMemory>
    ensures { IfOk result (λ more. more ≡ record counts { no = counts.no + 1 }) }
{
    let mut more = counts;
    more.no = one_more(counts.no)?;
    Ok(more)
}

fn with_version(counts: Counts, version: u32) -> Counts
    ensures { result ≡ record counts { version = version } }
{
    let mut more = counts;
    more.version = u64::from(version);
    more
}

// The next number.
fn one_more(number: u64) -> Result<u64, NoMemory>
    ensures { IfOk result (λ more. more ≡ number + 1) }
{
    let Some(more) = number.checked_add(1) else {
        return Err(NoMemory);
    };
    Ok(more)
}
