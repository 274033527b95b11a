ghost use Rattle.std.specs.Prelude.{◌≡◌, IfOk};
ghost use Rattle.item_stream.specs.Sections.{ended_at, goes_on, joined, next_held, section_of, with_line};
ghost use Rattle.item_stream.specs.Seen.{seen_held, seen_option};

use crate::kind::{Kind, kind_of};
use crate::section::Section;
use outside::NoMemory;
use std::alloc::Global;

// How long sections are at most: the bytes of a line, the lines, and the bytes of all.
const MOST_LINE: usize = 65_536;

const MOST_LINES: u32 = 200_002;

const MOST_TEXT: usize = 16_777_216;

/// What is held of a section that goes on.
#[derive(Drop)]
pub(crate) enum Held {
    Nothing,
    /// So many lines, each followed by LF.
    Lines { count: u32, text: Vec<u8> },
    /// No more than that it is too long.
    TooLong,
}

/// What is held behind a line, and the section that ends with it.
pub(crate) fn take_end(
    alloc: Global,
    held: Held,
    line: &[u8],
    follow: bool,
) -> Result<(Held, Option<Section>), NoMemory>
    ensures held { IfOk result (λ next.
        seen_held next.0 ≡ next_held follow (seen_held held) line.now) }
    ensures ended { IfOk result (λ next.
        seen_option next.1 ≡ ended_at follow (seen_held held) line.now) }
{
    let kind = kind_of(line, follow);
    if kind.passed {
        return Ok((held, None));
    }
    let open = goes_on(&held, kind);
    let held = with_line(alloc, held, line)?;
    if open {
        return Ok((held, None));
    }
    Ok((Held::Nothing, section_of(held)))
}

/// What is held, as a section.
pub(crate) fn section_of(held: Held) -> Option<Section>
    ensures { seen_option result ≡ section_of (seen_held held) }
{
    match held {
        Held::Nothing => None,
        Held::Lines { text, .. } => Some(Section::Lines(text)),
        Held::TooLong => Some(Section::TooLong),
    }
}

// Whether the section to which a line of this kind belongs goes on behind it.
fn goes_on(held: &Held, kind: Kind) -> bool
    ensures { result ≡ goes_on (seen_held held.now) kind }
{
    match held {
        Held::Nothing => kind.begins,
        Held::Lines { .. } | Held::TooLong => !kind.ends,
    }
}

// What is held, with a line more.
fn with_line(alloc: Global, held: Held, line: &[u8]) -> Result<Held, NoMemory>
    ensures { IfOk result (λ next. seen_held next ≡ with_line (seen_held held) line.now) }
{
    match held {
        Held::Nothing => joined(0, Vec::new(alloc), line),
        Held::Lines { count, text } => joined(count, text, line),
        Held::TooLong => Ok(Held::TooLong),
    }
}

// A line behind so many others.
fn joined(count: u32, text: Vec<u8>, line: &[u8]) -> Result<Held, NoMemory>
    ensures { IfOk result (λ next. seen_held next ≡ joined count text.items line.now) }
{
    if line.len() > MOST_LINE {
        return Ok(Held::TooLong);
    }
    if count >= MOST_LINES {
        return Ok(Held::TooLong);
    }
    if text.len() >= MOST_TEXT - line.len() {
        return Ok(Held::TooLong);
    }
    let mut text = text;
    text.extend_from_slice(line)?;
    text.push(b'\n')?;
    Ok(Held::Lines {
        count: count + 1,
        text,
    })
}
