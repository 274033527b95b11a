//! What a run is given: its files, its input, its sinks and its finders.

use crate::case::Case;
use crate::field::Field;
use crate::pieces::Pieces;
use anyhow::{Context, Result, ensure};
use outside::{ListShelf, ListSink, ListSource, Text};
use regex_gate::ListFinder;
use std::alloc::Global;

// The file to which a line below `matchers` is added.
const MODEL: &str = "m.conf";

// How many bytes a sink has room for.
const ROOM: u32 = 65_536;

/// The input of a case.
pub(crate) fn input(alloc: Global, case: &Case) -> Result<Pieces> {
    let most = most(alloc, case, "input-most")?;
    let fails = case.numbers(alloc, "input-fails")?;
    let source = ListSource::new(case.text(alloc, "input")?, fails);
    Ok(Pieces::new(source, most as usize))
}

// How many bytes a call takes at most.
fn most(alloc: Global, case: &Case, key: &str) -> Result<u32> {
    Ok(case.numbers(alloc, key)?.first().copied().unwrap_or(ROOM))
}

/// Puts the files of a case on a shelf.
pub(crate) fn put_files(
    alloc: Global,
    shelf: &mut ListShelf,
    case: &Case,
    matcher: &[u8],
) -> Result<()> {
    for field in &case.fields {
        if field.key.as_str() == "file" {
            let (name, bytes) = file_of(alloc, field, matcher)?;
            shelf.put(name, bytes).ok().context("memory ran out")?;
        }
    }
    Ok(())
}

/// The name and the bytes of a file.
pub(crate) fn file_of(alloc: Global, field: &Field, matcher: &[u8]) -> Result<(Text, Vec<u8>)> {
    let name = Text::from_str(alloc, field.rest.as_str());
    let name = name.ok().context("memory ran out")?;
    let mut bytes = Vec::from_slice(alloc, &field.text)?;
    if field.rest.as_str() == MODEL && !matcher.is_empty() {
        bytes.extend_from_slice(b"m = ")?;
        bytes.extend_from_slice(matcher)?;
    }
    Ok((name, bytes))
}

/// A sink that takes at most so many bytes at a call, where the case says how many.
pub(crate) fn sink(alloc: Global, case: &Case, taken: &str, fails: &str) -> Result<ListSink> {
    let most = most(alloc, case, taken)?;
    ensure!(most > 0, "a sink takes a byte at least");
    let fails = case.numbers(alloc, fails)?;
    let sink = ListSink::new(alloc, ROOM, most, fails);
    sink.ok().context("memory ran out")
}

/// The finders of a run, of which the first refuses the calls that the case says.
pub(crate) fn finders(alloc: Global, case: &Case) -> Result<Vec<ListFinder>> {
    let mut finders = Vec::new(alloc);
    let refused = case.numbers(alloc, "finder-fails")?;
    finders.push(ListFinder::new(alloc, refused))?;
    for _ in 1..9 {
        finders.push(ListFinder::new(alloc, Vec::new(alloc)))?;
    }
    Ok(finders)
}
