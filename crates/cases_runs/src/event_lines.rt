//! Events as lines.

use anyhow::{Context, Result, bail};
use live_meaning::Event;
use std::alloc::Global;
use version_log::read_edit;

/// The event of a line: `edit`, `publish`, `note` and `seat`, `learn SEAT NOTE` and `enter SEAT`. Each edit adds the same rule,
/// since no reply depends on what it says.
pub fn event_of(alloc: Global, line: &str) -> Result<Event> {
    let mut words = line.split(' ');
    match words.next() {
        Some("edit") => {
            let edit = read_edit(alloc, b"+ p, alice, data1, read\n.\n")
                .ok()
                .context("the text is no edit")?;
            Ok(Event::Edit(edit))
        }
        Some("publish") => Ok(Event::Publish),
        Some("note") => Ok(Event::Note),
        Some("seat") => Ok(Event::Seat),
        Some("learn") => {
            let seat = number(words.next())?;
            let note = number(words.next())?;
            Ok(Event::Learn { seat, note })
        }
        Some("enter") => {
            let seat = number(words.next())?;
            Ok(Event::Enter { seat })
        }
        _ => bail!("no event has this name"),
    }
}

fn number(word: Option<&str>) -> Result<u64> {
    Ok(word.context("a number is missing")?.parse::<u64>()?)
}
