use crate::case::Case;
use crate::event_lines::event_of;
use crate::lines::answer_each;
use anyhow::{Result, bail};
use live_meaning::{Event, Reply, StepStop, World, new_world, run, step};
use std::alloc::Global;
use std::io::Write;
use std::str;

/// Does the events of a case in a world without seats, and says what each is answered. They stand below each `run` and each
/// `steps`, a line each. Those of `run` are done as one list, which ends at the first that is refused; those of `steps` one by
/// one, and what is refused is passed over.
pub(crate) fn push_events(alloc: Global, report: &mut Vec<u8>, case: &Case) -> Result<()> {
    case.check_keys(&[], &["run", "steps"])?;
    writeln!(report, "case {}", case.name)?;
    for field in &case.fields {
        match field.key.as_str() {
            "run" => answer_run(alloc, str::from_utf8(&field.text)?, report)?,
            _ => answer_steps(alloc, &field.text, report)?,
        }
    }
    Ok(())
}

fn answer_run(alloc: Global, text: &str, report: &mut Vec<u8>) -> Result<()> {
    let events = events_of(alloc, text)?;
    let mut world = new_world(alloc);
    answer_events(alloc, &mut world, events, report)
}

// The events of a text, a line each.
fn events_of(alloc: Global, text: &str) -> Result<Vec<Event>> {
    let mut events = Vec::new(alloc);
    for line in text.lines() {
        events.push(event_of(alloc, line)?)?;
    }
    Ok(events)
}

// Does events as one list.
fn answer_events(
    alloc: Global,
    world: &mut World,
    events: Vec<Event>,
    report: &mut Vec<u8>,
) -> Result<()> {
    match run(world, events) {
        Ok(replies) => push_replies(alloc, &replies, report),
        Err(stop) => push_refusal(stop, report),
    }
}

fn push_replies(alloc: Global, replies: &[Reply], report: &mut Vec<u8>) -> Result<()> {
    for reply in replies {
        writeln!(report, "  {}", shown(alloc, *reply)?)?;
    }
    Ok(())
}

fn push_refusal(stop: StepStop, report: &mut Vec<u8>) -> Result<()> {
    writeln!(report, "  {}", refusal(stop)?)?;
    Ok(())
}

fn answer_steps(alloc: Global, text: &[u8], report: &mut Vec<u8>) -> Result<()> {
    let mut world = new_world(alloc);
    answer_each(text, report, |line| answer_step(alloc, &mut world, line))
}

fn answer_step(alloc: Global, world: &mut World, line: &str) -> Result<String> {
    match step(world, event_of(alloc, line)?) {
        Ok(reply) => shown(alloc, reply),
        Err(stop) => Ok(String::from_str(alloc, refusal(stop)?)?),
    }
}

fn shown(alloc: Global, reply: Reply) -> Result<String> {
    let text = match reply {
        Reply::Done => String::from_str(alloc, "done")?,
        Reply::Published { version } => format!(in alloc; "published @{version}")?,
        Reply::Noted { note } => format!(in alloc; "noted {note}")?,
        Reply::Entered { version } => format!(in alloc; "entered @{version}")?,
        Reply::Seated { seat } => format!(in alloc; "seated {seat}")?,
    };
    Ok(text)
}

fn refusal(stop: StepStop) -> Result<&'static str> {
    match stop {
        StepStop::NoSeat => Ok("no seat"),
        StepStop::NoNote => Ok("no note"),
        StepStop::NoMemory => bail!("memory ran out"),
    }
}
