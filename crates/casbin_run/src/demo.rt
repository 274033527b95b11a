ghost use Rattle.std.specs.Prelude.{◌≡◌, ◌≤◌, IfErr, IfOk, IfSome, OnOk, drop, length, map};
ghost use Rattle.std.specs.List.{AllZip};
ghost use Rattle.command_words.specs.Items.{texts};
ghost use Rattle.demo_run.specs.Demo.{IsDemo};
ghost use Rattle.outside.specs.Faults.{Rose};
ghost use Rattle.regex_gate.specs.Refusals.{IsUsed};
ghost use Rattle.casbin_run.specs.Demos.{demo_asked, demo_of};
ghost use Rattle.casbin_run.specs.Helps.Demos.{DemoEnds};
ghost use Rattle.loaded_work.specs.Helps.TaskSteps.{Showed, TextStops};
ghost use Rattle.loaded_work.specs.Sinks.{taken};

use command_words::{Command, read_words};
use demo_run::summarize;
use live_pair::Places;
use live_rounds::Gate;
use outside::{NoMemory, Sink, push_all};
use regex_gate::Finder;
use run_status::{Status, Stop, tell_stop};
use std::alloc::Global;
use std::sync::Wait;
use std::thread::Threads;

/// The size of the demonstration that words ask for, and how many workers it has.
pub(crate) fn read_demo(alloc: Global, words: &[String]) -> Result<Option<(u32, u32)>, NoMemory>
    ensures asked { IfOk result (λ found. found ≡ demo_asked (texts words.now)) }
    ensures few { IfOk result (λ found. IfSome found (λ demo. demo.1 ≤ 8)) }
{
    let Some(command) = read_words(alloc, words)? else {
        return Ok(None);
    };
    Ok(demo_of(command))
}

// Those that a command asks for.
fn demo_of(command: Command<'_>) -> Option<(u32, u32)>
    ensures { result ≡ demo_of command.entry }
{
    match command {
        Command::Demo { count, workers } => Some((count, u32::from(workers))),
        Command::Enforce { .. }
        | Command::Explain { .. }
        | Command::Session { .. }
        | Command::Check(_)
        | Command::Format(_)
        | Command::Implicit { .. }
        | Command::Report { .. }
        | Command::Ship { .. }
        | Command::Follow { .. }
        | Command::Lint { .. } => None,
    }
}

/// Does the session of the demonstration, and writes its summary.
pub(crate) fn run_demo<R: Threads + Wait + Sync, K: Sink, E: Sink, P: Finder, G: Gate, H: Places>(
    rt: &R,
    alloc: Global,
    count: u32,
    workers: u32,
    out: &mut K,
    err: &mut E,
    finders: &mut Vec<P>,
    gate: &G,
    places: &mut H,
) -> Status
    requires few { workers ≤ 8 }
    requires nine { length finders.old.items ≡ 9 }
    ensures ends { DemoEnds count workers
        (taken (K.taken out.old) (K.faults out.old)) (taken (K.taken out.new) (K.faults out.new))
        (taken (E.taken err.old) (E.faults err.old)) (taken (E.taken err.new) (E.faults err.new))
        result }
    ensures out_counted { K.faults out.old ≤ K.faults out.new }
    ensures err_counted { E.faults err.old ≤ E.faults err.new }
    ensures places_counted { H.faults places.old ≤ H.faults places.new }
    ensures used { AllZip IsUsed (map P.refusals finders.old.items)
        (map P.refusals finders.new.items) }
    ensures alone { workers ≡ 0 → drop 1 finders.new.items ≡ drop 1 finders.old.items }
{
    match write_demo(rt, alloc, count, workers, out, finders, gate, places) {
        Ok(()) => Status::Done,
        Err(stop) => tell_stop(err, stop),
    }
}

// Writes the summary.
fn write_demo<R: Threads + Wait + Sync, K: Sink, P: Finder, G: Gate, H: Places>(
    rt: &R,
    alloc: Global,
    count: u32,
    workers: u32,
    out: &mut K,
    finders: &mut Vec<P>,
    gate: &G,
    places: &mut H,
) -> Result<(), Stop>
    requires few { workers ≤ 8 }
    requires nine { length finders.old.items ≡ 9 }
    ensures shown { OnOk result (Showed (IsDemo count workers)
        (K.taken out.old) (K.taken out.new)) }
    ensures stopped { IfErr result (TextStops (IsDemo count workers)
        (K.taken out.old) (K.taken out.new) (Rose (K.faults out.old) (K.faults out.new))) }
    ensures counted { K.faults out.old ≤ K.faults out.new }
    ensures places_counted { H.faults places.old ≤ H.faults places.new }
    ensures used { AllZip IsUsed (map P.refusals finders.old.items)
        (map P.refusals finders.new.items) }
    ensures alone { workers ≡ 0 → drop 1 finders.new.items ≡ drop 1 finders.old.items }
{
    let text = summarize(rt, alloc, count, workers, finders, gate, places)?;
    push_all(out, text.as_bytes())?;
    Ok(())
}
