ghost use Rattle.std.specs.Prelude.{◌≡◌, ◌<◌, ◌≤◌, [], IfErr, IfSome, List, OnOk, length, map, true};
ghost use Rattle.std.specs.List.{AllZip};
ghost use Rattle.outside.specs.Ends.{IsEndedOnce, ends_after};
ghost use Rattle.outside.specs.Faults.{Rose};
ghost use Rattle.regex_gate.specs.Refusals.{IsUsed};
ghost use Rattle.script_read.specs.Said.{Said};
ghost use Rattle.script_read.specs.Script.{IsScript};
ghost use Rattle.casbin_run.specs.Finders.{HaveRefusedAll};
ghost use Rattle.casbin_run.specs.Helps.Tasks.{DidWrite, IsQuiet, WorkStops, ground, is_past};
ghost use Rattle.casbin_run.specs.Helps.Shares.{AreAnsweredShared, stop_of, take_stop_of};
ghost use Rattle.loaded_work.specs.Helps.TaskSteps.{IsReady};
ghost use Rattle.loaded_work.specs.Sinks.{taken};
ghost use Rattle.casbin_run.specs.declared.job.Task.TheVariants.{Share};

use crate::input::read_checked;
use answer_lines::PrintedLines;
use live_pair::Places;
use live_rounds::{Gate, TakeStop, Taker, run_shared};
use loaded_work::{Loaded, open_loaded, print_lines};
use outside::{Sink, Source};
use policy_desk::open_desk;
use regex_gate::Finder;
use run_status::Stop;
use std::alloc::Global;
use std::sync::Wait;
use std::thread::Threads;

/// Reads a script, and does its items with workers.
pub(crate) fn share_items<
    R: Threads + Wait + Sync,
    S: Source,
    K: Sink,
    P: Finder,
    G: Gate,
    H: Places,
>(
    rt: &R,
    alloc: Global,
    loaded: Loaded,
    json: bool,
    workers: u32,
    input: &mut S,
    out: &mut K,
    finders: &mut Vec<P>,
    gate: &G,
    places: &mut H,
) -> Result<(), Stop>
    requires ready { IsReady loaded }
    requires some { 0 < workers }
    requires few { workers ≤ 8 }
    requires nine { length finders.old.items ≡ 9 }
    ensures done { OnOk result (DidWrite (ground (Share json workers) loaded (S.left input.old))
        (HaveRefusedAll (map P.refusals finders.old.items) (map P.refusals finders.new.items))
        (K.taken out.old) (K.taken out.new)) }
    ensures stopped { IfErr result (WorkStops
        (ground (Share json workers) loaded (S.left input.old))
        (HaveRefusedAll (map P.refusals finders.old.items) (map P.refusals finders.new.items))
        (K.taken out.old) (K.taken out.new)
        (Rose (S.faults input.old) (S.faults input.new))
        (Rose (K.faults out.old) (K.faults out.new))) }
    ensures quiet { IfErr result (λ stop. IsQuiet stop → K.taken out.new ≡ K.taken out.old) }
    ensures read_to_end { is_past result ≡ true → IfSome (S.left input.new) (λ rest. rest ≡ []) }
    ensures ended { is_past result ≡ true → S.ends input.new ≡ ends_after (S.ends input.old) true }
    ensures no_further { IsEndedOnce (S.ends input.old) (S.ends input.new) }
    ensures input_counted { S.faults input.old ≤ S.faults input.new }
    ensures out_counted { K.faults out.old ≤ K.faults out.new }
    ensures places_counted { H.faults places.old ≤ H.faults places.new }
    ensures used { AllZip IsUsed (map P.refusals finders.old.items)
        (map P.refusals finders.new.items) }
    ensures idle { IfErr result (λ stop. IsQuiet stop
        → finders.new.items ≡ finders.old.items) }
{
    let script = read_checked(alloc, input, json)?;
    let text = script.as_str();
    share(
        rt, alloc, loaded, json, text, workers, out, finders, gate, places,
    )
}

// Does the items of a script with workers, each by a line.
fn share<R: Threads + Wait + Sync, K: Sink, P: Finder, G: Gate, H: Places>(
    rt: &R,
    alloc: Global,
    loaded: Loaded,
    json: bool,
    script: &str,
    workers: u32,
    out: &mut K,
    finders: &mut Vec<P>,
    gate: &G,
    places: &mut H,
) -> Result<(), Stop>
    requires ready { IsReady loaded }
    requires checked { (items : List Said) × IsScript json script.now items }
    requires some { 0 < workers }
    requires few { workers ≤ 8 }
    requires nine { length finders.old.items ≡ 9 }
    ensures shared { AreAnsweredShared (IsScript json script.now) workers loaded
        (map P.refusals finders.old.items) (map P.refusals finders.new.items)
        (taken (K.taken out.old) (K.faults out.old)) (taken (K.taken out.new) (K.faults out.new))
        result }
    ensures places_counted { H.faults places.old ≤ H.faults places.new }
{
    let opened = open_loaded(alloc, loaded)?;
    let desk = open_desk(alloc, opened.state)?;
    let program = &opened.program;
    let printing = Printing;
    match run_shared(
        rt, alloc, desk, program, json, script, workers, finders, gate, places, &printing, out,
    ) {
        Ok(()) => Ok(()),
        Err(stop) => Err(stop_of(stop)),
    }
}

// Prints lines.
#[derive(Clone, Copy)]
struct Printing;

impl<K: Sink> Taker<K> for Printing {
    ghost use Rattle.casbin_run.specs.Helps.Shares.{Printed, PrintedAmid};

    ghost took = { λ old lines new. Printed (K.taken old) (K.taken new) (K.faults old) (K.faults new) lines };

    ghost stopped = { λ old lines new stop. PrintedAmid (K.taken old) (K.taken new) (K.faults old) (K.faults new) lines stop };

    fn take(&self, _alloc: Global, to: &mut K, lines: &PrintedLines) -> Result<(), TakeStop> {
        match print_lines(to, lines) {
            Ok(()) => Ok(()),
            Err(stop) => Err(take_stop_of(stop)),
        }
    }
}

// A stop at lines, as their taker tells it.
fn take_stop_of(stop: Stop) -> TakeStop
    ensures { result ≡ take_stop_of stop }
{
    match stop {
        Stop::CannotWrite => TakeStop::Failed,
        _ => TakeStop::NoMemory,
    }
}

// The same as a run tells it.
fn stop_of(stop: TakeStop) -> Stop
    ensures { result ≡ stop_of stop }
{
    match stop {
        TakeStop::Failed => Stop::CannotWrite,
        TakeStop::NoMemory => Stop::NoMemory,
    }
}
