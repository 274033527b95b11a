ghost use Rattle.std.specs.Prelude.{◌≡◌, ◌≤◌, [], IfErr, IfSome, OnErr, OnOk, drop, false, length, map, true};
ghost use Rattle.command_words.specs.Items.{texts};
ghost use Rattle.outside.specs.Ends.{IsEndedOnce, ends_after};
ghost use Rattle.outside.specs.Faults.{Rose};
ghost use Rattle.regex_gate.specs.Refusals.{IsUsed};
ghost use Rattle.casbin_run.specs.Ends.{Ends, has_read, may_write};
ghost use Rattle.casbin_run.specs.Finders.{AreUsed, Logs};
ghost use Rattle.loaded_work.specs.Finders.{HasRefused};
ghost use Rattle.casbin_run.specs.Given.{given};
ghost use Rattle.casbin_run.specs.Helps.TaskRuns.{ComesTo};
ghost use Rattle.casbin_run.specs.Helps.Tasks.{DidAll, IsQuiet, WorkStops, ground, is_past};
ghost use Rattle.loaded_work.specs.Helps.TaskSteps.{IsReady};
ghost use Rattle.casbin_run.specs.Jobs.{HasSize, ask_for_input, ask_for_workers, has_workers, reads_input};
ghost use Rattle.casbin_run.specs.Runs.{Runs, moment};
ghost use Rattle.casbin_run.specs.Shown.{ReadsBack};
ghost use Rattle.casbin_run.specs.Worlds.{fetched, pulled, world};
ghost use Rattle.loaded_work.specs.Sinks.{taken};

use crate::demo::{read_demo, run_demo};
use crate::input::{read_checked, read_items, read_shipped, read_text};
use crate::job::{Task, read_job, sharing};
use crate::shared::share_items;
use crate::shown_files::{check, format};
use cached_work::enforce_cached;
use live_pair::Places;
use live_rounds::Gate;
use loaded_work::{Loaded, enforce, explain, follow, implicit, report, serve, ship};
use outside::{Shelf, Sink, Source};
use regex_gate::Finder;
use run_files::load_files;
use run_status::{Status, Stop, tell_stop};
use std::alloc::Global;
use std::sync::Wait;
use std::thread::Threads;

/// Runs what the words ask for, and tells on `err` why it stopped where it did. Files come from the shelf, the model first;
/// the options are tried against it before the policy is fetched, and the input is read last, to its end.
///
/// - `enforce MODEL POLICY` answers each request of the input by a line; with a cache it tells on `err` how many were answered from it.
/// - `explain MODEL POLICY` answers each request by its line and the first near misses below it: the rules of p that lack one part
///   of the matcher alone.
/// - `session MODEL POLICY` does the items of a script one after the other, each by a line. With workers these answer its requests,
///   round by round, beside the one who does all other items; each answer shows a version that was published whole, and the lines
///   are some that `session_meaning` allows, whatever the way that the workers' steps fall.
/// - `check MODEL POLICY` prints the model, an empty line, and a line `TABLE ROWS` for p and each role relation.
/// - `format MODEL POLICY` prints the policy.
/// - `implicit MODEL POLICY NAME [DOMAIN]` tells the implied roles of a name in g, the users that have it as a role, and the rules of
///   p that count for it.
/// - `report MODEL POLICY` writes a record for each implied role of each user in g.
/// - `ship MODEL POLICY` does the calls, publishes and keeps of a script, and writes the edits that are kept then as packets.
/// - `follow MODEL POLICY` takes the packets of the input one after the other, and writes what became of each, and the policy.
/// - `demo N` does the session of the demonstration, without files or input, and writes its summary.
///
/// `check`, `format`, `implicit` and `report` read no input. `command_words` says which options there are; `lint` is no command here. With workers it may wait; the first finder is asked for what no worker answers, and worker k asks finder k + 1.
/// The gate is passed before each request that a worker answers, and told of each publish then. Exactly where a cause is said to
/// come, want of memory may come instead.
pub fn run_casbin<
    R: Threads + Wait + Sync,
    F: Shelf,
    S: Source,
    K: Sink,
    E: Sink,
    P: Finder,
    G: Gate,
    H: Places,
>(
    rt: &R,
    alloc: Global,
    words: &[String],
    shelf: &mut F,
    input: &mut S,
    out: &mut K,
    err: &mut E,
    finders: &mut Vec<P>,
    gate: &G,
    places: &mut H,
) -> Status
    requires nine { length finders.old.items ≡ 9 }

    // What the run makes of the outside, seen whole before and behind: `Runs` says it part by part.
    ensures { Runs (texts words.now)
        (moment (world (fetched (F.calls shelf.old) (F.faults shelf.old))
        (pulled (S.left input.old) (S.ends input.old) (S.faults input.old))
        (taken (K.taken out.old) (K.faults out.old)) (map P.refusals finders.old.items))
        (F.files shelf.old) (taken (E.taken err.old) (E.faults err.old))
        finders.old.items (H.faults places.old))
        (moment (world (fetched (F.calls shelf.new) (F.faults shelf.new))
        (pulled (S.left input.new) (S.ends input.new) (S.faults input.new))
        (taken (K.taken out.new) (K.faults out.new)) (map P.refusals finders.new.items))
        (F.files shelf.new) (taken (E.taken err.new) (E.faults err.new))
        finders.new.items (H.faults places.new)) result }
{
    let Ok(demo) = read_demo(alloc, words) else {
        return tell_stop(err, Stop::NoMemory);
    };
    let Some((count, workers)) = demo else {
        return run_files(
            rt, alloc, words, shelf, input, out, err, finders, gate, places,
        );
    };
    run_demo(rt, alloc, count, workers, out, err, finders, gate, places)
}

// The same for words that ask for no demonstration.
fn run_files<
    R: Threads + Wait + Sync,
    F: Shelf,
    S: Source,
    K: Sink,
    E: Sink,
    P: Finder,
    G: Gate,
    H: Places,
>(
    rt: &R,
    alloc: Global,
    words: &[String],
    shelf: &mut F,
    input: &mut S,
    out: &mut K,
    err: &mut E,
    finders: &mut Vec<P>,
    gate: &G,
    places: &mut H,
) -> Status
    requires nine { length finders.old.items ≡ 9 }
    ensures ends { Ends (given (texts words.now) (F.files shelf.old) (S.left input.old))
        (world (fetched (F.calls shelf.old) (F.faults shelf.old))
        (pulled (S.left input.old) (S.ends input.old) (S.faults input.old))
        (taken (K.taken out.old) (K.faults out.old)) (map P.refusals finders.old.items))
        (world (fetched (F.calls shelf.new) (F.faults shelf.new))
        (pulled (S.left input.new) (S.ends input.new) (S.faults input.new))
        (taken (K.taken out.new) (K.faults out.new)) (map P.refusals finders.new.items))
        (taken (E.taken err.old) (E.faults err.old))
        (taken (E.taken err.new) (E.faults err.new)) result }
    ensures quiet { may_write result ≡ false → K.taken out.new ≡ K.taken out.old }
    ensures read_to_end { has_read result ≡ true → ask_for_input (texts words.now) ≡ true
        → IfSome (S.left input.new) (λ rest. rest ≡ []) }
    ensures ended { has_read result ≡ true → ask_for_input (texts words.now) ≡ true
        → S.ends input.new ≡ ends_after (S.ends input.old) true }
    ensures no_further { IsEndedOnce (S.ends input.old) (S.ends input.new) }
    ensures unread { ask_for_input (texts words.now) ≡ false
        → pulled (S.left input.new) (S.ends input.new) (S.faults input.new)
        ≡ pulled (S.left input.old) (S.ends input.old) (S.faults input.old) }
    ensures same_files { F.files shelf.new ≡ F.files shelf.old }
    ensures shelf_counted { F.faults shelf.old ≤ F.faults shelf.new }
    ensures input_counted { S.faults input.old ≤ S.faults input.new }
    ensures out_counted { K.faults out.old ≤ K.faults out.new }
    ensures err_counted { E.faults err.old ≤ E.faults err.new }
    ensures places_counted { H.faults places.old ≤ H.faults places.new }
    ensures finders { AreUsed (ask_for_workers (texts words.now))
        (map P.refusals finders.old.items) (map P.refusals finders.new.items) }
    ensures others { ask_for_workers (texts words.now) ≡ false
        → drop 1 finders.new.items ≡ drop 1 finders.old.items }
    ensures idle { may_write result ≡ false → finders.new.items ≡ finders.old.items }
{
    match answer(
        rt, alloc, words, shelf, input, out, err, finders, gate, places,
    ) {
        Ok(()) => Status::Done,
        Err(stop) => tell_stop(err, stop),
    }
}

// Does what the words ask for, or stops at the first cause.
fn answer<
    R: Threads + Wait + Sync,
    F: Shelf,
    S: Source,
    K: Sink,
    E: Sink,
    P: Finder,
    G: Gate,
    H: Places,
>(
    rt: &R,
    alloc: Global,
    words: &[String],
    shelf: &mut F,
    input: &mut S,
    out: &mut K,
    err: &mut E,
    finders: &mut Vec<P>,
    gate: &G,
    places: &mut H,
) -> Result<(), Stop>
    requires { length finders.old.items ≡ 9 }
    ensures comes { ComesTo (given (texts words.now) (F.files shelf.old) (S.left input.old))
        (world (fetched (F.calls shelf.old) (F.faults shelf.old))
        (pulled (S.left input.old) (S.ends input.old) (S.faults input.old))
        (taken (K.taken out.old) (K.faults out.old)) (map P.refusals finders.old.items))
        (world (fetched (F.calls shelf.new) (F.faults shelf.new))
        (pulled (S.left input.new) (S.ends input.new) (S.faults input.new))
        (taken (K.taken out.new) (K.faults out.new)) (map P.refusals finders.new.items))
        (taken (E.taken err.old) (E.faults err.old)) (taken (E.taken err.new) (E.faults err.new))
        result }
    ensures same_files { F.files shelf.new ≡ F.files shelf.old }
    ensures others { ask_for_workers (texts words.now) ≡ false
        → drop 1 finders.new.items ≡ drop 1 finders.old.items }
    ensures places_counted { H.faults places.old ≤ H.faults places.new }
    ensures idle { IfErr result (λ stop. IsQuiet stop
        → finders.new.items ≡ finders.old.items) }
{
    let Some(job) = read_job(alloc, words)? else {
        return Err(Stop::Words);
    };
    let loaded = load_files(alloc, shelf, &job.files, &job.options)?;
    do_any(
        rt, alloc, job.task, loaded, input, out, err, finders, gate, places,
    )
}

// Does a task over a model and a policy, with the first finder, or with one for each worker.
fn do_any<R: Threads + Wait + Sync, S: Source, K: Sink, E: Sink, P: Finder, G: Gate, H: Places>(
    rt: &R,
    alloc: Global,
    task: Task<'_>,
    loaded: Loaded,
    input: &mut S,
    out: &mut K,
    err: &mut E,
    finders: &mut Vec<P>,
    gate: &G,
    places: &mut H,
) -> Result<(), Stop>
    requires ready { IsReady loaded }
    requires sized { HasSize task }
    requires nine { length finders.old.items ≡ 9 }
    ensures done { OnOk result (DidAll (ground task.entry loaded (S.left input.old))
        (Logs (has_workers task.entry)
        (map P.refusals finders.old.items) (map P.refusals finders.new.items))
        (K.taken out.old) (K.taken out.new)
        (taken (E.taken err.old) (E.faults err.old)) (taken (E.taken err.new) (E.faults err.new))) }
    ensures silent { OnErr result (taken (E.taken err.new) (E.faults err.new)
        ≡ taken (E.taken err.old) (E.faults err.old)) }
    ensures err_counted { E.faults err.old ≤ E.faults err.new }
    ensures reads_back { OnOk result
        (ReadsBack task.entry loaded.model loaded.shapes loaded.tables.policy) }
    ensures stopped { IfErr result (WorkStops (ground task.entry loaded (S.left input.old))
        (Logs (has_workers task.entry)
        (map P.refusals finders.old.items) (map P.refusals finders.new.items))
        (K.taken out.old) (K.taken out.new)
        (Rose (S.faults input.old) (S.faults input.new))
        (Rose (K.faults out.old) (K.faults out.new))) }
    ensures quiet { IfErr result (λ stop. IsQuiet stop → K.taken out.new ≡ K.taken out.old) }
    ensures read_to_end { is_past result ≡ true → reads_input task.entry ≡ true
        → IfSome (S.left input.new) (λ rest. rest ≡ []) }
    ensures ended { is_past result ≡ true → reads_input task.entry ≡ true
        → S.ends input.new ≡ ends_after (S.ends input.old) true }
    ensures no_further { IsEndedOnce (S.ends input.old) (S.ends input.new) }
    ensures unread { reads_input task.entry ≡ false
        → pulled (S.left input.new) (S.ends input.new) (S.faults input.new)
        ≡ pulled (S.left input.old) (S.ends input.old) (S.faults input.old) }
    ensures input_counted { S.faults input.old ≤ S.faults input.new }
    ensures out_counted { K.faults out.old ≤ K.faults out.new }
    ensures places_counted { H.faults places.old ≤ H.faults places.new }
    ensures used { AreUsed (has_workers task.entry)
        (map P.refusals finders.old.items) (map P.refusals finders.new.items) }
    ensures others { has_workers task.entry ≡ false
        → drop 1 finders.new.items ≡ drop 1 finders.old.items }
    ensures idle { IfErr result (λ stop. IsQuiet stop
        → finders.new.items ≡ finders.old.items) }
{
    let Some((json, workers)) = sharing(&task) else {
        return do_task(alloc, task, loaded, input, out, err, &mut finders[0]);
    };
    share_items(
        rt, alloc, loaded, json, workers, input, out, finders, gate, places,
    )
}

// Does a task over a model and a policy, but for one with workers.
fn do_task<S: Source, K: Sink, E: Sink, P: Finder>(
    alloc: Global,
    task: Task<'_>,
    loaded: Loaded,
    input: &mut S,
    out: &mut K,
    err: &mut E,
    finder: &mut P,
) -> Result<(), Stop>
    requires ready { IsReady loaded }
    requires sized { HasSize task }
    requires alone { has_workers task ≡ false }
    ensures done { OnOk result (DidAll (ground task.entry loaded (S.left input.old))
        (HasRefused (P.refusals finder.old) (P.refusals finder.new))
        (K.taken out.old) (K.taken out.new)
        (taken (E.taken err.old) (E.faults err.old)) (taken (E.taken err.new) (E.faults err.new))) }
    ensures silent { OnErr result (taken (E.taken err.new) (E.faults err.new)
        ≡ taken (E.taken err.old) (E.faults err.old)) }
    ensures err_counted { E.faults err.old ≤ E.faults err.new }
    ensures reads_back { OnOk result
        (ReadsBack task.entry loaded.model loaded.shapes loaded.tables.policy) }
    ensures stopped { IfErr result (WorkStops (ground task.entry loaded (S.left input.old))
        (HasRefused (P.refusals finder.old) (P.refusals finder.new))
        (K.taken out.old) (K.taken out.new)
        (Rose (S.faults input.old) (S.faults input.new))
        (Rose (K.faults out.old) (K.faults out.new))) }
    ensures quiet { IfErr result (λ stop. IsQuiet stop → K.taken out.new ≡ K.taken out.old) }
    ensures read_to_end { is_past result ≡ true → reads_input task.entry ≡ true
        → IfSome (S.left input.new) (λ rest. rest ≡ []) }
    ensures ended { is_past result ≡ true → reads_input task.entry ≡ true
        → S.ends input.new ≡ ends_after (S.ends input.old) true }
    ensures no_further { IsEndedOnce (S.ends input.old) (S.ends input.new) }
    ensures unread { reads_input task.entry ≡ false
        → pulled (S.left input.new) (S.ends input.new) (S.faults input.new)
        ≡ pulled (S.left input.old) (S.ends input.old) (S.faults input.old) }
    ensures input_counted { S.faults input.old ≤ S.faults input.new }
    ensures out_counted { K.faults out.old ≤ K.faults out.new }
    ensures used { IsUsed (P.refusals finder.old) (P.refusals finder.new) }
    ensures idle { IfErr result (λ stop. IsQuiet stop → finder.new ≡ finder.old) }
{
    match task {
        Task::Enforce { json } => {
            let text = read_text(alloc, input, json)?;
            enforce(alloc, loaded, json, text.as_str(), out, finder)
        }
        Task::Cached { json, capacity } => {
            let text = read_text(alloc, input, json)?;
            enforce_cached(
                alloc,
                loaded,
                json,
                capacity,
                text.as_str(),
                out,
                err,
                finder,
            )
        }
        Task::Explain { json, most } => {
            let text = read_text(alloc, input, json)?;
            explain(alloc, loaded, json, most, text.as_str(), out, finder)
        }
        Task::Serve { json } => {
            let script = read_checked(alloc, input, json)?;
            serve(alloc, loaded, json, script.as_str(), out, finder)
        }
        Task::Share { .. } => unreachable!(),
        Task::Check => check(alloc, &loaded, out),
        Task::Format => format(alloc, &loaded, out),
        Task::Implicit { subject } => implicit(alloc, loaded, &subject, out),
        Task::Report => report(alloc, loaded, out),
        Task::Ship => {
            let script = read_items(alloc, input, false)?;
            ship(alloc, loaded, &script, out, finder)
        }
        Task::Follow => {
            let packets = read_shipped(alloc, input)?;
            follow(alloc, loaded, &packets, out)
        }
    }
}
