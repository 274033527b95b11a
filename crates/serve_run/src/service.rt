ghost use Rattle.std.specs.Prelude.{◌≡◌, ◌≤◌, ◌<◌, [], IfErr, IfOk, IfSome, None, OnOk};
ghost use Rattle.command_words.specs.Items.{texts};
ghost use Rattle.decision.specs.Programs.{Suits};
ghost use Rattle.live_serve.specs.Standings.{standing};
ghost use Rattle.outside.specs.Ends.{IsEndedOnce};
ghost use Rattle.regex_gate.specs.Refusals.{IsUsed};
ghost use Rattle.run_files.specs.Files.{limit_in};
ghost use Rattle.run_status.specs.declared.status.Status.TheVariants as status;
ghost use Rattle.version_log.specs.Log.{versions};
ghost use Rattle.serve_run.specs.Moments.{moment};
ghost use Rattle.serve_run.specs.Services.{EndsServing, HasServed, StopsServing};
ghost use Rattle.serve_run.specs.Helps.ServedStreams.{IsReady, ServedJob, ServedOpened, StopsJob, StopsOpened};

use crate::notice::tell_serving;
use crate::opened::{OpenedFiles, open_files};
use crate::words::{Job, asks_to_follow, read_job, session_words};
use decision::Program;
use live_serve::{Clerk, serve_stream};
use log_ship::Follower;
use outside::{NoMemory, Shelf, Sink, Source};
use policy_desk::open_desk;
use policy_state::PolicyState;
use regex_gate::Finder;
use run_status::{Status, Stop, tell_stop};
use std::alloc::Global;

/// Serves a stream, where the words ask for it, and tells on `err` why it stopped where it did. The files come from the shelf, each
/// once; then `err` takes the line that tells what is served, and then the input is read.
///
/// `serve [--follow] MODEL POLICY [--limit L] [--match LIST] [--domain-match LIST] [--json]` answers each item of the input as soon as its last
/// line is read, before it reads on: as a session does, and what is no item by why it is none. With `--follow` it takes packets in place of
/// calls. Nothing that comes in ends it but the
/// end of the input, behind which it is done. It holds no more of the input than the item that is not ended. Exactly where another
/// cause is said to come, want of memory may come instead.
pub fn serve_casbin<F: Shelf, S: Source, K: Sink, E: Sink, P: Finder>(
    alloc: Global,
    words: &[String],
    shelf: &mut F,
    input: &mut S,
    out: &mut K,
    err: &mut E,
    finder: &mut P,
) -> Status
    // How the run ends, by its status: with Done `out` took the texts that answer all that was read, to its end; where the input
    // fails, exactly those of the items whose last lines were read; and else those of the first so many, or a front of these.
    ensures ends { EndsServing (texts words.now) (F.files shelf.old)
        (moment (F.calls shelf.old) (F.faults shelf.old) (S.left input.old) (S.faults input.old)
        (K.taken out.old) (K.faults out.old) (E.taken err.old) (E.faults err.old)
        (P.refusals finder.old))
        (moment (F.calls shelf.new) (F.faults shelf.new) (S.left input.new) (S.faults input.new)
        (K.taken out.new) (K.faults out.new) (E.taken err.new) (E.faults err.new)
        (P.refusals finder.new)) result }

    // The input is read to its end, and no further.
    ensures read_to_end { result ≡ status.Done → IfSome (S.left input.new) (λ rest. rest ≡ []) }
    ensures no_further { IsEndedOnce (S.ends input.old) (S.ends input.new) }

    // What stays: the files, and each count at least.
    ensures same_files { F.files shelf.new ≡ F.files shelf.old }
    ensures shelf_counted { F.faults shelf.old ≤ F.faults shelf.new }
    ensures input_counted { S.faults input.old ≤ S.faults input.new }
    ensures out_counted { K.faults out.old ≤ K.faults out.new }
    ensures used { IsUsed (P.refusals finder.old) (P.refusals finder.new) }
{
    match serve_words(alloc, words, shelf, input, out, err, finder) {
        Ok(()) => Status::Done,
        Err(stop) => tell_stop(err, stop),
    }
}

// Serves a stream where the words ask for it, or stops at the first cause.
fn serve_words<F: Shelf, S: Source, K: Sink, E: Sink, P: Finder>(
    alloc: Global,
    words: &[String],
    shelf: &mut F,
    input: &mut S,
    out: &mut K,
    err: &mut E,
    finder: &mut P,
) -> Result<(), Stop>
    ensures done { OnOk result (HasServed (texts words.now) (F.files shelf.old)
        (moment (F.calls shelf.old) (F.faults shelf.old) (S.left input.old) (S.faults input.old)
        (K.taken out.old) (K.faults out.old) (E.taken err.old) (E.faults err.old)
        (P.refusals finder.old))
        (moment (F.calls shelf.new) (F.faults shelf.new) (S.left input.new) (S.faults input.new)
        (K.taken out.new) (K.faults out.new) (E.taken err.new) (E.faults err.new)
        (P.refusals finder.new))) }
    ensures stopped { IfErr result (StopsServing (texts words.now) (F.files shelf.old)
        (moment (F.calls shelf.old) (F.faults shelf.old) (S.left input.old) (S.faults input.old)
        (K.taken out.old) (K.faults out.old) (E.taken err.old) (E.faults err.old)
        (P.refusals finder.old))
        (moment (F.calls shelf.new) (F.faults shelf.new) (S.left input.new) (S.faults input.new)
        (K.taken out.new) (K.faults out.new) (E.taken err.new) (E.faults err.new)
        (P.refusals finder.new))) }
    ensures read_to_end { OnOk result (IfSome (S.left input.new) (λ rest. rest ≡ [])) }
    ensures no_further { IsEndedOnce (S.ends input.old) (S.ends input.new) }
    ensures same_files { F.files shelf.new ≡ F.files shelf.old }
    ensures shelf_counted { F.faults shelf.old ≤ F.faults shelf.new }
    ensures input_counted { S.faults input.old ≤ S.faults input.new }
    ensures out_counted { K.faults out.old ≤ K.faults out.new }
    ensures used { IsUsed (P.refusals finder.old) (P.refusals finder.new) }
{
    let session = session_words(alloc, words)?;
    let Some(session) = session else {
        return Err(Stop::Words);
    };
    let follow = asks_to_follow(words);
    let Some(job) = read_job(alloc, &session, follow)? else {
        return Err(Stop::Words);
    };
    serve_job(alloc, &job, shelf, input, out, err, finder)
}

// Serves a stream over the files of a job.
fn serve_job<F: Shelf, S: Source, K: Sink, E: Sink, P: Finder>(
    alloc: Global,
    job: &Job<'_>,
    shelf: &mut F,
    input: &mut S,
    out: &mut K,
    err: &mut E,
    finder: &mut P,
) -> Result<(), Stop>
    requires { (0 < limit_in job.now.options) × (limit_in job.now.options ≤ 250) }
    ensures served { OnOk result (ServedJob (F.files shelf.old) job.now
        (moment (F.calls shelf.old) (F.faults shelf.old) (S.left input.old) (S.faults input.old)
        (K.taken out.old) (K.faults out.old) (E.taken err.old) (E.faults err.old)
        (P.refusals finder.old))
        (moment (F.calls shelf.new) (F.faults shelf.new) (S.left input.new) (S.faults input.new)
        (K.taken out.new) (K.faults out.new) (E.taken err.new) (E.faults err.new)
        (P.refusals finder.new))) }
    ensures stopped { IfErr result (StopsJob (F.files shelf.old) job.now
        (moment (F.calls shelf.old) (F.faults shelf.old) (S.left input.old) (S.faults input.old)
        (K.taken out.old) (K.faults out.old) (E.taken err.old) (E.faults err.old)
        (P.refusals finder.old))
        (moment (F.calls shelf.new) (F.faults shelf.new) (S.left input.new) (S.faults input.new)
        (K.taken out.new) (K.faults out.new) (E.taken err.new) (E.faults err.new)
        (P.refusals finder.new))) }
    ensures read_to_end { OnOk result (IfSome (S.left input.new) (λ rest. rest ≡ [])) }
    ensures no_further { IsEndedOnce (S.ends input.old) (S.ends input.new) }
    ensures same_files { F.files shelf.new ≡ F.files shelf.old }
    ensures shelf_counted { F.faults shelf.old ≤ F.faults shelf.new }
    ensures input_counted { S.faults input.old ≤ S.faults input.new }
    ensures out_counted { K.faults out.old ≤ K.faults out.new }
    ensures used { IsUsed (P.refusals finder.old) (P.refusals finder.new) }
{
    let opened = open_files(alloc, shelf, &job.files, &job.options)?;
    serve_opened(alloc, opened, job, input, out, err, finder)
}

// Serves a stream over what the files of a job were opened to.
fn serve_opened<S: Source, K: Sink, E: Sink, P: Finder>(
    alloc: Global,
    opened: OpenedFiles,
    job: &Job<'_>,
    input: &mut S,
    out: &mut K,
    err: &mut E,
    finder: &mut P,
) -> Result<(), Stop>
    requires suits { Suits opened.program opened.state.shapes }
    requires opening { versions opened.state.log ≡ 0 }
    ensures served { OnOk result (ServedOpened job.now opened
        (moment None 0 (S.left input.old) (S.faults input.old)
        (K.taken out.old) (K.faults out.old) (E.taken err.old) (E.faults err.old)
        (P.refusals finder.old))
        (moment None 0 (S.left input.new) (S.faults input.new)
        (K.taken out.new) (K.faults out.new) (E.taken err.new) (E.faults err.new)
        (P.refusals finder.new))) }
    ensures stopped { IfErr result (StopsOpened job.now opened
        (moment None 0 (S.left input.old) (S.faults input.old)
        (K.taken out.old) (K.faults out.old) (E.taken err.old) (E.faults err.old)
        (P.refusals finder.old))
        (moment None 0 (S.left input.new) (S.faults input.new)
        (K.taken out.new) (K.faults out.new) (E.taken err.new) (E.faults err.new)
        (P.refusals finder.new))) }
    ensures read_to_end { OnOk result (IfSome (S.left input.new) (λ rest. rest ≡ [])) }
    ensures no_further { IsEndedOnce (S.ends input.old) (S.ends input.new) }
    ensures input_counted { S.faults input.old ≤ S.faults input.new }
    ensures out_counted { K.faults out.old ≤ K.faults out.new }
    ensures used { IsUsed (P.refusals finder.old) (P.refusals finder.new) }
{
    let mut clerk = clerk_for(alloc, opened.state, &opened.program, job.follow)?;
    tell_serving(err, &job.files, opened.rules);
    serve_stream(
        alloc,
        &mut clerk,
        &opened.program,
        job.json,
        input,
        out,
        finder,
    )
}

// Who answers over a policy of version 0: a clerk with a follower, or one at a desk.
fn clerk_for(
    alloc: Global,
    state: PolicyState,
    program: &Program,
    follow: bool,
) -> Result<Clerk, NoMemory>
    requires { versions state.log ≡ 0 }
    ensures { IfOk result (λ clerk. IsReady state follow (standing clerk)) }
{
    if follow {
        let follower = Follower::open(alloc, state);
        return Ok(Clerk::over_follower(alloc, follower, program));
    }
    let desk = open_desk(alloc, state)?;
    Ok(Clerk::over_desk(alloc, desk, program))
}
