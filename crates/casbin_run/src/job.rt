ghost use Rattle.std.specs.Prelude.{◌≡◌, ◌<◌, ◌≤◌, IfOk, IfSome, MatchOption, false};
ghost use Rattle.command_words.specs.Items.{texts};
ghost use Rattle.casbin_run.specs.Helps.TaskRuns.{job_on};
ghost use Rattle.casbin_run.specs.Jobs.{HasSize, enforcing, has_workers, job_asked, job_of, limit_in, serving};
ghost use Rattle.casbin_run.specs.declared.job.Task.TheVariants.{Share};

use command_words::{Command, Files, Options, Subject, read_words};
use outside::NoMemory;
use std::alloc::Global;

/// What is done with the model, the policy and the input.
#[derive(Drop)]
pub(crate) enum Task<'a> {
    /// The requests of the input are answered; with `json` they are JSON.
    Enforce { json: bool },
    /// The requests of the input are answered by way of a cache of so many answers.
    Cached { json: bool, capacity: u32 },
    /// The requests of the input are answered, each with so many of its near misses at most.
    Explain { json: bool, most: u32 },
    /// The items of a script are done one after the other.
    Serve { json: bool },
    /// The requests of a script are answered by so many workers, beside the one who does all other items.
    Share { json: bool, workers: u32 },
    /// The model is printed, and the rules of its tables are counted.
    Check,
    /// The policy is printed.
    Format,
    /// The implied roles, users and permissions of a name are told.
    Implicit { subject: Subject<'a> },
    /// The implied roles of all names are reported.
    Report,
    /// The edits that a script publishes are told as packets.
    Ship,
    /// Packets are taken.
    Follow,
}

/// What a command is done on: its files, what it says of roles, where it may, and its task.
#[derive(Drop)]
pub(crate) struct Job<'a> {
    pub files: Files<'a>,
    pub options: Option<Options>,
    pub task: Task<'a>,
}

/// What the words ask for, where they are a command that is done.
pub(crate) fn read_job(alloc: Global, words: &[String]) -> Result<Option<Job<'_>>, NoMemory>
    ensures asked { IfOk result (λ found. found ≡ job_asked (texts words.now)) }
    ensures sized { IfOk result (λ found. IfSome found (λ job. HasSize job.task)) }
    ensures limit { IfOk result (λ found. IfSome found (λ job.
        (0 < limit_in job.options) × (limit_in job.options ≤ 250))) }
{
    let Some(command) = read_words(alloc, words)? else {
        return Ok(None);
    };
    Ok(job_of(command))
}

// What a command is done on.
fn job_of(command: Command<'_>) -> Option<Job<'_>>
    ensures { result ≡ job_of command.entry }
{
    match command {
        Command::Enforce {
            files,
            options,
            json,
            cache,
        } => Some(job_on(files, Some(options), enforcing(json, cache))),
        Command::Explain {
            files,
            options,
            json,
            most,
        } => Some(job_on(files, Some(options), Task::Explain { json, most })),
        Command::Session {
            files,
            options,
            json,
            workers,
        } => Some(job_on(files, Some(options), serving(json, u32::from(workers)))),
        Command::Check(files) => Some(job_on(files, None, Task::Check)),
        Command::Format(files) => Some(job_on(files, None, Task::Format)),
        Command::Implicit {
            files,
            subject,
            options,
        } => Some(job_on(files, Some(options), Task::Implicit { subject })),
        Command::Report { files, options } => Some(job_on(files, Some(options), Task::Report)),
        Command::Ship { files, options } => Some(job_on(files, Some(options), Task::Ship)),
        Command::Follow { files, options } => Some(job_on(files, Some(options), Task::Follow)),
        Command::Lint { .. } | Command::Demo { .. } => None,
    }
}

// How requests are answered.
fn enforcing<'a>(json: bool, cache: Option<u32>) -> Task<'a>
    ensures { result ≡ enforcing json cache }
{
    match cache {
        None => Task::Enforce { json },
        Some(capacity) => Task::Cached { json, capacity },
    }
}

// How a script is done.
fn serving<'a>(json: bool, workers: u32) -> Task<'a>
    ensures { result ≡ serving json workers }
{
    if workers == 0 {
        Task::Serve { json }
    } else {
        Task::Share { json, workers }
    }
}

/// Whether the requests of a script are JSON, and how many workers answer them, where that is the task.
pub(crate) fn sharing(task: &Task<'_>) -> Option<(bool, u32)>
    ensures { MatchOption result (has_workers task.now ≡ false)
        (λ told. task.now ≡ Share told.0 told.1) }
{
    match task {
        Task::Share { json, workers } => Some((*json, *workers)),
        Task::Enforce { .. }
        | Task::Cached { .. }
        | Task::Explain { .. }
        | Task::Serve { .. }
        | Task::Check
        | Task::Format
        | Task::Implicit { .. }
        | Task::Report
        | Task::Ship
        | Task::Follow => None,
    }
}

// A task on these files.
fn job_on<'a>(files: Files<'a>, options: Option<Options>, task: Task<'a>) -> Job<'a>
    ensures { result ≡ job_on files.entry options task.entry }
{
    Job {
        files,
        options,
        task,
    }
}
