ghost use Rattle.std.specs.Prelude.{◌≡◌, ◌∷◌, ◌++◌, ◌<◌, ◌≤◌, [], IfOk, IfSome, OnOk, bytes_eq, codes, nat_eq, option_map};
ghost use Rattle.command_words.specs.Commands.{command_of};
ghost use Rattle.command_words.specs.Items.{is_dashes, texts};
ghost use Rattle.std.specs.List.{starts_with};
ghost use Rattle.std.specs.Option.{option_and_then};
ghost use Rattle.run_files.specs.Files.{limit_in};
ghost use Rattle.serve_run.specs.Words.{begins_follow, behind_follow, has_workers, is_to_follow, is_to_serve, is_workers, job_of, session_of};
ghost use Rattle.serve_run.specs.Helps.WordTexts.{all_texts};

use command_words::{Command, Files, Options, read_words};
use outside::NoMemory;
use std::alloc::Global;

/// What is done: the files, what is said of roles, whether requests are JSON, and whether the stream is a follower's.
#[derive(Drop)]
pub(crate) struct Job<'a> {
    pub files: Files<'a>,
    pub options: Option<Options>,
    pub json: bool,
    pub follow: bool,
}

/// Whether the words ask for a stream that is served, in order or not: the first is `serve`.
pub fn asks_to_serve(words: &[String]) -> bool
    ensures { result ≡ is_to_serve (texts words.now) }
{
    let Some((name, _others)) = words.split_first() else {
        return false;
    };
    is_serve(name.as_str())
}

// The name of the command.
fn is_serve(name: &str) -> bool
    ensures { result ≡ bytes_eq name.now (codes "serve") }
{
    name == "serve"
}

/// The words of a session that is done on the same files, where the words are `serve` and tell no number of workers.
pub(crate) fn session_words(
    alloc: Global,
    words: &[String],
) -> Result<Option<Vec<String>>, NoMemory>
    ensures { IfOk result (λ session.
        option_map all_texts session ≡ session_of (texts words.now)) }
{
    let Some((name, behind)) = words.split_first() else {
        return Ok(None);
    };
    if !is_serve(name.as_str()) {
        return Ok(None);
    }
    let others = behind_follow(behind);
    if has_workers(others) {
        return Ok(None);
    }
    let session = words_behind(alloc, "session", others)?;
    Ok(Some(session))
}

/// Whether the stream is a follower's.
pub(crate) fn asks_to_follow(words: &[String]) -> bool
    ensures { result ≡ is_to_follow (texts words.now) }
{
    let Some((_name, others)) = words.split_first() else {
        return false;
    };
    begins_follow(others)
}

// Whether the first word is `--follow`.
fn begins_follow(words: &[String]) -> bool
    ensures { result ≡ begins_follow (texts words.now) }
{
    let Some((word, _others)) = words.split_first() else {
        return false;
    };
    is_follow(word.as_str())
}

// The words behind `--follow`, or all.
fn behind_follow(words: &[String]) -> &[String]
    ensures { texts result.now ≡ behind_follow (texts words.now) }
{
    let Some((word, others)) = words.split_first() else {
        return words;
    };
    if is_follow(word.as_str()) {
        return others;
    }
    words
}

fn is_follow(word: &str) -> bool
    ensures { result ≡ bytes_eq word.now (codes "--follow") }
{
    word == "--follow"
}

// A word, and others behind it.
fn words_behind(alloc: Global, first: &str, others: &[String]) -> Result<Vec<String>, NoMemory>
    ensures { IfOk result (λ words. all_texts words ≡ first.now ∷ texts others.now) }
{
    let mut words = one_word(alloc, first)?;
    for word in others {
        push_word(alloc, &mut words, word.as_str())?;
    }
    Ok(words)
}

fn one_word(alloc: Global, word: &str) -> Result<Vec<String>, NoMemory>
    ensures { IfOk result (λ words. all_texts words ≡ word.now ∷ []) }
{
    let mut words = Vec::new(alloc);
    push_word(alloc, &mut words, word)?;
    Ok(words)
}

fn push_word(alloc: Global, words: &mut Vec<String>, word: &str) -> Result<(), NoMemory>
    ensures { OnOk result (all_texts words.new ≡ all_texts words.old ++ word.now ∷ []) }
{
    let copy = String::from_str(alloc, word)?;
    words.push(copy)?;
    Ok(())
}

// Whether a number of workers is told before the first `--`.
fn has_workers(words: &[String]) -> bool
    ensures { result ≡ has_workers (texts words.now) }
{
    for word in words {
        if is_dashes(word.as_str()) {
            return false;
        }
        if is_workers(word.as_str()) {
            return true;
        }
    }
    false
}

// Whether all words behind this one are operands.
fn is_dashes(word: &str) -> bool
    ensures { result ≡ is_dashes word.now }
{
    word == "--"
}

// Whether the word tells a number of workers, or says that the next one does.
fn is_workers(word: &str) -> bool
    ensures { result ≡ is_workers word.now }
{
    word == "--workers" || tells_workers(word.as_bytes())
}

fn tells_workers(word: &[u8]) -> bool
    ensures { result ≡ starts_with nat_eq word.now (codes "--workers=") }
{
    word.starts_with(b"--workers=")
}

/// What the words of a session ask for.
pub(crate) fn read_job(
    alloc: Global,
    session: &[String],
    follow: bool,
) -> Result<Option<Job<'_>>, NoMemory>
    ensures asked { IfOk result (λ found.
        found ≡ option_and_then (job_of follow) (command_of (texts session.now))) }
    ensures limit { IfOk result (λ found. IfSome found (λ job.
        (0 < limit_in job.options) × (limit_in job.options ≤ 250))) }
{
    let Some(command) = read_words(alloc, session)? else {
        return Ok(None);
    };
    Ok(job_of(command, follow))
}

// What a session is done on.
fn job_of(command: Command<'_>, follow: bool) -> Option<Job<'_>>
    ensures { result ≡ job_of follow command.entry }
{
    match command {
        Command::Session {
            files,
            options,
            json,
            ..
        } => Some(Job {
            files,
            options: Some(options),
            json,
            follow,
        }),
        Command::Enforce { .. }
        | Command::Explain { .. }
        | Command::Check(_)
        | Command::Format(_)
        | Command::Implicit { .. }
        | Command::Report { .. }
        | Command::Ship { .. }
        | Command::Follow { .. }
        | Command::Lint { .. }
        | Command::Demo { .. } => None,
    }
}
