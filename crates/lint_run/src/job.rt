ghost use Rattle.std.specs.Prelude.{◌≡◌, ◌<◌, ◌≤◌, IfOk, IfSome, bytes_eq, codes};
ghost use Rattle.command_words.specs.Items.{texts};
ghost use Rattle.lint_run.specs.Lints.{is_to_lint, lint_asked, lint_of};

use command_words::{Command, Files, Options, read_words};
use outside::NoMemory;
use std::alloc::Global;

/// What a lint is done on: its files, and what is said of roles.
#[derive(Drop)]
pub(crate) struct LintJob<'a> {
    pub files: Files<'a>,
    pub options: Options,
}

/// Whether the words ask for a lint, in order or not: the first is `lint`.
pub fn asks_for_lint(words: &[String]) -> bool
    ensures { result ≡ is_to_lint (texts words.now) }
{
    let Some((name, _others)) = words.split_first() else {
        return false;
    };
    is_lint(name.as_str())
}

// The name of the command.
fn is_lint(name: &str) -> bool
    ensures { result ≡ bytes_eq name.now (codes "lint") }
{
    name == "lint"
}

/// What the words ask for, where they ask for a lint.
pub(crate) fn read_lint(alloc: Global, words: &[String]) -> Result<Option<LintJob<'_>>, NoMemory>
    ensures asked { IfOk result (λ found. found ≡ lint_asked (texts words.now)) }
    ensures limit { IfOk result (λ found. IfSome found (λ job.
        (0 < job.options.limit) × (job.options.limit ≤ 250))) }
{
    let Some(command) = read_words(alloc, words)? else {
        return Ok(None);
    };
    Ok(lint_of(command))
}

// What a lint is done on.
fn lint_of(command: Command<'_>) -> Option<LintJob<'_>>
    ensures { result ≡ lint_of command.entry }
{
    match command {
        Command::Lint { files, options } => Some(LintJob { files, options }),
        Command::Enforce { .. } | Command::Explain { .. } | Command::Session { .. } => None,
        Command::Check(_) | Command::Format(_) | Command::Implicit { .. } => None,
        Command::Report { .. } | Command::Ship { .. } | Command::Follow { .. } => None,
        Command::Demo { .. } => None,
    }
}
