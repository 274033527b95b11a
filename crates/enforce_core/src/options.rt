ghost use Rattle.std.specs.Prelude.{◌≡◌, ◌<◌, ◌≤◌, ◌++◌, ◌∷◌, [], IfErr, IfOk, IfSome, OnOk};
ghost use Rattle.command_words.specs.Items.{texts};
ghost use Rattle.enforce_core.specs.Helps.Words.{OptionStops, all_texts};
ghost use Rattle.enforce_core.specs.Opened.{SaysOptions, option_words, options_asked};
ghost use Rattle.enforce_core.specs.Opened.{report_options, words_before};

use command_words::{Command, Options, read_words};
use outside::NoMemory;
use run_status::Stop;
use std::alloc::Global;
use text_parts::next_text_line;

/// What options say of roles: one a line, as the program takes them (`--limit=L`, `--match=LIST`, `--domain-match=LIST`).
pub(crate) fn read_options(alloc: Global, text: &[u8]) -> Result<Options, Stop>
    ensures said { IfOk result (SaysOptions text.now) }
    ensures limit { IfOk result (λ options. (0 < options.limit) × (options.limit ≤ 250)) }
    ensures stopped { IfErr result (OptionStops text.now) }
{
    let Ok(content) = str::from_utf8(text) else {
        return Err(Stop::Words);
    };
    let words = words_of(alloc, content)?;
    let found = report_of(alloc, &words)?;
    let Some(options) = found else {
        return Err(Stop::Words);
    };
    Ok(options)
}

// The words of a report with these options.
fn words_of(alloc: Global, text: &str) -> Result<Vec<String>, NoMemory>
    ensures { IfOk result (λ words. all_texts words ≡ option_words text.now) }
{
    let mut words = first_words(alloc)?;
    let mut rest = text;
    while let Some((line, after)) = next_text_line(rest) {
        push_word(alloc, &mut words, line)?;
        rest = after;
    }
    Ok(words)
}

// The words before the options.
fn first_words(alloc: Global) -> Result<Vec<String>, NoMemory>
    ensures { IfOk result (λ words. all_texts words ≡ words_before) }
{
    let mut words = Vec::new(alloc);
    push_word(alloc, &mut words, "report")?;
    push_word(alloc, &mut words, "model")?;
    push_word(alloc, &mut words, "policy")?;
    Ok(words)
}

// Puts a word behind the others.
fn push_word(alloc: Global, words: &mut Vec<String>, word: &str) -> Result<(), NoMemory>
    ensures { OnOk result (all_texts words.new ≡ all_texts words.old ++ word.now ∷ []) }
{
    let copy = String::from_str(alloc, word)?;
    words.push(copy)?;
    Ok(())
}

// The options of words that ask for a report.
fn report_of(alloc: Global, words: &[String]) -> Result<Option<Options>, NoMemory>
    ensures asked { IfOk result (λ found. found ≡ options_asked (texts words.now)) }
    ensures limit { IfOk result (λ found. IfSome found (λ options.
        (0 < options.limit) × (options.limit ≤ 250))) }
{
    let Some(command) = read_words(alloc, words)? else {
        return Ok(None);
    };
    Ok(options_of(command))
}

// The options of a report.
fn options_of(command: Command<'_>) -> Option<Options>
    ensures { result ≡ report_options command.entry }
{
    match command {
        Command::Report {
            files: _files,
            options,
        } => Some(options),
        Command::Enforce { .. }
        | Command::Explain { .. }
        | Command::Session { .. }
        | Command::Check(_)
        | Command::Format(_)
        | Command::Implicit { .. }
        | Command::Ship { .. }
        | Command::Follow { .. }
        | Command::Lint { .. }
        | Command::Demo { .. } => None,
    }
}
