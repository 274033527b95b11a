ghost use Rattle.std.specs.Prelude.{◌≡◌, IfOk, MatchOption, None, false};
ghost use Rattle.std.specs.List.{after_first, before_first};
ghost use Rattle.clap.specs.Words.{found_of};
ghost use Rattle.command_words.specs.Commands.{command_from, command_of};
ghost use Rattle.command_words.specs.Helps.Matched.{command_told};
ghost use Rattle.command_words.specs.Items.{is_dashes, items, texts};

use crate::command::Command;
use crate::described::parsed;
use crate::kind::Kind;
use crate::operands::{count_of, files_of, first_files, subject_of};
use crate::options::{cache_in, most_in, options_in, workers_in};
use clap::ArgMatches;
use outside::NoMemory;
use std::alloc::Global;

/// What the words behind the program's name ask for, or `None` where they are no command.
///
/// The first word names the command, and `clap` reads the others. Up to the first `--` an option is `--name VALUE` or
/// `--name=VALUE`, the flag is `--json`, and an operand is `-` or a word that does not begin with `-`; behind it all words are
/// operands. They come in any order, and neither the flag nor an option stands twice. A value in a word of its own does not
/// begin with `-`.
///
/// - `enforce MODEL POLICY [--limit L] [--match LIST] [--domain-match LIST] [--cache C] [--json]`
/// - `explain MODEL POLICY [--most K] [--limit L] [--match LIST] [--domain-match LIST] [--json]`
/// - `session MODEL POLICY [--workers W] [--limit L] [--match LIST] [--domain-match LIST] [--json]`
/// - `check MODEL POLICY`
/// - `format MODEL POLICY`
/// - `implicit MODEL POLICY NAME [DOMAIN] [--limit L] [--match LIST] [--domain-match LIST]`
/// - `report MODEL POLICY [--limit L] [--match LIST] [--domain-match LIST]`
/// - `ship MODEL POLICY [--limit L] [--match LIST] [--domain-match LIST]`
/// - `follow MODEL POLICY [--limit L] [--match LIST] [--domain-match LIST]`
/// - `lint MODEL POLICY [--limit L] [--match LIST] [--domain-match LIST]`
/// - `demo N [--workers W]`
///
/// `L` is a number from 1 to 250 and `W` one from 0 to 8, each in one to three decimal digits; `C` is one from 1 to 10,000, in one
/// to five, `K` one from 1 to 1,000, in one to four, and `N` one from 1 to 100,000, in one to six. `LIST` is one `RELATION=FUNCTION` or more, joined by `,`, where the relations are `g` and `g2` to `g8`, none of
/// them twice, and the functions are Casbin's `keyMatch`, `keyMatch2`, `keyMatch3` and `globMatch`.
pub fn read_words(alloc: Global, words: &[String]) -> Result<Option<Command<'_>>, NoMemory>
    ensures { IfOk result (λ command. command ≡ command_of (texts words.now)) }
{
    let Some((kind, others)) = kind_of(words) else {
        return Ok(None);
    };
    let Some(matches) = parsed(alloc, kind, others)? else {
        return Ok(None);
    };
    let json = matches.get_flag("json");
    Ok(command_in(kind, json, &matches))
}

// The command that the first word names, and the words behind it.
fn kind_of(words: &[String]) -> Option<(Kind, &[String])>
    ensures { MatchOption result (command_of (texts words.now) ≡ None)
        (λ found. command_of (texts words.now) ≡ command_from found.0
        (items (before_first is_dashes (texts found.1.now)))
        (after_first is_dashes (texts found.1.now))) }
{
    let (name, others) = words.split_first()?;
    let kind = Kind::named(name)?;
    Some((kind, others))
}

// What the matches ask for.
fn command_in<'a>(kind: Kind, json: bool, matches: &ArgMatches<'a>) -> Option<Command<'a>>
    ensures { result ≡ command_told kind json (found_of matches.now) }
{
    match kind {
        Kind::Enforce => enforce(json, matches),
        Kind::Explain => explain(json, matches),
        Kind::Session => session(json, matches),
        Kind::Check => check(matches),
        Kind::Format => format(matches),
        Kind::Implicit => implicit(matches),
        Kind::Report => report(matches),
        Kind::Ship => ship(matches),
        Kind::Follow => follow(matches),
        Kind::Lint => lint(matches),
        Kind::Demo => demo(matches),
    }
}

fn enforce<'a>(json: bool, matches: &ArgMatches<'a>) -> Option<Command<'a>>
    ensures { result ≡ command_told Kind.Enforce json (found_of matches.now) }
{
    let files = files_of(matches)?;
    let options = options_in(matches)?;
    let cache = cache_in(matches)?;
    Some(Command::Enforce {
        files,
        options,
        json,
        cache,
    })
}

fn explain<'a>(json: bool, matches: &ArgMatches<'a>) -> Option<Command<'a>>
    ensures { result ≡ command_told Kind.Explain json (found_of matches.now) }
{
    let files = files_of(matches)?;
    let options = options_in(matches)?;
    let most = most_in(matches)?;
    Some(Command::Explain {
        files,
        options,
        json,
        most,
    })
}

fn session<'a>(json: bool, matches: &ArgMatches<'a>) -> Option<Command<'a>>
    ensures { result ≡ command_told Kind.Session json (found_of matches.now) }
{
    let files = files_of(matches)?;
    let options = options_in(matches)?;
    let workers = workers_in(matches)?;
    Some(Command::Session {
        files,
        options,
        json,
        workers,
    })
}

fn check<'a>(matches: &ArgMatches<'a>) -> Option<Command<'a>>
    ensures { result ≡ command_told Kind.Check false (found_of matches.now) }
{
    let files = files_of(matches)?;
    Some(Command::Check(files))
}

fn format<'a>(matches: &ArgMatches<'a>) -> Option<Command<'a>>
    ensures { result ≡ command_told Kind.Format false (found_of matches.now) }
{
    let files = files_of(matches)?;
    Some(Command::Format(files))
}

fn implicit<'a>(matches: &ArgMatches<'a>) -> Option<Command<'a>>
    ensures { result ≡ command_told Kind.Implicit false (found_of matches.now) }
{
    let files = first_files(matches)?;
    let subject = subject_of(matches)?;
    let options = options_in(matches)?;
    Some(Command::Implicit {
        files,
        subject,
        options,
    })
}

fn report<'a>(matches: &ArgMatches<'a>) -> Option<Command<'a>>
    ensures { result ≡ command_told Kind.Report false (found_of matches.now) }
{
    let files = files_of(matches)?;
    let options = options_in(matches)?;
    Some(Command::Report { files, options })
}

fn ship<'a>(matches: &ArgMatches<'a>) -> Option<Command<'a>>
    ensures { result ≡ command_told Kind.Ship false (found_of matches.now) }
{
    let files = files_of(matches)?;
    let options = options_in(matches)?;
    Some(Command::Ship { files, options })
}

fn follow<'a>(matches: &ArgMatches<'a>) -> Option<Command<'a>>
    ensures { result ≡ command_told Kind.Follow false (found_of matches.now) }
{
    let files = files_of(matches)?;
    let options = options_in(matches)?;
    Some(Command::Follow { files, options })
}

fn lint<'a>(matches: &ArgMatches<'a>) -> Option<Command<'a>>
    ensures { result ≡ command_told Kind.Lint false (found_of matches.now) }
{
    let files = files_of(matches)?;
    let options = options_in(matches)?;
    Some(Command::Lint { files, options })
}

fn demo<'a>(matches: &ArgMatches<'a>) -> Option<Command<'a>>
    ensures { result ≡ command_told Kind.Demo false (found_of matches.now) }
{
    let count = count_of(matches)?;
    let workers = workers_in(matches)?;
    Some(Command::Demo { count, workers })
}
