ghost use Rattle.std.specs.Prelude.{◌≡◌, ◌∷◌, ◌↔◌, [], IfOk, IsTrue, MatchOption, codes};
ghost use Rattle.clap.specs.Words.{app_of, fault_of, found_of, kind_of, matches_of, rows_of, with_rule};
ghost use Rattle.clap.specs.declared.error.kind.ErrorKind.TheVariants.{OutOfMemory};
ghost use Rattle.command_words.specs.Commands.{role_options};
ghost use Rattle.command_words.specs.Helps.Matched.{app_for, bare_app, flag_rule, option_rule, with_options};
ghost use Rattle.command_words.specs.Items.{texts};

use crate::kind::Kind;
use clap::error::ErrorKind;
use clap::{Arg, ArgAction, ArgMatches, Command, Error};
use outside::NoMemory;
use std::alloc::{AllocError, Global};

/// What the words behind a command's name say, or `None` where they are none that the command takes.
pub(crate) fn parsed<'a>(
    alloc: Global,
    kind: Kind,
    words: &'a [String],
) -> Result<Option<ArgMatches<'a>>, NoMemory>
    ensures { IfOk result (λ found. MatchOption found
        (fault_of (app_for kind) (texts words.now) ≡ [] → ⊥)
        (λ matches. (fault_of (app_for kind) (texts words.now) ≡ [])
        × (rows_of (found_of matches) ≡ matches_of (app_for kind) (texts words.now)))) }
{
    let command = described(alloc, kind)?;
    match command.try_get_matches_from(words) {
        Ok(matches) => Ok(Some(matches)),
        Err(error) => {
            if is_of_memory(&error) {
                return Err(NoMemory);
            }
            Ok(None)
        }
    }
}

fn is_of_memory(error: &Error) -> bool
    ensures { IsTrue result ↔ (kind_of error.now ≡ OutOfMemory) }
{
    matches!(error.kind(), ErrorKind::OutOfMemory)
}

// The command as `clap` knows it: its options, its flag, and operands, however many. No help is asked of it.
fn described<'a>(alloc: Global, kind: Kind) -> Result<Command<'a>, AllocError>
    ensures { IfOk result (λ command. app_of command ≡ app_for kind) }
{
    match kind {
        Kind::Enforce => flagged(alloc, "cache"),
        Kind::Explain => flagged(alloc, "most"),
        Kind::Session => flagged(alloc, "workers"),
        Kind::Check | Kind::Format => bare(alloc),
        Kind::Implicit | Kind::Report | Kind::Ship | Kind::Follow | Kind::Lint => of_roles(alloc),
        Kind::Demo => with_workers(alloc),
    }
}

// An option of its own, those of roles, and the flag.
fn flagged<'a>(alloc: Global, own: &'a str) -> Result<Command<'a>, AllocError>
    ensures { IfOk result (λ command. app_of command
        ≡ with_rule (with_options bare_app (own.now ∷ role_options)) flag_rule) }
{
    let plain = bare(alloc)?;
    let extended = with_option(alloc, plain, own)?;
    let complete = with_roles(alloc, extended)?;
    with_flag(alloc, complete)
}

fn of_roles<'a>(alloc: Global) -> Result<Command<'a>, AllocError>
    ensures { IfOk result (λ command. app_of command ≡ with_options bare_app role_options) }
{
    let plain = bare(alloc)?;
    with_roles(alloc, plain)
}

fn with_workers<'a>(alloc: Global) -> Result<Command<'a>, AllocError>
    ensures { IfOk result (λ command. app_of command
        ≡ with_rule bare_app (option_rule (codes "workers"))) }
{
    let plain = bare(alloc)?;
    with_option(alloc, plain, "workers")
}

// The options that say something of roles.
fn with_roles<'a>(alloc: Global, command: Command<'a>) -> Result<Command<'a>, AllocError>
    ensures { IfOk result (λ after. app_of after
        ≡ with_options (app_of command.entry) role_options) }
{
    let limited = with_option(alloc, command, "limit")?;
    let matched = with_option(alloc, limited, "match")?;
    with_option(alloc, matched, "domain-match")
}

// `--name VALUE` or `--name=VALUE`, once.
fn with_option<'a>(
    alloc: Global,
    command: Command<'a>,
    name: &'a str,
) -> Result<Command<'a>, AllocError>
    ensures { IfOk result (λ after. app_of after
        ≡ with_rule (app_of command.entry) (option_rule name.now)) }
{
    command.arg(Arg::new(alloc, name).long(name))
}

// `--json`, once.
fn with_flag<'a>(alloc: Global, command: Command<'a>) -> Result<Command<'a>, AllocError>
    ensures { IfOk result (λ after. app_of after ≡ with_rule (app_of command.entry) flag_rule) }
{
    let flag = Arg::new(alloc, "json")
        .long("json")
        .action(ArgAction::SetTrue);
    command.arg(flag)
}

// Operands alone, behind no name.
fn bare<'a>(alloc: Global) -> Result<Command<'a>, AllocError>
    ensures { IfOk result (λ command. app_of command ≡ bare_app) }
{
    let operands = Arg::new(alloc, "operands").action(ArgAction::Append);
    let command = Command::new(alloc, "casbin_cli")
        .no_binary_name(true)
        .disable_help_flag(true);
    command.arg(operands)
}
