ghost use Rattle.std.specs.Prelude.{◌≡◌, map, option_map, slice_get};
ghost use Rattle.clap.specs.Words.{found_of};
ghost use Rattle.command_words.specs.Commands.{count_of, files_of, first_files, subject_of};
ghost use Rattle.command_words.specs.Helps.Matched.{operands_told};

use crate::command::{Files, Subject};
use crate::numbers::number_between;
use clap::ArgMatches;

const MOST_COUNT: u32 = 100_000;

/// The files that two operands name.
pub(crate) fn files_of<'a>(matches: &ArgMatches<'a>) -> Option<Files<'a>>
    ensures { result ≡ files_of (operands_told (found_of matches.now)) }
{
    let model = operand(matches, 0)?;
    let policy = operand(matches, 1)?;
    let None = operand(matches, 2) else {
        return None;
    };
    Some(Files { model, policy })
}

/// The files that the first two operands name.
pub(crate) fn first_files<'a>(matches: &ArgMatches<'a>) -> Option<Files<'a>>
    ensures { result ≡ first_files (operands_told (found_of matches.now)) }
{
    let model = operand(matches, 0)?;
    let policy = operand(matches, 1)?;
    Some(Files { model, policy })
}

/// The name that the third operand is, with the fourth as its domain.
pub(crate) fn subject_of<'a>(matches: &ArgMatches<'a>) -> Option<Subject<'a>>
    ensures { result ≡ subject_of (operands_told (found_of matches.now)) }
{
    let name = operand(matches, 2)?;
    let domain = operand(matches, 3);
    let None = operand(matches, 4) else {
        return None;
    };
    Some(Subject { name, domain })
}

/// The number that one operand is.
pub(crate) fn count_of(matches: &ArgMatches<'_>) -> Option<u32>
    ensures { result ≡ count_of (operands_told (found_of matches.now)) }
{
    let count = operand(matches, 0)?;
    let None = operand(matches, 1) else {
        return None;
    };
    number_between(count, 6, 1, MOST_COUNT)
}

// The operand at a place, counted from 0.
fn operand<'a>(matches: &ArgMatches<'a>, at: usize) -> Option<&'a str>
    ensures { option_map (λ word. word.now) result
        ≡ slice_get (operands_told (found_of matches.now)) at }
{
    let words = matches.get_strs("operands")?;
    word_at(words, at)
}

fn word_at<'a>(words: &[&'a str], at: usize) -> Option<&'a str>
    ensures { option_map (λ word. word.now) result
        ≡ slice_get (map (λ word. word.now) words.now) at }
{
    words.get(at).copied()
}
