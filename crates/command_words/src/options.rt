ghost use Rattle.std.specs.Prelude.{◌≡◌};
ghost use Rattle.clap.specs.Words.{found_of};
ghost use Rattle.command_words.specs.Helps.Matched.{cache_told, fits_told, limit_told, most_told, options_told, workers_told};

use crate::command::Options;
use crate::fits::RelationFits;
use crate::lists::fits_of;
use crate::numbers::number_between;
use clap::ArgMatches;

const MOST_WORKERS: u32 = 8;

const MOST_LIMIT: u32 = 250;

const MOST_CACHED: u32 = 10_000;

const MOST_MISSES: u32 = 1_000;

/// What the matches say of roles.
pub(crate) fn options_in(matches: &ArgMatches<'_>) -> Option<Options>
    ensures { result ≡ options_told (found_of matches.now) }
{
    let limit = limit_in(matches)?;
    let names = fits_at(matches, "match")?;
    let domains = fits_at(matches, "domain-match")?;
    Some(Options {
        limit,
        names,
        domains,
    })
}

/// The number of workers, 0 unless it is told.
pub(crate) fn workers_in(matches: &ArgMatches<'_>) -> Option<u8>
    ensures { result ≡ workers_told (found_of matches.now) }
{
    let Some(text) = matches.get_str("workers") else {
        return Some(0);
    };
    let number = number_between(text, 3, 0, MOST_WORKERS)?;
    Some(number as u8)
}

/// How many answers are kept, where it is told.
pub(crate) fn cache_in(matches: &ArgMatches<'_>) -> Option<Option<u32>>
    ensures { result ≡ cache_told (found_of matches.now) }
{
    let Some(text) = matches.get_str("cache") else {
        return Some(None);
    };
    let number = number_between(text, 5, 1, MOST_CACHED)?;
    Some(Some(number))
}

/// How many near misses are told at most, 10 unless it is told.
pub(crate) fn most_in(matches: &ArgMatches<'_>) -> Option<u32>
    ensures { result ≡ most_told (found_of matches.now) }
{
    let Some(text) = matches.get_str("most") else {
        return Some(10);
    };
    number_between(text, 4, 1, MOST_MISSES)
}

// The greatest number of links, 10 unless it is told.
fn limit_in(matches: &ArgMatches<'_>) -> Option<u8>
    ensures { result ≡ limit_told (found_of matches.now) }
{
    let Some(text) = matches.get_str("limit") else {
        return Some(10);
    };
    let number = number_between(text, 3, 1, MOST_LIMIT)?;
    Some(number as u8)
}

// The relations that the option of that name lists, none unless it is told.
fn fits_at(matches: &ArgMatches<'_>, name: &str) -> Option<RelationFits>
    ensures { result ≡ fits_told name.now (found_of matches.now) }
{
    let Some(list) = matches.get_str(name) else {
        return Some(RelationFits::new());
    };
    fits_of(list)
}
