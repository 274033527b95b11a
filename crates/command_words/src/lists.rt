ghost use Rattle.std.specs.Prelude.{◌≡◌, ◌∷◌, ◌<◌, ◌≤◌, IfSome};
ghost use Rattle.std.specs.List.{slice_split};
ghost use Rattle.command_words.specs.Helps.Seen.{entries_of};
ghost use Rattle.command_words.specs.Values.{entry_of, fit_named, fits_of, is_comma, relation_of};
ghost use Rattle.perm_base.specs.TableNames.{table_named};

use crate::fits::RelationFits;
use perm_base::{Fit, TableId};

/// The role relations of a list of `RELATION=FUNCTION`, with their functions.
pub(crate) fn fits_of(list: &str) -> Option<RelationFits>
    ensures { result ≡ fits_of list.now }
{
    let mut fits = RelationFits::new();
    let mut rest = Some(list);
    while let Some(list) = rest {
        let (text, behind) = first_entry(list);
        let (relation, fit) = entry_of(text)?;
        if fits.has(relation) {
            return None;
        }
        fits.push(relation, fit);
        rest = behind;
    }
    Some(fits)
}

// What stands before the first comma, and what behind it.
fn first_entry(list: &str) -> (&str, Option<&str>)
    ensures entries { slice_split is_comma list.now ≡ result.0.now ∷ entries_of result.1 }
{
    match list.split_once(',') {
        Some((entry, behind)) => (entry, Some(behind)),
        None => (list, None),
    }
}

// What `RELATION=FUNCTION` says.
fn entry_of(text: &str) -> Option<(u8, Fit)>
    ensures value { result ≡ entry_of text.now }
    ensures within { IfSome result (λ entry. (0 < entry.0) × (entry.0 ≤ 8)) }
{
    let (relation, function) = text.split_once('=')?;
    let relation = relation_named(relation)?;
    let fit = fit_named(function)?;
    Some((relation, fit))
}

// The role relation of that name.
fn relation_named(name: &str) -> Option<u8>
    ensures value { result ≡ relation_of (table_named name.now) }
    ensures within { IfSome result (λ relation. (0 < relation) × (relation ≤ 8)) }
{
    match TableId::named(name) {
        Some(TableId::G(relation)) => Some(relation),
        Some(TableId::P) => None,
        None => None,
    }
}

// The function of that name.
fn fit_named(name: &str) -> Option<Fit>
    ensures { result ≡ fit_named name.now }
{
    match name {
        "keyMatch" => Some(Fit::KeyMatch),
        "keyMatch2" => Some(Fit::KeyMatch2),
        "keyMatch3" => Some(Fit::KeyMatch3),
        "globMatch" => Some(Fit::Glob),
        _ => None,
    }
}
