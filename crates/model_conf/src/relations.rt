ghost use Rattle.std.specs.Prelude.{◌≡◌, ◌-◌, ◌<◌, ◌≤◌, [], option_and_then, IfOk};
ghost use Rattle.std.specs.List.{slice_index_or};
ghost use Rattle.matcher_read.specs.Calls.{relation_names};
ghost use Rattle.model_conf.specs.Relations.{bad_shape_of, first_bad_shape, relations_of, value_of, with_domain_of};
ghost use Rattle.model_conf.specs.Helps.Seen.{entries_seen, entry_seen};

use crate::entries::{Entry, value_of};
use crate::sections::{relation_name, relation_named};
use outside::NoMemory;
use perm_base::{Fit, RoleShape};
use std::alloc::Global;

/// The first relation in the text whose shape is none.
pub(crate) fn first_bad_shape(entries: &[Entry]) -> Option<u8>
    ensures { result ≡ first_bad_shape (entries_seen entries.now) }
{
    for entry in entries {
        if let Some(number) = bad_shape(entry) {
            return Some(number);
        }
    }
    None
}

// The number of a relation whose shape is none.
fn bad_shape(entry: &Entry) -> Option<u8>
    ensures { result ≡ bad_shape_of (entry_seen entry.now) }
{
    let number = relation_named(entry.key)?;
    match with_domain_of(entry.value.as_str()) {
        Some(_) => None,
        None => Some(number),
    }
}

/// The declared relations, by rising number.
pub(crate) fn read_relations(alloc: Global, entries: &[Entry]) -> Result<Vec<RoleShape>, NoMemory>
    ensures { IfOk result (λ relations.
        relations.items ≡ relations_of (entries_seen entries.now)) }
{
    let mut relations = Vec::new(alloc);
    for number in 1..9 {
        if let Some(with_domain) = declared(entries, number) {
            let relation = RoleShape {
                number,
                with_domain,
                names: Fit::Exact,
                domains: Fit::Exact,
            };
            relations.push(relation)?;
        }
    }
    Ok(relations)
}

// Whether rules of a relation have a domain, where it is declared.
fn declared(entries: &[Entry], number: u8) -> Option<bool>
    requires { (0 < number) × (number ≤ 8) }
    ensures { let name = slice_index_or relation_names (number - 1) [] in
        result ≡ option_and_then with_domain_of (value_of (entries_seen entries.now) name) }
{
    with_domain_of(value_of(entries, relation_name(number))?)
}

// Whether rules have a domain behind the two names, by the text of a shape.
fn with_domain_of(text: &str) -> Option<bool>
    ensures { result ≡ with_domain_of text.now }
{
    if text == "_, _" {
        Some(false)
    } else if text == "_, _, _" {
        Some(true)
    } else {
        None
    }
}
