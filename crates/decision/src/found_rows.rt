ghost use Rattle.std.specs.Prelude.{◌≡◌, [], IfOk, IfSome, OnOk, map, option_copied};
ghost use Rattle.perm_value.specs.Seen.{datum};
ghost use Rattle.decision.specs.Helps.Asked.{IsAsked};
ghost use Rattle.decision.specs.Helps.FoundRows.{AreGathered, AreGatheredByRoles, GathersNames, HaveTexts, IsDomainOf, IsSoughtBy};
ghost use Rattle.decision.specs.Helps.KeptPlans.{pair_seen};

use crate::asking::Asking;
use crate::looked::{text_at, text_of, value_at};
use crate::plan::{AskedColumns, By, EqualColumns, KeptPlan};
use outside::NoMemory;
use perm_base::Rule;
use perm_value::Request;
use policy_index::{Index, hash_with, start_hash};

/// What is found by an index: the slots of the rows that may match, that no row can, or not enough to say.
#[derive(Clone, Copy)]
pub(crate) enum Gathered {
    Slots,
    Nothing,
    Unknown,
}

/// What is sought of columns: the hash of the request's texts, none where a value is no text, or unknown where one is missing.
#[derive(Clone, Copy)]
pub(crate) enum Sought {
    Under(u64),
    Nowhere,
    Unknown,
}

/// Puts the slots of all rows that may match into `found`, by a plan that serves and an index by its key.
pub(crate) fn gather(
    asking: &Asking,
    plan: &KeptPlan,
    index: &Index,
    found: &mut Vec<u32>,
) -> Result<Gathered, NoMemory>
    requires empty { found.old.items ≡ [] }
    requires key { index.now.key ≡ plan.now.key }
    requires asked { IsAsked asking.now }
    ensures { IfOk result (AreGathered asking.now plan.now index.now found.new.items) }
{
    match plan.by {
        By::Texts => gather_texts(asking.request, plan.pairs.as_slice(), &[], index, found),
        By::Pattern(fitting) => {
            let Some(asked) = text_at(asking.request, fitting.request) else {
                return Ok(Gathered::Unknown);
            };
            gather_texts(asking.request, plan.pairs.as_slice(), asked, index, found)
        }
        By::Roles(question) => gather_roles(asking, question, index, found),
    }
}

// Those of the rows that have the request's texts, and whose pattern a text may fit.
#[inline(always)]
fn gather_texts(
    request: &Request,
    pairs: &[EqualColumns],
    asked: &[u8],
    index: &Index,
    found: &mut Vec<u32>,
) -> Result<Gathered, NoMemory>
    ensures { IfOk result (IsSoughtBy (map datum request.now) (map pair_seen pairs.now) asked.now
        index.now found.old.items found.new.items) }
{
    match hash_of(request, pairs) {
        Sought::Under(hash) => {
            index.gather(hash, asked, found)?;
            Ok(Gathered::Slots)
        }
        Sought::Nowhere => Ok(Gathered::Nothing),
        Sought::Unknown => Ok(Gathered::Unknown),
    }
}

// The hash of the texts that a request has in the columns that are compared.
#[inline(always)]
fn hash_of(request: &Request, pairs: &[EqualColumns]) -> Sought
    ensures { HaveTexts (map datum request.now) (map pair_seen pairs.now) result }
{
    let mut hash = start_hash();
    for pair in pairs {
        let Some(value) = value_at(request, pair.request) else {
            return Sought::Unknown;
        };
        let Some(text) = text_of(value) else {
            return Sought::Nowhere;
        };
        hash = hash_with(hash, text);
    }
    Sought::Under(hash)
}

// Those of the rows that name the asked name, or a role of it.
fn gather_roles(
    asking: &Asking,
    question: AskedColumns,
    index: &Index,
    found: &mut Vec<u32>,
) -> Result<Gathered, NoMemory>
    requires asked { IsAsked asking.now }
    ensures { IfOk result (AreGatheredByRoles asking.now question index.now found.old.items
        found.new.items) }
{
    let Some(name) = text_at(asking.request, question.request) else {
        return Ok(Gathered::Unknown);
    };
    let Some(shape) = asking.state.shapes().roles.find(question.relation) else {
        return Ok(Gathered::Unknown);
    };
    let Some(domain) = domain_at(asking.request, question.domain) else {
        return Ok(Gathered::Unknown);
    };
    if shape.with_domain != domain.is_some() {
        return Ok(Gathered::Unknown);
    }
    let roles = asking
        .state
        .roles_within(asking.alloc, question.relation, name, domain)?;
    index.gather(hash_with(start_hash(), name), &[], found)?;
    gather_names(&roles, index, found)?;
    Ok(Gathered::Slots)
}

/// The domain that a question names, or none; nothing where the request has no text for it.
pub(crate) fn domain_at(request: &Request, place: Option<Option<u32>>) -> Option<Option<&[u8]>>
    ensures { IfSome result (λ domain. IsDomainOf (map datum request.now) place
        (option_copied domain)) }
{
    let Some(place) = place else {
        return Some(None);
    };
    let Some(text) = text_at(request, place) else {
        return None;
    };
    Some(Some(text))
}

// Those of the rows that have one of these names in the one column of the index.
fn gather_names(names: &Rule, index: &Index, found: &mut Vec<u32>) -> Result<(), NoMemory>
    ensures { OnOk result (GathersNames names.now index.now found.old.items found.new.items) }
{
    for name in names.fields() {
        index.gather(hash_with(start_hash(), name.bytes()), &[], found)?;
    }
    Ok(())
}
