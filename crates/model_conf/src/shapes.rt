ghost use Rattle.std.specs.Prelude.{◌≡◌, ◌↔◌, ◌<◌, ◌≤◌, ℕ, None, Some, IfOk, IsErrOf, MatchResult, map};
ghost use Rattle.perm_base.specs.Shapes.{AreValid};
ghost use Rattle.model_conf.specs.Kept.{AreRelations};
ghost use Rattle.model_conf.specs.Shapes.{AreNamedOnce, first_absent, first_failing, fit_of, fitted, has_domain, has_relation, shapes_of};

use crate::model::Model;
use outside::NoMemory;
use perm_base::{Fit, RoleShape, RoleShapes, Shapes};
use std::alloc::Global;

/// Why a model has no shapes with two lists of functions.
#[derive(Clone, Copy, Debug, PartialEq, Eq)]
pub enum ShapeFault {
    /// The model lacks a relation that a list names, or it has no domain column and the list of domains names it. It is
    /// the first of the names; where the model has all of these, the first of the domains.
    NoRelation { relation: u8 },
    /// Memory ran out.
    NoMemory,
}

impl From<NoMemory> for ShapeFault {
    ghost use Rattle.std.specs.Prelude.{◌≡◌};
    ghost use Rattle.model_conf.specs.declared.shapes.ShapeFault.TheVariants.{NoMemory};

    ghost from_gives = { λ _ fault. fault ≡ NoMemory };

    fn from(_: NoMemory) -> ShapeFault {
        ShapeFault::NoMemory
    }
}

/// The shapes of the tables of a model's policies. The effect's column is `eft`, and the subject's is `sub`, else the
/// first. Names of a relation are compared by the function that `names` gives for its number, and domains by that of
/// `domains`; where a list does not name it, byte by byte. No list names a relation twice. A name has a role by at most
/// `limit` links, from 1 to 250. The table `p` is ranked where the effect is priority and the first column is named
/// `priority`.
pub fn shapes_of(
    alloc: Global,
    model: &Model,
    names: &[(u8, Fit)],
    domains: &[(u8, Fit)],
    limit: u8,
) -> Result<Shapes, ShapeFault>
    requires names { AreNamedOnce names.now }
    requires domains { AreNamedOnce domains.now }
    requires limit { (0 < limit) × (limit ≤ 250) }
    ensures found { IfOk result (λ shapes.
        shapes ≡ shapes_of model.now names.now domains.now limit) }
    ensures valid { IfOk result (λ shapes. AreValid shapes) }
    ensures missing { (relation : ℕ)
        → IsErrOf result (ShapeFault.NoRelation relation)
        ↔ (first_absent model.now.relations names.now domains.now ≡ Some relation) }
    ensures only { first_absent model.now.relations names.now domains.now ≡ None
        → MatchResult result
        (λ shapes. shapes ≡ shapes_of model.now names.now domains.now limit)
        (λ fault. fault ≡ ShapeFault.NoMemory) }
{
    let relations = model.relations();
    if let Some(relation) = first_absent(relations, names, domains) {
        return Err(ShapeFault::NoRelation { relation });
    }
    let columns = model.policy_columns();
    let roles = roles_of(alloc, relations, names, domains)?;
    Ok(Shapes {
        columns: columns.len(),
        effect_column: columns.place_of(b"eft"),
        subject_column: columns.place_of(b"sub").unwrap_or(0),
        roles,
        limit,
        ranked: model.is_ranked(),
    })
}

// The first of the names that is no relation; where there is none, the first of the domains that has no domain column.
fn first_absent(relations: &[RoleShape], names: &[(u8, Fit)], domains: &[(u8, Fit)]) -> Option<u8>
    ensures { result ≡ first_absent relations.now names.now domains.now }
{
    let undeclared = names.iter().find(|fit| !has_relation(relations, fit.0));
    let without_domain = domains.iter().find(|fit| !has_domain(relations, fit.0));
    let (relation, _) = undeclared.or(without_domain)?;
    Some(*relation)
}

fn has_relation(relations: &[RoleShape], number: u8) -> bool
    ensures { result ≡ has_relation relations.now number }
{
    relations.iter().any(|shape| shape.number == number)
}

fn has_domain(relations: &[RoleShape], number: u8) -> bool
    ensures { result ≡ has_domain relations.now number }
{
    relations
        .iter()
        .any(|shape| shape.number == number && shape.with_domain)
}

// The relations with the functions by which they are compared.
fn roles_of(
    alloc: Global,
    relations: &[RoleShape],
    names: &[(u8, Fit)],
    domains: &[(u8, Fit)],
) -> Result<RoleShapes, NoMemory>
    requires { AreRelations relations.now }
    ensures { IfOk result (λ roles. roles ≡ map (fitted names.now domains.now) relations.now) }
{
    let mut shapes = Vec::with_capacity(alloc, relations.len())?;
    for shape in relations {
        shapes.push(RoleShape {
            names: fit_of(names, shape.number),
            domains: fit_of(domains, shape.number),
            ..*shape
        })?;
    }
    Ok(RoleShapes::from_vec(shapes))
}

// The function of a relation, else equality.
fn fit_of(fits: &[(u8, Fit)], relation: u8) -> Fit
    ensures { result ≡ fit_of fits.now relation }
{
    for (number, fit) in fits {
        if *number == relation {
            return *fit;
        }
    }
    Fit::Exact
}
