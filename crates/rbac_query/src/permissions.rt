ghost use Rattle.std.specs.Prelude.{◌≡◌, ◌<◌, ◌^◌, IfOk, filter, length};
ghost use Rattle.std.specs.Option.{option_copied};
ghost use Rattle.policy_query.specs.Names.{names_refusal};
ghost use Rattle.policy_state.specs.States.{tables};
ghost use Rattle.rbac_query.specs.Asked.{IsAnswered, hierarchy};
ghost use Rattle.rbac_query.specs.Helps.Tests.{is_counted, is_in, is_of, tells};
ghost use Rattle.rbac_query.specs.Permissions.{AreImplicitPermissions};

use crate::fields::text_or_empty;
use indexmap::IndexSet;
use model_conf::Model;
use outside::{NoMemory, Text};
use perm_base::{Rule, Rules, TableId};
use policy_query::{QueryRefused, names_refusal};
use policy_state::PolicyState;
use policy_table::Rows;
use std::alloc::Global;

/// The number of the relation `g`, by which rules count for names.
const HIERARCHY: u8 = 1;

/// The rules of p that count for a name, in their order: their subject is the name, or a role that it has in g by links, in
/// one domain where g has domains; and where p has a column `dom` then, it is this domain, byte by byte (Casbin,
/// GetImplicitPermissionsForUser). Refused is what `implicit_roles` refuses of g. It asks for the roles once and looks each
/// rule's subject up among them; it takes memory for the roles and for the rules that it gives.
pub fn implicit_permissions(
    alloc: Global,
    model: &Model,
    state: &PolicyState,
    name: &[u8],
    domain: Option<&[u8]>,
) -> Result<Rules, QueryRefused>
    ensures answer { IsAnswered
        (names_refusal state.now.shapes hierarchy (option_copied domain.entry))
        (AreImplicitPermissions model.now state.now.shapes (tables state.now)
        (option_copied domain.entry) name.now) result }
{
    if let Some(refused) = names_refusal(state.shapes(), HIERARCHY, domain) {
        return Err(refused);
    }
    let roles = state.roles_within(alloc, HIERARCHY, name, domain)?;
    let names = set_of(alloc, roles.fields())?;
    let rules = state.tables().rows(TableId::P);
    let subject = state.shapes().subject_column;
    let column = model.policy_columns().place_of(b"dom");
    Ok(counted(alloc, rules, name, &names, subject, column, domain)?)
}

// The texts as a set.
fn set_of<'a>(alloc: Global, texts: &'a [Text]) -> Result<IndexSet<&'a str>, NoMemory>
    ensures { IfOk result (λ set. tells set.keys texts.now) }
{
    let mut set = IndexSet::new(alloc);
    for text in texts {
        let _new = set.insert(text.as_str())?;
    }
    Ok(set)
}

// The rules whose subject is a name or one of its roles, and which are of the domain.
fn counted(
    alloc: Global,
    rules: Rows<'_>,
    name: &[u8],
    roles: &IndexSet<&str>,
    subject: u32,
    column: Option<u32>,
    domain: Option<&[u8]>,
) -> Result<Rules, NoMemory>
    requires few { length rules < 2 ^ 32 }
    ensures { IfOk result (λ counted. counted
        ≡ filter (is_counted name.now roles.now.keys subject column (option_copied domain.entry))
        rules.entry) }
{
    let mut counted = Vec::new(alloc);
    for rule in rules {
        let whose = text_or_empty(rule, subject);
        if is_in(name, roles, whose) && is_of(rule, column, domain) {
            counted.push(rule.copy(alloc)?)?;
        }
    }
    Ok(Rules::from_vec(counted))
}

// Whether a text is a name or one of its roles.
fn is_in(name: &[u8], roles: &IndexSet<&str>, text: &str) -> bool
    ensures { result ≡ is_in name.now roles.now.keys text.now }
{
    name == text.as_bytes() || roles.contains(&text)
}

// Whether a rule is of the domain that is asked for, where there is one and the rules have a column for it.
fn is_of(rule: &Rule, column: Option<u32>, domain: Option<&[u8]>) -> bool
    ensures { result ≡ is_of column (option_copied domain.entry) rule.now }
{
    match (column, domain) {
        (Some(column), Some(domain)) => domain == text_or_empty(rule, column).as_bytes(),
        _ => true,
    }
}
