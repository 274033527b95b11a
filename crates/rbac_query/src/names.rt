ghost use Rattle.std.specs.Option.{option_copied};
ghost use Rattle.policy_query.specs.Names.{names_refusal};
ghost use Rattle.policy_state.specs.States.{tables};
ghost use Rattle.rbac_query.specs.Asked.{AreImplicitRoles, AreImplicitUsers, IsAnswered};

use perm_base::{Rule, TableId};
use policy_query::{QueryRefused, names_refusal};
use policy_state::PolicyState;
use std::alloc::Global;

/// The roles that a name has in a relation by links, up to the hierarchy limit, in one domain where the relation has domains:
/// the nearer first, those of one distance by bytes; never the name itself (Casbin, GetImplicitRolesForUser and
/// GetNamedImplicitRolesForUser). Refused are a relation that the shapes lack, a domain where it has none, and none where
/// it has one. Its time is linear in the rows that lie on the way, and it takes memory for these roles.
pub fn implicit_roles(
    alloc: Global,
    state: &PolicyState,
    relation: u8,
    name: &[u8],
    domain: Option<&[u8]>,
) -> Result<Rule, QueryRefused>
    ensures answer { IsAnswered
        (names_refusal state.now.shapes relation (option_copied domain.entry))
        (AreImplicitRoles state.now.shapes (tables state.now) relation
        (option_copied domain.entry) name.now) result }
{
    if let Some(refused) = names_refusal(state.shapes(), relation, domain) {
        return Err(refused);
    }
    Ok(state.roles_within(alloc, relation, name, domain)?)
}

/// The users that have a role in a relation by links, up to the hierarchy limit, in one domain where the relation has
/// domains: the names in the first column of its rows that are no patterns, each once, by bytes; never the name itself
/// (Casbin, GetImplicitUsersForRole). Refused is what `implicit_roles` refuses. The links are walked once, and each row's
/// user is looked up; it takes memory for these users.
pub fn implicit_users(
    alloc: Global,
    state: &PolicyState,
    relation: u8,
    name: &[u8],
    domain: Option<&[u8]>,
) -> Result<Rule, QueryRefused>
    ensures answer { IsAnswered
        (names_refusal state.now.shapes relation (option_copied domain.entry))
        (AreImplicitUsers state.now.shapes (tables state.now) relation
        (option_copied domain.entry) name.now) result }
{
    if let Some(refused) = names_refusal(state.shapes(), relation, domain) {
        return Err(refused);
    }
    let rows = state.tables().rows(TableId::G(relation));
    let section = state.section(relation);
    Ok(section.users_within(alloc, name, domain, rows)?)
}
