ghost use Rattle.std.specs.Prelude.{◌≡◌, ◌<◌, ◌≤◌, ◌^◌, All, IfOk, false, is_some, length, map};
ghost use Rattle.std.specs.List.{list_any};
ghost use Rattle.std.specs.Option.{option_copied};
ghost use Rattle.perm_base.specs.LineEnds.{has_line_end};
ghost use Rattle.policy_table.specs.Limits.{HaveShapes};
ghost use Rattle.policy_query.specs.Answers.{IsAnswer};
ghost use Rattle.policy_query.specs.Names.{is_asked, is_of, named_columns, names_beside, names_refusal, roles_answer, users_answer};

use crate::refused::QueryRefused;
use indexmap::IndexSet;
use outside::{NoMemory, Text};
use perm_base::{Rule, Shapes, TableId};
use policy_table::{Rows, Tables};
use std::alloc::Global;

/// The columns of a relation's rules.
pub(crate) const USER: u32 = 0;

pub(crate) const ROLE: u32 = 1;

const DOMAIN: u32 = 2;

/// Why `roles_of` and `users_of` refuse a question about a relation, whatever the tables hold and whatever name is asked
/// for: the shapes lack the relation, or a domain is given where it has none, or none where it has one. It takes no memory.
pub fn names_refusal(shapes: &Shapes, relation: u8, domain: Option<&[u8]>) -> Option<QueryRefused>
    ensures { result ≡ names_refusal shapes.now relation (option_copied domain.entry) }
{
    let Some(shape) = shapes.roles.find(relation) else {
        let table = TableId::G(relation);
        return Some(QueryRefused::NoTable { table });
    };
    let want = named_columns(shape.with_domain);
    let got = named_columns(domain.is_some());
    if want == got {
        None
    } else {
        Some(QueryRefused::Columns { want, got })
    }
}

/// The roles that a name has in a relation by rules of its own, in one domain where the relation has domains: each once,
/// in the order of its first rule. Names and domains are compared byte by byte (Casbin, GetRolesForUser and
/// GetRolesForUserInDomain). Refused are a relation that the shapes lack, a domain where it has none, and none where it
/// has one. It takes memory for these roles alone.
pub fn roles_of(
    alloc: Global,
    tables: &Tables,
    shapes: &Shapes,
    relation: u8,
    name: &[u8],
    domain: Option<&[u8]>,
) -> Result<Rule, QueryRefused>
    requires shaped { HaveShapes shapes.now tables.now.policy }
    ensures answer { IsAnswer (roles_answer shapes.now tables.now.policy relation name.now
        (option_copied domain.entry)) result }
{
    if let Some(refused) = names_refusal(shapes, relation, domain) {
        return Err(refused);
    }
    let rules = tables.rows(TableId::G(relation));
    Ok(names_beside(alloc, rules, USER, ROLE, name, domain)?)
}

/// The users that have a role in a relation by rules of their own, in one domain where the relation has domains: each
/// once, in the order of its first rule. Names and domains are compared byte by byte (Casbin, GetUsersForRole and
/// GetUsersForRoleInDomain). Refused are a relation that the shapes lack, a domain where it has none, and none where it
/// has one. It takes memory for these users alone.
pub fn users_of(
    alloc: Global,
    tables: &Tables,
    shapes: &Shapes,
    relation: u8,
    name: &[u8],
    domain: Option<&[u8]>,
) -> Result<Rule, QueryRefused>
    requires shaped { HaveShapes shapes.now tables.now.policy }
    ensures answer { IsAnswer (users_answer shapes.now tables.now.policy relation name.now
        (option_copied domain.entry)) result }
{
    if let Some(refused) = names_refusal(shapes, relation, domain) {
        return Err(refused);
    }
    let rules = tables.rows(TableId::G(relation));
    Ok(names_beside(alloc, rules, ROLE, USER, name, domain)?)
}

// How many columns a query for names gives: a name, and a domain or none.
fn named_columns(with_domain: bool) -> u32
    ensures { result ≡ named_columns with_domain }
{
    if with_domain { 2 } else { 1 }
}

/// The names in the column `told` of the rules that have a name in the column `asked`, each once.
pub(crate) fn names_beside(
    alloc: Global,
    rules: Rows<'_>,
    asked: u32,
    told: u32,
    name: &[u8],
    domain: Option<&[u8]>,
) -> Result<Rule, NoMemory>
    requires few { length rules < 2 ^ 32 }
    requires columns { All (λ rule. named_columns (is_some (option_copied domain)) < length rule)
        rules }
    requires asked { asked ≤ 1 }
    requires told { told ≤ 1 }
    ensures { IfOk result (λ names. names
        ≡ names_beside asked told name.now (option_copied domain.entry) rules.entry) }
{
    let mut names = IndexSet::new(alloc);
    for rule in rules {
        if is_asked(rule, asked, name, domain) {
            let _new = names.insert(rule.text(told))?;
        }
    }
    rule_of(alloc, names.as_slice())
}

/// Whether a rule has a name in a column, and is of the domain.
pub(crate) fn is_asked(rule: &Rule, column: u32, name: &[u8], domain: Option<&[u8]>) -> bool
    requires columns { named_columns (is_some (option_copied domain)) < length rule.now }
    requires column { column ≤ 1 }
    ensures { result ≡ is_asked column name.now (option_copied domain.entry) rule.now }
{
    name == rule.field(column) && is_of(rule, domain)
}

// Whether a rule is of the domain that is asked for, where one is.
fn is_of(rule: &Rule, domain: Option<&[u8]>) -> bool
    requires { named_columns (is_some (option_copied domain)) < length rule.now }
    ensures { result ≡ is_of (option_copied domain.entry) rule.now }
{
    match domain {
        Some(domain) => domain == rule.field(DOMAIN),
        None => true,
    }
}

/// The rule of names that may be its fields.
pub(crate) fn rule_of(alloc: Global, names: &[&str]) -> Result<Rule, NoMemory>
    requires few { length names.now < 2 ^ 32 }
    requires whole_lines { list_any has_line_end (map (λ name. name.now) names.now) ≡ false }
    ensures { IfOk result (λ rule. rule ≡ map (λ name. name.now) names.now) }
{
    let mut fields = Vec::with_capacity(alloc, names.len())?;
    for name in names {
        fields.push(Text::from_str(alloc, name)?)?;
    }
    Ok(Rule::from_vec(fields))
}
