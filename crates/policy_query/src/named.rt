//! Names whose rules are known to be among some.

ghost use Rattle.std.specs.Prelude.{◌≡◌, ◌+◌, ◌<◌, ◌≤◌, ◌++◌, ◌∷◌, [], ℕ, All, AllPairs, IfOk, IfSome, OnOk, get_or, is_some, length, position, true, vec_len, ◌^◌};
ghost use Rattle.std.specs.List.{Contains};
ghost use Rattle.std.specs.Option.{option_copied};
ghost use Rattle.perm_base.specs.declared.shapes.TableId.TheVariants as table_of;
ghost use Rattle.policy_table.specs.Tables.{Fields, rows, same};
ghost use Rattle.policy_query.specs.Found.{FindAsked};
ghost use Rattle.policy_query.specs.Helps.Named.{ArePlaced, place_list, rule_of_names};
ghost use Rattle.policy_query.specs.Names.{is_asked, named_columns, names_beside};

use crate::names::{ROLE, USER, is_asked, names_beside, rule_of};
use indexmap::IndexSet;
use outside::{NoMemory, Text};
use perm_base::{Rule, TableId};
use policy_table::Tables;
use std::alloc::Global;
use std::str;

/// The roles that a name has in a relation by rules of its own, in one domain where the relation has domains, where all of
/// them are among these texts: each once, in the order of its first rule. Its time grows with these texts and with the
/// logarithm of the table alone, but for a name that no rule can have. It takes memory for these texts.
pub fn roles_among(
    alloc: Global,
    tables: &Tables,
    relation: u8,
    name: &[u8],
    domain: Option<&[u8]>,
    among: &[Text],
) -> Result<Rule, NoMemory>
    requires columns { All (λ rule. length rule
        ≡ named_columns (is_some (option_copied domain)) + 1)
        (rows tables.now.policy (table_of.G relation)) }
    requires among { (rule : Fields) → Contains (rows tables.now.policy (table_of.G relation)) rule
        → is_asked 0 name.now (option_copied domain) rule ≡ true
        → Contains among.now (get_or rule 1 []) }
    ensures { IfOk result (λ names. names ≡ names_beside 0 1 name.now
        (option_copied domain.entry) (rows tables.now.policy (table_of.G relation))) }
{
    let table = TableId::G(relation);
    let Some(mut places) = places_among(alloc, tables, table, name, domain, among)? else {
        return names_beside(alloc, tables.rows(table), USER, ROLE, name, domain);
    };
    put_in_order(&mut places);
    names_at(
        alloc,
        tables,
        table,
        places.as_slice(),
        USER,
        ROLE,
        name,
        domain,
    )
}

// The places of the rules of a name with these roles; none where no rule can have the names.
fn places_among(
    alloc: Global,
    tables: &Tables,
    table: TableId,
    name: &[u8],
    domain: Option<&[u8]>,
    among: &[Text],
) -> Result<Option<Vec<u32>>, NoMemory>
    ensures { IfOk result (λ found. IfSome found (λ places. ArePlaced name.now
        (option_copied domain.entry) among.now (rows tables.now.policy table) places.items)) }
{
    tables.kept();
    let mut places = Vec::new(alloc);
    for role in among {
        let Some(rule) = rule_of_names(alloc, name, role, domain)? else {
            return Ok(None);
        };
        push_place(tables, table, &rule, &mut places)?;
    }
    Ok(Some(places))
}

// The rule of a user, its role, and a domain or none, where there is such a rule.
fn rule_of_names(
    alloc: Global,
    user: &[u8],
    role: &Text,
    domain: Option<&[u8]>,
) -> Result<Option<Rule>, NoMemory>
    ensures { IfOk result (λ made. IfSome made (λ rule. rule
        ≡ rule_of_names user.now role.now (option_copied domain.entry))) }
{
    let Some(first) = text_of(alloc, user)? else {
        return Ok(None);
    };
    let fields = pair_of(alloc, first, role)?;
    let Some(bytes) = domain else {
        return Ok(rule_from(fields));
    };
    rule_in_domain(alloc, fields, bytes)
}

// The rule of two texts and a domain behind them, where there is such a rule.
fn rule_in_domain(
    alloc: Global,
    mut fields: Vec<Text>,
    domain: &[u8],
) -> Result<Option<Rule>, NoMemory>
    requires { length fields.items ≡ 2 }
    ensures { IfOk result (λ made. IfSome made (λ rule. rule ≡ fields.items ++ domain.now ∷ [])) }
{
    let Some(last) = text_of(alloc, domain)? else {
        return Ok(None);
    };
    fields.push(last)?;
    Ok(rule_from(fields))
}

// The text of bytes, where they are one.
fn text_of(alloc: Global, bytes: &[u8]) -> Result<Option<Text>, NoMemory>
    ensures { IfOk result (λ made. IfSome made (λ text. text ≡ bytes.now)) }
{
    let Ok(text) = str::from_utf8(bytes) else {
        return Ok(None);
    };
    let copy = Text::from_str(alloc, text)?;
    Ok(Some(copy))
}

// Two texts, with room for a third.
fn pair_of(alloc: Global, first: Text, second: &Text) -> Result<Vec<Text>, NoMemory>
    ensures { IfOk result (λ fields. fields.items ≡ first ∷ second.now ∷ []) }
{
    let mut fields = Vec::with_capacity(alloc, 3)?;
    fields.push(first)?;
    fields.push(Text::from_str(alloc, second.as_str())?)?;
    Ok(fields)
}

// The rule of texts, where they are one.
fn rule_from(fields: Vec<Text>) -> Option<Rule>
    requires { vec_len fields < 2 ^ 32 }
    ensures { IfSome result (λ rule. rule ≡ fields.items) }
{
    match Rule::from_fields(fields) {
        Ok(rule) => Some(rule),
        Err(_) => None,
    }
}

// Pushes the place of a rule, where it stands.
fn push_place(
    tables: &Tables,
    table: TableId,
    rule: &Rule,
    places: &mut Vec<u32>,
) -> Result<(), NoMemory>
    ensures { OnOk result (places.new.items ≡ places.old.items
        ++ place_list (position (same rule.now) (rows tables.now.policy table))) }
{
    let Some(at) = tables.number_of(table, rule) else {
        return Ok(());
    };
    places.push(at)?;
    Ok(())
}

// Puts places into rising order, each once.
fn put_in_order(places: &mut Vec<u32>)
    ensures rising { AllPairs (λ first second. first < second) places.new.items }
    ensures within { (bound : ℕ) → All (λ at. at < bound) places.old.items
        → All (λ at. at < bound) places.new.items }
    ensures keeps { (at : ℕ) → Contains places.old.items at → Contains places.new.items at }
{
    places.sort_unstable();
    places.dedup();
}

/// The users that have a role in a relation by rules of their own, in one domain where the relation has domains, where all rules
/// that give it there stand at these places, which rise: each once, in the order of its first rule. Its time grows with these places
/// and with the logarithm of the table. It takes memory for these users alone.
pub fn users_at(
    alloc: Global,
    tables: &Tables,
    relation: u8,
    places: &[u32],
    name: &[u8],
    domain: Option<&[u8]>,
) -> Result<Rule, NoMemory>
    requires columns { All (λ rule. named_columns (is_some (option_copied domain)) < length rule)
        (rows tables.now.policy (table_of.G relation)) }
    requires found { FindAsked 1 name.now (option_copied domain)
        (rows tables.now.policy (table_of.G relation)) places.now }
    ensures { IfOk result (λ names. names ≡ names_beside 1 0 name.now
        (option_copied domain.entry) (rows tables.now.policy (table_of.G relation))) }
{
    let table = TableId::G(relation);
    names_at(alloc, tables, table, places, ROLE, USER, name, domain)
}

// The names in the column `told` of the rules that have a name in the column `asked`, which stand at some of these places and
// nowhere else: each once.
fn names_at(
    alloc: Global,
    tables: &Tables,
    table: TableId,
    places: &[u32],
    asked: u32,
    told: u32,
    name: &[u8],
    domain: Option<&[u8]>,
) -> Result<Rule, NoMemory>
    requires columns { All (λ rule. named_columns (is_some (option_copied domain)) < length rule)
        (rows tables.now.policy table) }
    requires asked { asked ≤ 1 }
    requires told { told ≤ 1 }
    requires found { FindAsked asked name.now (option_copied domain)
        (rows tables.now.policy table) places.now }
    ensures { IfOk result (λ names. names ≡ names_beside asked told name.now
        (option_copied domain.entry) (rows tables.now.policy table)) }
{
    let _all = tables.rows(table);
    let mut names = IndexSet::new(alloc);
    for place in places {
        let rule = tables.row(table, *place);
        if is_asked(rule, asked, name, domain) {
            let _new = names.insert(rule.text(told))?;
        }
    }
    rule_of(alloc, names.as_slice())
}
