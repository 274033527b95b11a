ghost use Rattle.std.specs.Prelude.{◌≡◌, ◌==◌, [], ◌∷◌, length, not};
ghost use Rattle.std.specs.List.{flat_map, list_all};
ghost use Rattle.policy_table.specs.Limits.{has_short_fields};
ghost use Rattle.edit_calls.specs.Refusals.{bad_filter, filter_fault, has_long_field, named_rules, other_length, refusal, added_rules, table_of};

use crate::call::Call;
use crate::listed::{News, RuleList};
use crate::refused::CallRefused;
use perm_base::{Rule, Rules, Shapes, TableId};
use policy_table::{columns_of, has_short_fields};

/// Why a call is refused, whatever stands in the tables.
pub(crate) fn refusal(call: &Call, shapes: &Shapes) -> Option<CallRefused>
    ensures { result ≡ refusal shapes.now call.now }
{
    let table = table_of(call);
    let Some(columns) = columns_of(shapes, table) else {
        return Some(CallRefused::NoTable { table });
    };
    if let Some(refused) = other_length(columns, call) {
        return Some(refused);
    }
    if let Some(refused) = filter_fault(columns, call) {
        return Some(refused);
    }
    if has_long_field(call) {
        Some(CallRefused::FieldTooLong)
    } else {
        None
    }
}

/// The table of a call.
pub(crate) fn table_of(call: &Call) -> TableId
    ensures { result ≡ table_of call.now }
{
    match call {
        Call::Add { table, .. }
        | Call::AddAll { table, .. }
        | Call::AddEx { table, .. }
        | Call::Remove { table, .. }
        | Call::RemoveAll { table, .. }
        | Call::Update { table, .. }
        | Call::RemoveFiltered { table, .. }
        | Call::UpdateFiltered { table, .. } => *table,
        Call::DeleteUser { .. } | Call::DeleteRole { .. } => TableId::G(1),
    }
}

// The first rule that the call names with another number of columns.
fn other_length(columns: u32, call: &Call) -> Option<CallRefused>
    ensures { result ≡ other_length columns (named_rules call.now) }
{
    match call {
        Call::Add { rule, .. } | Call::Remove { rule, .. } => other_rule(columns, rule),
        Call::AddAll { rules, .. }
        | Call::AddEx { rules, .. }
        | Call::RemoveAll { rules, .. }
        | Call::UpdateFiltered { rules, .. } => first_other(columns, rules),
        Call::Update { pairs, .. } => first_other_of_pairs(columns, pairs.as_slice()),
        Call::RemoveFiltered { .. } | Call::DeleteUser { .. } | Call::DeleteRole { .. } => None,
    }
}

fn other_rule(columns: u32, rule: &Rule) -> Option<CallRefused>
    ensures { result ≡ other_length columns (rule.now ∷ []) }
{
    let got = rule.len();
    if got == columns {
        None
    } else {
        Some(CallRefused::Columns { want: columns, got })
    }
}

fn first_other(columns: u32, rules: &Rules) -> Option<CallRefused>
    ensures { result ≡ other_length columns rules.now }
{
    for at in 0..rules.len() {
        if let Some(refused) = other_rule(columns, rules.at(at)) {
            return Some(refused);
        }
    }
    None
}

fn first_other_of_pairs(columns: u32, pairs: &[(Rule, Rule)]) -> Option<CallRefused>
    ensures { result ≡ other_length columns (flat_map (λ pair. pair.0 ∷ pair.1 ∷ []) pairs.now) }
{
    for pair in pairs {
        if let Some(refused) = other_rule(columns, &pair.0) {
            return Some(refused);
        }
        if let Some(refused) = other_rule(columns, &pair.1) {
            return Some(refused);
        }
    }
    None
}

// A fault of the call's filter, where it has one.
fn filter_fault(columns: u32, call: &Call) -> Option<CallRefused>
    ensures { result ≡ filter_fault columns call.now }
{
    match call {
        Call::RemoveFiltered { at, values, .. } | Call::UpdateFiltered { at, values, .. } => {
            bad_filter(columns, *at, values)
        }
        _ => None,
    }
}

fn bad_filter(columns: u32, at: u32, values: &Rule) -> Option<CallRefused>
    ensures { result ≡ bad_filter columns at values.now }
{
    if u64::from(at) + u64::from(values.len()) > u64::from(columns) {
        return Some(CallRefused::FilterPlace);
    }
    if is_open(values) {
        Some(CallRefused::EmptyFilter)
    } else {
        None
    }
}

// Whether each value is empty.
fn is_open(values: &Rule) -> bool
    ensures { result ≡ list_all (λ value. length value == 0) values.now }
{
    values.fields().iter().all(|value| value.bytes().is_empty())
}

// Whether a field of a rule that the call adds is too long.
fn has_long_field(call: &Call) -> bool
    ensures { result ≡ has_long_field (added_rules call.now) }
{
    match call {
        Call::Add { rule, .. } => is_long(rule),
        Call::AddAll { rules, .. }
        | Call::AddEx { rules, .. }
        | Call::UpdateFiltered { rules, .. } => one_is_long(rules),
        Call::Update { pairs, .. } => one_is_long(&News(pairs)),
        Call::Remove { .. }
        | Call::RemoveAll { .. }
        | Call::RemoveFiltered { .. }
        | Call::DeleteUser { .. }
        | Call::DeleteRole { .. } => false,
    }
}

fn is_long(rule: &Rule) -> bool
    ensures { result ≡ not (has_short_fields rule.now) }
{
    !has_short_fields(rule)
}

fn one_is_long<L: RuleList>(rules: &L) -> bool
    ensures { result ≡ has_long_field (L.rules rules.now) }
{
    for at in 0..rules.len() {
        if is_long(rules.at(at)) {
            return true;
        }
    }
    false
}
