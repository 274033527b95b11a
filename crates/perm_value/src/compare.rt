ghost use Rattle.std.specs.Prelude.{◌≡◌, IsTrue, ◌↔◌, map};
ghost use Rattle.std.specs.Cmp.{partial_equiv_from_equiv};
ghost use Rattle.perm_value.specs.Helps.EqualityLaws.{request_eq-equiv, value_eq-equiv, view_eq-laws};
ghost use Rattle.perm_value.specs.Equality.{datum_eq, items_eq, members_eq, request_eq, value_eq, view_eq};
ghost use Rattle.perm_value.specs.Seen.{datum, datum_of_view, items, members};

use crate::request::Request;
use crate::value::{Value, View};
use std::collections::BTreeMap;

/// Views are equal where they have the same kind and content: texts by their bytes, lists by their items in order, objects
/// by their names and values. It takes no memory.
impl PartialEq for View<'_> {
    ghost eq = { view_eq };

    ghost laws = { view_eq-laws };

    fn eq(&self, other: &Self) -> bool
        ensures same { result ≡ view_eq self.now other.now }
        ensures decides { IsTrue result ↔ (datum_of_view self.now ≡ datum_of_view other.now) }
    {
        is_same(self, other)
    }
}

/// Values are equal where they stand for one datum. It takes no memory.
impl PartialEq for Value {
    ghost eq = { value_eq };

    ghost laws = { partial_equiv_from_equiv value_eq-equiv };

    fn eq(&self, other: &Value) -> bool
        ensures same { result ≡ value_eq self.now other.now }
        ensures decides { IsTrue result ↔ (datum self.now ≡ datum other.now) }
    {
        is_same(&self.view(), &other.view())
    }
}

impl Eq for Value {
    ghost laws = { value_eq-equiv };
}

/// Requests are equal where they have the same values in the same order. It takes no memory.
impl PartialEq for Request {
    ghost eq = { request_eq };

    ghost laws = { partial_equiv_from_equiv request_eq-equiv };

    fn eq(&self, other: &Request) -> bool
        ensures same { result ≡ request_eq self.now other.now }
        ensures decides { IsTrue result ↔ (map datum self.now ≡ map datum other.now) }
    {
        are_same_items(self.as_slice(), other.as_slice())
    }
}

impl Eq for Request {
    ghost laws = { request_eq-equiv };
}

// Whether both have the same kind and content.
#[cycle(same)]
fn is_same(one: &View<'_>, other: &View<'_>) -> bool
    ensures { result ≡ datum_eq (datum_of_view one.now) (datum_of_view other.now) }
{
    match (*one, *other) {
        (View::Text(text), View::Text(other)) => text == other,
        (View::Whole(number), View::Whole(other)) => number == other,
        (View::Truth(truth), View::Truth(other)) => truth == other,
        (View::List(values), View::List(others)) => are_same_items(values, others),
        (View::Object(object), View::Object(other)) => are_same_members(object, other),
        (View::Nothing, View::Nothing) => true,
        _ => false,
    }
}

#[cycle(same)]
pub(crate) fn are_same_items(values: &[Value], others: &[Value]) -> bool
    ensures { result ≡ items_eq (items values.now) (items others.now) }
{
    let mut others = others.iter();
    for value in values {
        let Some(other) = others.next() else {
            return false;
        };
        if !is_same(&value.view(), &other.view()) {
            return false;
        }
    }
    others.next().is_none()
}

#[cycle(same)]
fn are_same_members(object: &BTreeMap<String, Value>, other: &BTreeMap<String, Value>) -> bool
    ensures { result ≡ members_eq (members object.now.entries) (members other.now.entries) }
{
    let mut others = other.iter();
    for (name, value) in object.iter() {
        let Some((other_name, other_value)) = others.next() else {
            return false;
        };
        if name.as_str() != other_name.as_str() || !is_same(&value.view(), &other_value.view()) {
            return false;
        }
    }
    others.next().is_none()
}
