ghost use Rattle.std.specs.Prelude.{◌≡◌, IfSome, IsTrue, map, option_and_then, option_copied, option_map};
ghost use Rattle.std.specs.List.{list_all};
ghost use Rattle.perm_value.specs.Seen.{datum, datum_of_view};
ghost use Rattle.matcher_meaning.specs.Calls.{text_of};
ghost use Rattle.decision.specs.Helps.Asked.{IsAsked, ServesFor, case_in, rows_of};
ghost use Rattle.decision.specs.Helps.LeftOut.{LeavesOut};
ghost use Rattle.decision.specs.Helps.KeptPlans.{has_text_at, serves, value_at};

use crate::asking::Asking;
use crate::found_rows::{Gathered, gather};
use crate::plan::KeptPlan;
use matcher_meaning::case_answer_is_there;
use perm_value::{Request, View};
use policy_index::{RowKey, put_in_order};

/// The rows of p to look at: all of them, none, or those at these places, which count from 0 and rise.
#[derive(Clone, Copy)]
pub(crate) enum Looked<'a> {
    All,
    Nothing,
    At(&'a [u32]),
}

/// The plan of the model, where it serves for the request.
pub(crate) fn serving_plan<'a>(asking: &Asking<'a>) -> Option<&'a KeptPlan>
    requires { IsAsked asking.now }
    ensures { IfSome result (λ plan. ServesFor asking.now plan.now) }
{
    let Some(plan) = asking.plan else {
        return None;
    };
    if !serves(asking, plan) {
        return None;
    }
    Some(plan)
}

/// Which rows of p the request has to be judged by, by a plan that serves for it; the matcher does not hold for any other. Their
/// places take the place of what `found` held; where there is no memory for them, all rows are looked at.
pub(crate) fn looked_at<'a>(
    asking: &Asking<'_>,
    plan: Option<&KeptPlan>,
    found: &'a mut Vec<u32>,
) -> Looked<'a>
    requires asked { IsAsked asking.now }
    requires serves { IfSome plan (λ plan. ServesFor asking.now plan.now) }
    ensures { LeavesOut (case_in asking.now) (rows_of asking.now) result }
{
    case_answer_is_there();
    asking.state.kept();
    found.clear();
    let Some(plan) = plan else {
        return Looked::All;
    };
    let Some(index) = asking.state.index() else {
        return Looked::All;
    };
    if !is_key(index.key(), &plan.key) {
        return Looked::All;
    }
    match gather(asking, plan, index, found) {
        Ok(Gathered::Slots) => {
            put_in_order(asking.state.tables(), found);
            Looked::At(found.as_slice())
        }
        Ok(Gathered::Nothing) => Looked::Nothing,
        Ok(Gathered::Unknown) | Err(_) => Looked::All,
    }
}

// Whether the plan serves: the request has as many values as the model wants, the rows have the model's columns, and the parts of the
// matcher that count are asked with texts.
fn serves(asking: &Asking, plan: &KeptPlan) -> bool
    ensures { result ≡ serves asking.now.model.now asking.now.state.now.shapes
        asking.now.request.now plan.now }
{
    asking.request.len() == asking.model.request_columns().len()
        && asking.model.policy_columns().len() <= asking.state.shapes().columns
        && have_texts(asking.request, plan.names.as_slice())
}

// Whether an index has the key that is wanted.
fn is_key(key: &RowKey, wanted: &RowKey) -> bool
    ensures { IsTrue result → key.now ≡ wanted.now }
{
    key.pattern() == wanted.pattern() && key.columns() == wanted.columns()
}

// Whether a request has a text at each of these places.
fn have_texts(request: &Request, places: &[Option<u32>]) -> bool
    ensures { result ≡ list_all (has_text_at (map datum request.now)) places.now }
{
    places.iter().all(|place| has_text_at(request, *place))
}

fn has_text_at(request: &Request, place: Option<u32>) -> bool
    ensures { result ≡ has_text_at (map datum request.now) place }
{
    match value_at(request, place) {
        Some(value) => text_of(value).is_some(),
        None => false,
    }
}

/// What a request has at a place.
pub(crate) fn value_at(request: &Request, place: Option<u32>) -> Option<View<'_>>
    ensures { option_map datum_of_view result ≡ value_at (map datum request.now) place }
{
    let at = place?;
    if at >= request.len() {
        return None;
    }
    Some(request.value(at))
}

/// The text that a value is.
pub(crate) fn text_of(value: View<'_>) -> Option<&[u8]>
    ensures { option_copied result ≡ text_of (datum_of_view value.entry) }
{
    match value {
        View::Text(text) => Some(text),
        _ => None,
    }
}

/// The text that a request has at a place.
pub(crate) fn text_at(request: &Request, place: Option<u32>) -> Option<&[u8]>
    ensures { option_copied result
        ≡ option_and_then text_of (value_at (map datum request.now) place) }
{
    match value_at(request, place) {
        Some(value) => text_of(value),
        None => None,
    }
}
