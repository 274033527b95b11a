ghost use Rattle.std.specs.Prelude.{◌≡◌, IfSome, Some, map};
ghost use Rattle.perm_value.specs.Seen.{datum};
ghost use Rattle.decision.specs.Helps.Asked.{DecideAlone, KnowsName, ServesFor, case_in};
ghost use Rattle.decision.specs.Helps.KeptPlans.{asked_seen, pair_seen};
ghost use Rattle.decision.specs.Helps.PlainParts.{IsAnswered, IsToldBy, field_at, has_same_text};
ghost use Rattle.decision.specs.Helps.PlainParts.{have_same_texts};

use crate::asking::Asking;
use crate::found_rows::domain_at;
use crate::links::StateLinks;
use crate::looked::text_at;
use crate::plan::{AskedColumns, EqualColumns, KeptPlan};
use matcher_code::Links;
use matcher_meaning::case_answer_is_there;
use perm_base::Rule;
use perm_value::Request;

/// The parts of a matcher that compares columns, asks for a role at most once, and does nothing else.
#[derive(Clone, Copy)]
pub(crate) struct PlainParts<'a> {
    pub(crate) pairs: &'a [EqualColumns],
    pub(crate) question: Option<AskedColumns>,
}

/// The parts of the matcher, where it has no others, by a plan that serves for the request.
pub(crate) fn plain_parts_of<'a>(
    asking: &Asking<'_>,
    plan: Option<&'a KeptPlan>,
) -> Option<PlainParts<'a>>
    requires { IfSome plan (λ plan. ServesFor asking.now plan.now) }
    ensures { IfSome result (DecideAlone asking.now) }
{
    case_answer_is_there();
    let Some(plan) = plan else {
        return None;
    };
    if !plan.plain {
        return None;
    }
    Some(PlainParts {
        pairs: plan.pairs.as_slice(),
        question: plan.question,
    })
}

/// What a row says to parts; none where the request lacks a text that is asked about.
#[inline(always)]
pub(crate) fn told_by(asking: &Asking, row: &Rule, parts: PlainParts<'_>) -> Option<bool>
    requires { KnowsName asking.now }
    ensures { IfSome result (IsToldBy (case_in asking.now) row.now parts.entry) }
{
    if !have_same_texts(asking.request, row, parts.pairs) {
        return Some(false);
    }
    let Some(question) = parts.question else {
        return Some(true);
    };
    is_linked(asking, row, question)
}

// Whether a row has the texts of a request in the columns that are compared.
#[inline(always)]
fn have_same_texts(request: &Request, row: &Rule, pairs: &[EqualColumns]) -> bool
    ensures { result ≡ have_same_texts (map datum request.now) row.now pairs.now }
{
    pairs.iter().all(|pair| has_same_text(request, row, *pair))
}

// Whether it has that of one pair.
#[inline(always)]
fn has_same_text(request: &Request, row: &Rule, pair: EqualColumns) -> bool
    ensures { result ≡ has_same_text (map datum request.now) row.now (pair_seen pair) }
{
    let Some(text) = text_at(request, pair.request) else {
        return false;
    };
    text == field_at(row, pair.policy)
}

// Whether the name that a question asks about has the role of a row.
fn is_linked(asking: &Asking, row: &Rule, question: AskedColumns) -> Option<bool>
    requires { KnowsName asking.now }
    ensures { IfSome result
        (IsAnswered (case_in asking.now) row.now (Some (asked_seen question))) }
{
    let Some(name) = text_at(asking.request, question.request) else {
        return None;
    };
    let Some(domain) = domain_at(asking.request, question.domain) else {
        return None;
    };
    let links = StateLinks {
        state: asking.state,
        asked_name: asking.asked_name,
    };
    let role = field_at(row, question.policy);
    Some(links.linked(question.relation, name, role, domain))
}

// The field of a row in a column; one that it lacks is the empty text.
fn field_at(row: &Rule, column: u32) -> &[u8]
    ensures { result.now ≡ field_at row.now column }
{
    if column < row.len() {
        row.field(column)
    } else {
        b""
    }
}
