ghost use Rattle.std.specs.Prelude.{◌≡◌, IfSome, option_copied};
ghost use Rattle.policy_state.specs.Asked.{IsAskedOf};
ghost use Rattle.decision.specs.Helps.Asked.{DecideAlone, IsAsked, KnowsName, KnowsParts};
ghost use Rattle.decision.specs.Helps.ReachedNames.{KnowsLinks};

use crate::asking::Asking;
use crate::found_rows::domain_at;
use crate::links::AskedName;
use crate::looked::{Looked, text_at};
use crate::plain_parts::PlainParts;
use perm_base::TableId;
use policy_state::PolicyState;
use role_domain::Room;

/// From how many rows on what their name reaches is found before they are asked.
const MANY_ROWS: usize = 8;

/// The name that the rows ask about, and what it reaches, found once for all of them where there are many; what it reaches stands in
/// `room`. It takes no memory.
pub(crate) fn name_asked<'a>(
    asking: &Asking<'a>,
    looked: Looked<'_>,
    room: &'a mut Room,
) -> Option<AskedName<'a>>
    ensures { IfSome result (KnowsLinks asking.now.state.now) }
{
    let Some(question) = asking.question else {
        return None;
    };
    if asks_few(asking, looked) {
        return None;
    }
    let Some(name) = text_at(asking.request, question.request) else {
        return None;
    };
    let Some(shape) = asking.state.shapes().roles.find(question.relation) else {
        return None;
    };
    let Some(domain) = domain_at(asking.request, question.domain) else {
        return None;
    };
    if shape.with_domain != domain.is_some() {
        return None;
    }
    name_in(asking.state, question.relation, name, domain, room)
}

/// Whether few rows are asked.
pub(crate) fn asks_few(asking: &Asking, looked: Looked<'_>) -> bool {
    rows_asked(asking, looked) < MANY_ROWS
}

// How many rows are asked.
fn rows_asked(asking: &Asking, looked: Looked<'_>) -> usize {
    if !asking.by_row {
        return 0;
    }
    match looked {
        Looked::All => asking.state.tables().len(TableId::P) as usize,
        Looked::Nothing => 0,
        Looked::At(places) => places.len(),
    }
}

// A name and what it reaches, in a relation that is asked in its way; none where no rule names the domain.
fn name_in<'a>(
    state: &'a PolicyState,
    relation: u8,
    name: &'a [u8],
    domain: Option<&'a [u8]>,
    room: &'a mut Room,
) -> Option<AskedName<'a>>
    requires asked { IsAskedOf state.now.shapes relation (option_copied domain) }
    ensures { IfSome result (KnowsLinks state.now) }
{
    let Some(reach) = state.reach(relation, name, domain, room) else {
        return None;
    };
    Some(AskedName {
        relation,
        name,
        domain,
        reach,
    })
}

/// The same with a name that its rows ask about, or none, and with the parts that decide alone, or none.
pub(crate) fn with_known<'a>(
    asking: &Asking<'a>,
    name: Option<&'a AskedName<'a>>,
    parts: Option<PlainParts<'a>>,
) -> Asking<'a>
    requires asked { IsAsked asking.now }
    requires knows { IfSome (option_copied name) (KnowsLinks asking.now.state.now) }
    requires parts { IfSome parts (DecideAlone asking.now) }
    ensures asked { IsAsked result }
    ensures knows { KnowsName result }
    ensures parts { KnowsParts result }
    ensures model { result.model.now ≡ asking.now.model.now }
    ensures state { result.state.now ≡ asking.now.state.now }
    ensures request { result.request.now ≡ asking.now.request.now }
{
    Asking {
        alloc: asking.alloc,
        model: asking.model,
        code: asking.code,
        by_row: asking.by_row,
        effect_place: asking.effect_place,
        domain_place: asking.domain_place,
        plan: asking.plan,
        question: asking.question,
        asked_name: name,
        parts,
        state: asking.state,
        request: asking.request,
    }
}
