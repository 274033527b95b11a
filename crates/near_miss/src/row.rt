//! What one row of p lacks.

ghost use Rattle.std.specs.Prelude.{◌≡◌, IfOk, map};
ghost use Rattle.perm_value.specs.Seen.{datum};
ghost use Rattle.policy_state.specs.States.{tables};
ghost use Rattle.regex_gate.specs.Refusals.{IsRefused, IsUsed};
ghost use Rattle.near_miss.specs.Misses.{Lacks, case_at};
ghost use Rattle.near_miss.specs.Helps.Rows.{IsTruthGiven, lack_of, standing_with, truth_in};

use crate::links::StateLinks;
use crate::part::Part;
use effect_fold::Fault;
use matcher_code::{KeptRules, NoTruth, WideStack, run};
use matcher_meaning::case_answer_is_there;
use outside::NoMemory;
use perm_base::Rule;
use perm_value::{Request, View};
use policy_state::PolicyState;
use regex_gate::Finder;
use std::alloc::Global;

/// What rows are judged by: the parts of a matcher, over a policy, for a request.
#[derive(Clone, Copy)]
pub(crate) struct Asking<'a> {
    pub(crate) alloc: Global,
    pub(crate) parts: &'a [Part],
    pub(crate) state: &'a PolicyState,
    pub(crate) request: &'a Request,
}

/// How the parts so far stand for a row: all are true, or all but the one at this place, which is false; or neither.
#[derive(Clone, Copy)]
pub(crate) enum Standing {
    AllHold,
    Lacks(usize),
    Other,
}

/// The place of the part that a row lacks alone, where it is a near miss.
pub(crate) fn lack<'a, P: Finder>(
    asking: &Asking<'a>,
    row: &'a Rule,
    finder: &mut P,
    kept: &mut KeptRules,
    stack: &mut WideStack<'a>,
) -> Result<Option<usize>, NoMemory>
    ensures lacks { IfOk result (Lacks
        asking.now.state.now.shapes (tables asking.now.state.now) (map datum asking.now.request.now)
        (IsRefused (P.refusals finder.old) (P.refusals finder.new))
        asking.now.parts.now row.now) }
    ensures used { IsUsed (P.refusals finder.old) (P.refusals finder.new) }
{
    case_answer_is_there();
    let mut standing = Standing::AllHold;
    for (at, part) in asking.parts.iter().enumerate() {
        if let Standing::Other = standing {
            return Ok(None);
        }
        let truth = truth(asking, part, row, finder, kept, stack)?;
        standing = standing_with(standing, at, truth);
    }
    Ok(lack_of(standing))
}

// How the parts stand with one more, at this place.
fn standing_with(standing: Standing, at: usize, truth: Result<bool, Fault>) -> Standing
    ensures { result ≡ standing_with standing at truth }
{
    match standing {
        Standing::AllHold => match truth {
            Ok(true) => Standing::AllHold,
            Ok(false) => Standing::Lacks(at),
            Err(_fault) => Standing::Other,
        },
        Standing::Lacks(place) => match truth {
            Ok(true) => Standing::Lacks(place),
            Ok(false) => Standing::Other,
            Err(_) => Standing::Other,
        },
        Standing::Other => Standing::Other,
    }
}

// The part that lacks alone.
fn lack_of(standing: Standing) -> Option<usize>
    ensures { result ≡ lack_of standing }
{
    match standing {
        Standing::Lacks(at) => Some(at),
        Standing::AllHold | Standing::Other => None,
    }
}

// Whether a part is true for a row, or its fault.
fn truth<'a, P: Finder>(
    asking: &Asking<'a>,
    part: &'a Part,
    row: &'a Rule,
    finder: &mut P,
    kept: &mut KeptRules,
    stack: &mut WideStack<'a>,
) -> Result<Result<bool, Fault>, NoMemory>
    ensures truth { IfOk result (IsTruthGiven
        (case_at asking.now.state.now.shapes (tables asking.now.state.now)
        (map datum asking.now.request.now) row.now part.now)
        (IsRefused (P.refusals finder.old) (P.refusals finder.new))) }
    ensures used { IsUsed (P.refusals finder.old) (P.refusals finder.new) }
{
    let links = StateLinks {
        state: asking.state,
    };
    match run(
        asking.alloc,
        part.code(),
        part.model(),
        asking.request,
        Some(row),
        &links,
        finder,
        kept,
        stack,
    ) {
        Ok(value) => Ok(Ok(truth_in(value))),
        Err(NoTruth::Fault(fault)) => Ok(Err(fault)),
        Err(NoTruth::NoMemory) => Err(NoMemory),
    }
}

// The truth that a value is; other values are none.
fn truth_in(value: View) -> bool
    ensures { result ≡ truth_in value.entry }
{
    match value {
        View::Truth(truth) => truth,
        _ => false,
    }
}
