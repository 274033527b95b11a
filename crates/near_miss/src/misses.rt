ghost use Rattle.std.specs.Prelude.{◌≡◌, ◌++◌, ◌∷◌, [], IfOk, OnOk, map};
ghost use Rattle.perm_value.specs.Seen.{datum};
ghost use Rattle.policy_state.specs.States.{tables};
ghost use Rattle.regex_gate.specs.Refusals.{IsRefused, IsUsed};
ghost use Rattle.near_miss.specs.Misses.{AreNearMisses, misses_from};

use crate::explainer::Explainer;
use crate::row::{Asking, lack};
use matcher_code::{KeptRules, Stack, WideStack};
use matcher_meaning::case_answer_is_there;
use outside::NoMemory;
use perm_base::TableId;
use perm_value::Request;
use policy_state::PolicyState;
use regex_gate::Finder;
use std::alloc::Global;

/// A row of p, by its number, which counts from 1, and the place of the one part that it lacks, which counts from 0.
#[derive(Clone, Copy, Debug, PartialEq, Eq)]
pub struct NearMiss {
    pub row: u32,
    pub part: usize,
}

/// The first rows of p, so many at most, for which one part of the matcher is false and all others are true, in the order
/// of p, each with that part. A part that fails is not false, also where it fails at a search that the finder refuses.
/// Its time is linear in the rows up to the last one that is told, times the parts.
pub fn near_misses<P: Finder>(
    alloc: Global,
    explainer: &Explainer,
    state: &PolicyState,
    request: &Request,
    most: u32,
    finder: &mut P,
) -> Result<Vec<NearMiss>, NoMemory>
    ensures misses { IfOk result (λ misses. AreNearMisses
        state.now.shapes (tables state.now) (map datum request.now)
        (IsRefused (P.refusals finder.old) (P.refusals finder.new))
        explainer.now most misses.items) }
    ensures used { IsUsed (P.refusals finder.old) (P.refusals finder.new) }
{
    case_answer_is_there();
    let asking = Asking {
        alloc,
        parts: explainer.parts.as_slice(),
        state,
        request,
    };
    let mut kept = KeptRules::new();
    let mut stack: WideStack = Stack::new();
    let mut misses = Vec::new(alloc);
    let mut number = 0;
    for row in state.tables().rows(TableId::P) {
        if misses.len() >= most as usize {
            return Ok(misses);
        }
        number += 1;
        let lack = lack(&asking, row, finder, &mut kept, &mut stack)?;
        push_lack(&mut misses, number, lack)?;
    }
    Ok(misses)
}

// Pushes a row, by its number, where it lacks one part.
fn push_lack(misses: &mut Vec<NearMiss>, row: u32, lack: Option<usize>) -> Result<(), NoMemory>
    ensures { OnOk result
        (misses.new.items ≡ misses.old.items ++ misses_from row (lack ∷ [])) }
{
    if let Some(part) = lack {
        misses.push(NearMiss { row, part })?;
    }
    Ok(())
}
