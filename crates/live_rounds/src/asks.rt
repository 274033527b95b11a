ghost use Rattle.std.specs.Prelude.{◌≡◌, IfOk, OnOk, drop, length, map};
ghost use Rattle.std.specs.List.{AllByRecursion};
ghost use Rattle.decision.specs.Programs.{Suits};
ghost use Rattle.live_rounds.specs.Helps.Asked.{AddsAnswered, AddsShared, AreShared, first_kept, others_kept};
ghost use Rattle.live_rounds.specs.Requests.{requests};
ghost use Rattle.live_rounds.specs.Stretches.{IsCounted, items_of};
ghost use Rattle.regex_gate.specs.Refusals.{IsUsed};

use crate::stretch::Stretch;
use answer_lines::WaitingAnswers;
use decision::{Program, Scratch};
use desk_session::print_asked;
use outside::NoMemory;
use policy_state::PolicyState;
use regex_gate::Finder;
use script_read::FirstItem;
use std::alloc::Global;
use std::vec::IntoIter;

/// The replies to the requests of a round, those of each of its parts in their order: what is kept for a part, and for its other
/// requests what they are answered over a policy.
pub(crate) fn answer_asks<P: Finder>(
    alloc: Global,
    state: &PolicyState,
    program: &Program,
    parts: &[Stretch<'_>],
    kept: Vec<WaitingAnswers>,
    finder: &mut P,
) -> Result<Vec<WaitingAnswers>, NoMemory>
    requires suits { Suits program.now state.now.shapes }
    requires counted { AllByRecursion IsCounted parts.now }
    ensures shared { IfOk result (λ asked. AreShared program.now state.now
        (map items_of parts.now) kept.items
        (P.refusals finder.old) (P.refusals finder.new) asked.items) }
    ensures used { IsUsed (P.refusals finder.old) (P.refusals finder.new) }
{
    let mut asked = Vec::new(alloc);
    let mut kept = kept.into_iter();
    answer_parts(alloc, state, program, parts, &mut kept, finder, &mut asked)?;
    Ok(asked)
}

// Puts them behind those of other parts.
fn answer_parts<P: Finder>(
    alloc: Global,
    state: &PolicyState,
    program: &Program,
    parts: &[Stretch<'_>],
    kept: &mut IntoIter<WaitingAnswers>,
    finder: &mut P,
    asked: &mut Vec<WaitingAnswers>,
) -> Result<(), NoMemory>
    requires suits { Suits program.now state.now.shapes }
    requires counted { AllByRecursion IsCounted parts.now }
    ensures shared { OnOk result (AddsShared program.now state.now
        (map items_of parts.now) kept.old.rest.items
        (P.refusals finder.old) (P.refusals finder.new) asked.old.items asked.new.items) }
    ensures used { IsUsed (P.refusals finder.old) (P.refusals finder.new) }
{
    let Some((part, others)) = parts.split_first() else {
        return Ok(());
    };
    let replies = next_kept(alloc, kept);
    let all = answer_part(alloc, state, program, part, replies, finder)?;
    asked.push(all)?;
    answer_parts(alloc, state, program, others, kept, finder, asked)
}

// What is kept for the next part: nothing where there is none.
fn next_kept(alloc: Global, kept: &mut IntoIter<WaitingAnswers>) -> WaitingAnswers
    ensures first { result ≡ first_kept kept.old.rest.items }
    ensures others { kept.new.rest.items ≡ others_kept kept.old.rest.items }
{
    let Some(replies) = kept.next() else {
        return WaitingAnswers::new(alloc);
    };
    replies
}

// What is kept for a part, and behind it the replies to its other requests.
fn answer_part<P: Finder>(
    alloc: Global,
    state: &PolicyState,
    program: &Program,
    part: &Stretch<'_>,
    kept: WaitingAnswers,
    finder: &mut P,
) -> Result<WaitingAnswers, NoMemory>
    requires suits { Suits program.now state.now.shapes }
    requires counted { IsCounted part.now }
    ensures shared { IfOk result (AddsAnswered program.now state.now
        (P.refusals finder.old) (P.refusals finder.new)
        (drop (length kept) (requests (items_of part.now))) kept) }
    ensures used { IsUsed (P.refusals finder.old) (P.refusals finder.new) }
{
    let skipped = kept.len();
    if skipped >= part.requests {
        return Ok(kept);
    }
    let mut all = kept;
    answer_left(alloc, state, program, part, skipped, finder, &mut all)?;
    Ok(all)
}

// Answers the requests among items over a policy, but for so many of the first ones, and puts the replies behind others.
fn answer_left<P: Finder>(
    alloc: Global,
    state: &PolicyState,
    program: &Program,
    part: &Stretch<'_>,
    skipped: usize,
    finder: &mut P,
    asked: &mut WaitingAnswers,
) -> Result<(), NoMemory>
    requires suits { Suits program.now state.now.shapes }
    ensures added { OnOk result (AddsAnswered program.now state.now
        (P.refusals finder.old) (P.refusals finder.new)
        (drop skipped (requests (items_of part.now))) asked.old asked.new) }
    ensures used { IsUsed (P.refusals finder.old) (P.refusals finder.new) }
{
    let mut scratch = Scratch::for_program(alloc, program);
    let mut values = Vec::new(alloc);
    let mut rest = part.items.again();
    let mut left = skipped;
    let mut number = part.before;
    while let Some(first) = rest.next_told() {
        number = number.saturating_add(1);
        let FirstItem::Request(request) = first else {
            continue;
        };
        if left > 0 {
            left -= 1;
            continue;
        }
        asked.expect(number);
        print_asked(
            alloc,
            asked,
            state,
            program,
            request,
            finder,
            &mut scratch,
            &mut values,
        )?;
    }
    Ok(())
}
