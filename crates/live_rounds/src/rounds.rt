ghost use Rattle.std.specs.Prelude.{◌≡◌, ◌+◌, ◌<◌, ◌≤◌, [], IfErr, IfSome, List, OnOk, length, map};
ghost use Rattle.std.specs.List.{AllZip};
ghost use Rattle.answer_lines.specs.Printed.{printed_line};
ghost use Rattle.answer_lines.specs.declared.answer.Line as line;
ghost use Rattle.decision.specs.Programs.{Suits};
ghost use Rattle.live_rounds.specs.Administrators.{IsAdminBehind};
ghost use Rattle.live_rounds.specs.Scripts.{AreAllShared, AreSomeShared};
ghost use Rattle.live_rounds.specs.Taken.{AreAllTaken, AreSomeTaken};
ghost use Rattle.regex_gate.specs.Refusals.{IsUsed};
ghost use Rattle.script_read.specs.Said.{Said};
ghost use Rattle.script_read.specs.Script.{IsScript};

use crate::gate::Gate;
use crate::round::run_round;
use crate::round_lines::RoundLines;
use crate::stretch::next_round;
use crate::taker::{TakeStop, Taker};
use answer_lines::PrintedLines;
use decision::Program;
use live_pair::{Admin, Naming, Seat};
use regex_gate::Finder;
use script_read::item_lines;
use session_meaning::plain_lines_are_shared;
use std::alloc::Global;
use std::sync::Wait;
use std::thread::Threads;

/// Does a script at a pair, round after round: each is read when the lines of the one before it were taken. Scripts of more items
/// than numbers of lines are for want of memory.
pub(crate) fn run_rounds<
    J: Naming + Send + Sync,
    R: Threads + Wait + Sync,
    P: Finder,
    G: Gate,
    X,
    T: Taker<X>,
>(
    rt: &R,
    alloc: Global,
    admin: &mut Admin<J>,
    seats: &mut Vec<Seat<J>>,
    finders: &mut Vec<P>,
    workers: u32,
    program: &Program,
    json: bool,
    script: &str,
    gate: &G,
    taker: &T,
    to: &mut X,
) -> Result<(), TakeStop>
    requires some { 0 < workers }
    requires few { workers ≤ 8 }
    requires finders { workers < length finders.old.items }
    requires suits { Suits program.now J.shapes }
    requires checked { (items : List Said) × IsScript json script.now items }
    requires behind { IsAdminBehind J.shapes J.opening [] admin.old }
    ensures shared { OnOk result ((items : List Said) → IsScript json script.now items
        → AreAllShared T.took program.now J.shapes J.opening workers
        (map P.refusals finders.old.items) (map P.refusals finders.new.items) items
        to.old to.new) }
    ensures amid { IfErr result (λ stop. (items : List Said) → IsScript json script.now items
        → AreSomeShared T.took program.now J.shapes J.opening workers
        (map P.refusals finders.old.items) (map P.refusals finders.new.items) items
        T.stopped to.old to.new stop) }
    ensures behind { OnOk result ((items : List Said) → IsScript json script.now items
        → IsAdminBehind J.shapes J.opening items admin.new) }
    ensures used { AllZip IsUsed (map P.refusals finders.old.items)
        (map P.refusals finders.new.items) }
{
    plain_lines_are_shared();
    let mut rest = item_lines(json, script, 1);
    let mut before: u32 = 0;
    while let Some(round) = next_round(&mut rest, before)? {
        let Some(sum) = sum_of(before, round.count) else {
            return Err(TakeStop::NoMemory);
        };
        let told = run_round(
            rt, alloc, admin, seats, finders, workers, program, &round, gate,
        )?;
        take_lines(alloc, taker, to, told)?;
        before = sum;
    }
    Ok(())
}

// Takes the lines of a round, some after the other.
fn take_lines<X, T: Taker<X>>(
    alloc: Global,
    taker: &T,
    to: &mut X,
    told: RoundLines,
) -> Result<(), TakeStop>
    ensures taken { OnOk result ((lines : List line.Line) → told ≡ map printed_line lines
        → AreAllTaken T.took to.old lines to.new) }
    ensures amid { IfErr result (λ stop. (lines : List line.Line)
        → told ≡ map printed_line lines
        → AreSomeTaken T.took T.stopped to.old lines to.new stop) }
{
    let mut left = told;
    let mut lines = PrintedLines::new(alloc);
    while left.take_some(&mut lines)? {
        taker.take(alloc, to, &lines)?;
    }
    Ok(())
}

// So many items, and so many more.
fn sum_of(count: u32, more: usize) -> Option<u32>
    ensures { IfSome result (λ sum. sum ≡ count + more) }
{
    let Ok(more) = u32::try_from(more) else {
        return None;
    };
    count.checked_add(more)
}
