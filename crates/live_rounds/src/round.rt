ghost use Rattle.std.specs.Prelude.{◌≡◌, ◌<◌, ◌≤◌, IfOk, List, OnErr, length, map};
ghost use Rattle.std.specs.List.{AllZip};
ghost use Rattle.decision.specs.Programs.{Suits};
ghost use Rattle.live_rounds.specs.Administrators.{IsAdminAmid, IsAdminBehind};
ghost use Rattle.live_rounds.specs.Done.{IsRun};
ghost use Rattle.live_rounds.specs.Stretches.{IsCounted, items_of};
ghost use Rattle.regex_gate.specs.Refusals.{IsUsed};
ghost use Rattle.script_read.specs.Said.{Said};

use crate::asks::answer_asks;
use crate::gate::Gate;
use crate::round_lines::RoundLines;
use crate::round_work::{Worked, work_round};
use crate::seat_fronts::learn_seats;
use crate::shares::push_parts;
use crate::stretch::Stretch;
use decision::Program;
use live_pair::{Admin, Naming, Seat};
use outside::NoMemory;
use regex_gate::Finder;
use std::alloc::Global;
use std::sync::Wait;
use std::thread::Threads;

/// One round of a session. The requests are cut into contiguous shares, one for each
/// worker, and worker k answers share k at seat k by finder k + 1, while the administrator does all other items in their order.
/// What no seat answers is answered at the desk at the round's end, by the first finder: where there is no such seat, from an entry
/// that was refused on, and where the seat has a version above the desk's. At its beginning and its end each seat learns the
/// administrator's front. There is one line for each item, as it is printed. It may wait for seats that are inside. Where memory runs out the
/// administrator stands behind some of the first items, and the lines are dropped; seats and finders are in their places, whatever
/// the answer.
pub fn run_round<J: Naming + Send + Sync, R: Threads + Wait + Sync, P: Finder, G: Gate>(
    rt: &R,
    alloc: Global,
    admin: &mut Admin<J>,
    seats: &mut Vec<Seat<J>>,
    finders: &mut Vec<P>,
    workers: u32,
    program: &Program,
    round: &Stretch<'_>,
    gate: &G,
) -> Result<RoundLines, NoMemory>
    requires some { 0 < workers }
    requires few { workers ≤ 8 }
    requires finders { workers < length finders.old.items }
    requires suits { Suits program.now J.shapes }
    requires counted { IsCounted round.now }
    requires stands { (before : List Said) × (round.now.before ≡ length before)
        × IsAdminBehind J.shapes J.opening before admin.old }
    ensures run { IfOk result (λ lines. (before : List Said) → round.now.before ≡ length before
        → IsAdminBehind J.shapes J.opening before admin.old
        → IsRun program.now J.shapes J.opening workers before (items_of round.now) admin.new
        seats.old.items seats.new.items (map P.refusals finders.old.items)
        (map P.refusals finders.new.items) lines) }
    ensures stopped { OnErr result ((before : List Said)
        → IsAdminBehind J.shapes J.opening before admin.old
        → IsAdminAmid J.shapes J.opening before (items_of round.now) admin.new) }
    ensures used { AllZip IsUsed (map P.refusals finders.old.items)
        (map P.refusals finders.new.items) }
{
    let mut parts = Vec::new(alloc);
    push_parts(&mut parts, round.again(), workers - 1)?;
    learn_seats(seats, &admin.front());
    let parts = parts.as_slice();
    let worked = work_round(
        rt, alloc, program, round, parts, gate, admin, seats, finders,
    );
    learn_seats(seats, &admin.front());
    let Worked { kept, others } = worked?;
    let state = admin.desk().state();
    let asked = answer_asks(alloc, state, program, parts, kept, &mut finders[0])?;
    Ok(RoundLines::new(alloc, round.before, asked, others))
}
