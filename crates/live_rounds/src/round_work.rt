ghost use Rattle.std.specs.Prelude.{◌≡◌, ◌<◌, IfOk, List, OnErr, drop, length, map, take};
ghost use Rattle.std.specs.List.{AllZip};
ghost use Rattle.decision.specs.Programs.{Suits};
ghost use Rattle.live_rounds.specs.Administrators.{IsAdminAmid, IsAdminBehind};
ghost use Rattle.live_rounds.specs.Helps.Posts.{AreKept};
ghost use Rattle.live_rounds.specs.Helps.Turns.{AreOthersDone};
ghost use Rattle.live_rounds.specs.Stretches.{items_of};
ghost use Rattle.regex_gate.specs.Refusals.{IsUsed};
ghost use Rattle.script_read.specs.Said.{Said};
ghost use Rattle.version_log.specs.Log.{versions};

use crate::beside::OthersDone;
use crate::crew::muster;
use crate::dismissal::dismiss;
use crate::gate::Gate;
use crate::stretch::Stretch;
use crate::together::work_together;
use answer_lines::WaitingAnswers;
use decision::Program;
use live_pair::{Admin, Naming, Seat};
use outside::NoMemory;
use regex_gate::Finder;
use std::alloc::Global;
use std::sync::Wait;
use std::thread::Threads;

/// What a round was answered by workers and the administrator: what is kept of each worker's replies, and what was answered to the
/// items that are no requests.
#[derive(Drop)]
pub(crate) struct Worked {
    pub kept: Vec<WaitingAnswers>,
    pub others: OthersDone,
}

/// Workers answer the parts of a round at their seats, beside the administrator; seats and finders are
/// back in their places afterwards, whatever the answer. The replies at a seat that is above the administrator's version are not kept.
pub(crate) fn work_round<J: Naming + Send + Sync, R: Threads + Wait + Sync, P: Finder, G: Gate>(
    rt: &R,
    alloc: Global,
    program: &Program,
    round: &Stretch<'_>,
    parts: &[Stretch<'_>],
    gate: &G,
    admin: &mut Admin<J>,
    seats: &mut Vec<Seat<J>>,
    finders: &mut Vec<P>,
) -> Result<Worked, NoMemory>
    requires suits { Suits program.now J.shapes }
    requires enough { length parts.now < length finders.old.items }
    ensures kept { IfOk result (λ worked. AreKept program.now J.shapes J.opening
        (versions admin.new.desk.state.log) (map items_of parts.now)
        seats.old.items seats.new.items
        (drop 1 (map P.refusals finders.old.items))
        (drop 1 (map P.refusals finders.new.items))
        worked.kept.items) }
    ensures done { IfOk result (λ worked. AreOthersDone J.shapes J.opening (items_of round.now)
        admin.old admin.new worked.others) }
    ensures stopped { OnErr result ((before : List Said)
        → IsAdminBehind J.shapes J.opening before admin.old
        → IsAdminAmid J.shapes J.opening before (items_of round.now) admin.new) }
    ensures first { take 1 finders.new.items ≡ take 1 finders.old.items }
    ensures used { AllZip IsUsed (map P.refusals finders.old.items)
        (map P.refusals finders.new.items) }
{
    let mut kept = Vec::with_capacity(alloc, parts.len())?;
    let mut crew = muster(alloc, seats, finders, parts)?;
    let posts = &mut crew.posts;
    let others = work_together(rt, alloc, program, round, gate, admin, parts, posts);
    let version = admin.desk().state().version();
    let whole = dismiss(alloc, crew, version, seats, finders, &mut kept);
    let others = others?;
    if !whole {
        return Err(NoMemory);
    }
    Ok(Worked { kept, others })
}
