ghost use Rattle.std.specs.Prelude.{◌≡◌, ◌<◌, ◌≤◌, [], IfErr, List, None, OnOk, length, map};
ghost use Rattle.std.specs.List.{AllZip};
ghost use Rattle.decision.specs.Programs.{Suits};
ghost use Rattle.live_rounds.specs.Administrators.{IsAdminBehind};
ghost use Rattle.live_rounds.specs.Scripts.{AreAllShared, AreSomeShared};
ghost use Rattle.policy_state.specs.States.{StandsFor, tables};
ghost use Rattle.regex_gate.specs.Refusals.{IsUsed};
ghost use Rattle.script_read.specs.Said.{Said};
ghost use Rattle.script_read.specs.Script.{IsScript};
ghost use Rattle.version_log.specs.Log.{versions};

use crate::gate::Gate;
use crate::rounds::run_rounds;
use crate::taker::{TakeStop, Taker};
use decision::Program;
use live_pair::{Naming, OpenedBook, Places, open_pair};
use policy_desk::Desk;
use regex_gate::Finder;
use session_meaning::plain_lines_are_shared;
use std::alloc::Global;
use std::marker::Brand;
use std::sync::Wait;
use std::thread::Threads;

/// Does a script whose text was checked, and whose requests are answered by workers, beside the administrator that does all other
/// items in their order. There is one line for each item, numbered from 1; those of a round are taken when it is over, before the
/// next one is read. A pair of copies of the desk's policy is opened for them, with a seat for
/// each worker as far as there are places. It may wait for seats that are inside. Where memory runs out the lines that were
/// not taken yet are dropped. The finders are in their places, whatever the answer.
pub fn run_shared<R: Threads + Wait + Sync, P: Finder, G: Gate, H: Places, X, T: Taker<X>>(
    rt: &R,
    alloc: Global,
    desk: Desk,
    program: &Program,
    json: bool,
    script: &str,
    workers: u32,
    finders: &mut Vec<P>,
    gate: &G,
    places: &mut H,
    taker: &T,
    to: &mut X,
) -> Result<(), TakeStop>
    requires some { 0 < workers }
    requires few { workers ≤ 8 }
    requires finders { workers < length finders.old.items }
    requires suits { Suits program.now desk.state.shapes }
    requires opening { versions desk.state.log ≡ 0 }
    requires none_pending { desk.pending ≡ [] }
    requires keeps_all { desk.kept ≡ None }
    requires checked { (items : List Said) × IsScript json script.now items }
    ensures shared { OnOk result ((items : List Said) → IsScript json script.now items
        → AreAllShared T.took program.now desk.state.shapes (tables desk.state) workers
        (map P.refusals finders.old.items) (map P.refusals finders.new.items) items
        to.old to.new) }
    ensures amid { IfErr result (λ stop. (items : List Said) → IsScript json script.now items
        → AreSomeShared T.took program.now desk.state.shapes (tables desk.state) workers
        (map P.refusals finders.old.items) (map P.refusals finders.new.items) items
        T.stopped to.old to.new stop) }
    ensures used { AllZip IsUsed (map P.refusals finders.old.items)
        (map P.refusals finders.new.items) }
    ensures counted { H.faults places.old ≤ H.faults places.new }
{
    desk.holds();
    let opened = OpenedBook::new();
    let script = Told { json, text: script };
    run_over::<Brand, R, P, G, H, X, T>(
        rt, alloc, opened, desk, program, script, workers, finders, gate, places, taker, to,
    )
}

// The text of a script, and whether its requests are JSON. A call that names a pair takes no bare `&str`.
#[derive(Clone, Copy)]
struct Told<'a> {
    json: bool,
    text: &'a str,
}

// The same for a pair that this call names.
fn run_over<
    J: Naming + Send + Sync,
    R: Threads + Wait + Sync,
    P: Finder,
    G: Gate,
    H: Places,
    X,
    T: Taker<X>,
>(
    rt: &R,
    alloc: Global,
    opened: OpenedBook,
    desk: Desk,
    program: &Program,
    script: Told,
    workers: u32,
    finders: &mut Vec<P>,
    gate: &G,
    places: &mut H,
    taker: &T,
    to: &mut X,
) -> Result<(), TakeStop>
    requires book { opened ≡ J.book }
    requires shapes { desk.state.shapes ≡ J.shapes }
    requires stands { StandsFor desk.state J.opening J.first }
    requires first { J.first ≡ [] }
    requires pending { desk.pending ≡ [] }
    requires some { 0 < workers }
    requires few { workers ≤ 8 }
    requires finders { workers < length finders.old.items }
    requires suits { Suits program.now J.shapes }
    requires keeps_all { desk.kept ≡ None }
    requires opening { versions desk.state.log ≡ 0 }
    requires checked { (items : List Said) × IsScript script.json script.text.now items }
    ensures shared { OnOk result ((items : List Said)
        → IsScript script.entry.json script.entry.text.now items
        → AreAllShared T.took program.now J.shapes J.opening workers
        (map P.refusals finders.old.items) (map P.refusals finders.new.items) items
        to.old to.new) }
    ensures amid { IfErr result (λ stop. (items : List Said)
        → IsScript script.entry.json script.entry.text.now items
        → AreSomeShared T.took program.now J.shapes J.opening workers
        (map P.refusals finders.old.items) (map P.refusals finders.new.items) items
        T.stopped to.old to.new stop) }
    ensures used { AllZip IsUsed (map P.refusals finders.old.items)
        (map P.refusals finders.new.items) }
    ensures counted { H.faults places.old ≤ H.faults places.new }
{
    desk.holds();
    plain_lines_are_shared();
    let pair = open_pair::<J, R, H>(rt, alloc, opened, desk, workers as u8, places)?;
    let (mut admin, mut seats) = pair;
    let shared = run_rounds(
        rt,
        alloc,
        &mut admin,
        &mut seats,
        finders,
        workers,
        program,
        script.json,
        script.text,
        gate,
        taker,
        to,
    );
    drop(admin.close(rt));
    shared
}
