ghost use Rattle.std.specs.Prelude.{◌≡◌, ◌≤◌, [], IfOk, List, None, drop, false, length, map, string_bytes};
ghost use Rattle.std.specs.List.{AllZip};
ghost use Rattle.decision.specs.Programs.{Suits};
ghost use Rattle.demo_run.specs.Demo.{IsDemo};
ghost use Rattle.demo_run.specs.DemoTexts.{model_text, policy_text, script_text};
ghost use Rattle.demo_run.specs.Helps.Sessions.{HasTally, IsFirstDesk, IsSession};
ghost use Rattle.model_conf.specs.ModelText.{IsModel};
ghost use Rattle.model_conf.specs.Shapes.{shapes_of};
ghost use Rattle.perm_base.specs.Shapes.{AreValid};
ghost use Rattle.policy_csv.specs.Policy.{IsPolicy};
ghost use Rattle.policy_state.specs.States.{tables};
ghost use Rattle.policy_table.specs.Limits.{AreSound};
ghost use Rattle.regex_gate.specs.Refusals.{IsUsed};
ghost use Rattle.script_read.specs.Said.{Said};
ghost use Rattle.script_read.specs.Script.{IsScript};
ghost use Rattle.version_log.specs.Log.{versions};

use crate::counts::{Tally, count_lines, count_printed, summary};
use crate::texts::{MODEL, policy_text, script_text};
use answer_lines::PrintedLines;
use decision::{Program, make_program};
use desk_session::run_plain;
use live_pair::Places;
use live_rounds::{Gate, TakeStop, Taker, run_shared};
use model_conf::{Model, read_model, shapes_of};
use outside::NoMemory;
use perm_base::Shapes;
use policy_csv::read_policy;
use policy_desk::{Desk, open_desk};
use policy_state::make_state;
use policy_table::Tables;
use regex_gate::Finder;
use script_read::{check_script, read_script};
use std::alloc::Global;
use std::sync::Wait;
use std::thread::Threads;

// The greatest number of links.
const MOST_LINKS: u8 = 10;

// A session before its first item, with the text of its script.
#[derive(Drop)]
struct Session {
    program: Program,
    desk: Desk,
    script: String,
}

/// The summary of the demonstration's session with so many permissions and users, done on one thread or with workers. Refused
/// is want of memory alone.
pub fn summarize<R: Threads + Wait + Sync, P: Finder, G: Gate, H: Places>(
    rt: &R,
    alloc: Global,
    count: u32,
    workers: u32,
    finders: &mut Vec<P>,
    gate: &G,
    places: &mut H,
) -> Result<String, NoMemory>
    requires few { workers ≤ 8 }
    requires nine { length finders.old.items ≡ 9 }
    ensures told { IfOk result (λ text. IsDemo count workers (string_bytes text)) }
    ensures used { AllZip IsUsed (map P.refusals finders.old.items)
        (map P.refusals finders.new.items) }
    ensures alone { workers ≡ 0 → drop 1 finders.new.items ≡ drop 1 finders.old.items }
    ensures counted { H.faults places.old ≤ H.faults places.new }
{
    let session = open_session(alloc, count)?;
    let tally = tally_of(rt, alloc, session, workers, finders, gate, places)?;
    summary(alloc, u64::from(count), tally)
}

// The lines of a session, counted.
fn tally_of<R: Threads + Wait + Sync, P: Finder, G: Gate, H: Places>(
    rt: &R,
    alloc: Global,
    session: Session,
    workers: u32,
    finders: &mut Vec<P>,
    gate: &G,
    places: &mut H,
) -> Result<Tally, NoMemory>
    requires suits { Suits session.program session.desk.state.shapes }
    requires opening { versions session.desk.state.log ≡ 0 }
    requires none_pending { session.desk.pending ≡ [] }
    requires keeps_all { session.desk.kept ≡ None }
    requires few { workers ≤ 8 }
    requires nine { length finders.old.items ≡ 9 }
    requires checked { (items : List Said) × IsScript false (string_bytes session.script) items }
    ensures lines { IfOk result (HasTally workers session.program session.desk.state.shapes
        (tables session.desk.state) (string_bytes session.script)) }
    ensures used { AllZip IsUsed (map P.refusals finders.old.items)
        (map P.refusals finders.new.items) }
    ensures alone { workers ≡ 0 → drop 1 finders.new.items ≡ drop 1 finders.old.items }
    ensures counted { H.faults places.old ≤ H.faults places.new }
{
    let Session {
        program,
        desk,
        script,
    } = session;
    let text = script.as_str();
    if workers == 0 {
        return plain_tally(alloc, desk, &program, text, &mut finders[0]);
    }
    let counting = Counting;
    let mut tally = Tally::none();
    match run_shared(
        rt, alloc, desk, &program, false, text, workers, finders, gate, places, &counting,
        &mut tally,
    ) {
        Ok(()) => Ok(tally),
        Err(_) => Err(NoMemory),
    }
}

// Counts lines.
#[derive(Clone, Copy)]
struct Counting;

impl Taker<Tally> for Counting {
    ghost use Rattle.std.specs.Prelude.{⊤};
    ghost use Rattle.demo_run.specs.Helps.Tallies.{IsTallied};

    ghost took = { λ old lines new. IsTallied old lines new };

    ghost stopped = { λ _ _ _ _. ⊤ };

    fn take(&self, _alloc: Global, to: &mut Tally, lines: &PrintedLines) -> Result<(), TakeStop> {
        count_printed(to, lines)?;
        Ok(())
    }
}

// The lines of a session on one thread, counted.
fn plain_tally<P: Finder>(
    alloc: Global,
    desk: Desk,
    program: &Program,
    script: &str,
    finder: &mut P,
) -> Result<Tally, NoMemory>
    requires suits { Suits program.now desk.state.shapes }
    requires opening { versions desk.state.log ≡ 0 }
    requires none_pending { desk.pending ≡ [] }
    requires keeps_all { desk.kept ≡ None }
    ensures plain { IfOk result
        (HasTally 0 program.now desk.state.shapes (tables desk.state) script.now) }
    ensures used { IsUsed (P.refusals finder.old) (P.refusals finder.new) }
{
    let Ok(items) = read_script(alloc, script.as_bytes(), false) else {
        return Err(NoMemory);
    };
    let mut desk = desk;
    let lines = run_plain(alloc, &mut desk, program, &items, finder)?;
    let mut tally = Tally::none();
    count_lines(&mut tally, lines.as_slice())?;
    Ok(tally)
}

// The demonstration's session with so many permissions and users. Its texts are in order, so only want of memory refuses it.
fn open_session(alloc: Global, count: u32) -> Result<Session, NoMemory>
    ensures session { IfOk result (λ session. IsSession count
        session.program session.desk (string_bytes session.script)) }
    ensures checked { IfOk result (λ session. (items : List Said)
        × IsScript false (string_bytes session.script) items) }
{
    let script = demo_script(alloc, count)?;
    let made = demo_program(alloc)?;
    let (program, shapes) = made;
    let desk = demo_desk(alloc, &program, shapes, count)?;
    Ok(Session {
        program,
        desk,
        script,
    })
}

// The program of its model, and the shapes of its policies.
fn demo_program(alloc: Global) -> Result<(Program, Shapes), NoMemory>
    ensures model { IfOk result (λ made. IsModel model_text made.0) }
    ensures shapes { IfOk result (λ made. made.1 ≡ shapes_of made.0 [] [] 10) }
    ensures valid { IfOk result (λ made. AreValid made.1) }
    ensures suits { IfOk result (λ made. Suits made.0 made.1) }
{
    let model = demo_model(alloc)?;
    let shapes = demo_shapes(alloc, &model)?;
    let program = make_program(alloc, model)?;
    Ok((program, shapes))
}

// The desk over its policy.
fn demo_desk(alloc: Global, program: &Program, shapes: Shapes, count: u32) -> Result<Desk, NoMemory>
    requires valid { AreValid shapes }
    requires suits { Suits program.now shapes }
    ensures desk { IfOk result (IsFirstDesk count shapes) }
{
    let tables = demo_policy(alloc, &shapes, count)?;
    let key = program.index_key(alloc)?;
    let state = make_state(alloc, shapes, key, tables)?;
    let desk = open_desk(alloc, state)?;
    Ok(desk)
}

fn demo_model(alloc: Global) -> Result<Model, NoMemory>
    ensures { IfOk result (IsModel model_text) }
{
    match read_model(alloc, MODEL.as_bytes()) {
        Ok(model) => Ok(model),
        Err(_) => Err(NoMemory),
    }
}

fn demo_shapes(alloc: Global, model: &Model) -> Result<Shapes, NoMemory>
    ensures value { IfOk result (λ shapes. shapes ≡ shapes_of model.now [] [] 10) }
    ensures valid { IfOk result AreValid }
    ensures suits { IfOk result (Suits model.now) }
{
    match shapes_of(alloc, model, &[], &[], MOST_LINKS) {
        Ok(shapes) => Ok(shapes),
        Err(_) => Err(NoMemory),
    }
}

fn demo_policy(alloc: Global, shapes: &Shapes, count: u32) -> Result<Tables, NoMemory>
    requires valid { AreValid shapes.now }
    ensures policy { IfOk result (λ tables.
        IsPolicy shapes.now (policy_text count) tables.policy) }
    ensures sound { IfOk result (λ tables. AreSound shapes.now tables.policy) }
{
    let text = policy_text(alloc, count)?;
    match read_policy(alloc, text.as_bytes(), shapes) {
        Ok(tables) => Ok(tables),
        Err(_) => Err(NoMemory),
    }
}

fn demo_script(alloc: Global, count: u32) -> Result<String, NoMemory>
    ensures text { IfOk result (λ script. string_bytes script ≡ script_text count) }
    ensures checked { IfOk result (λ script. (items : List Said)
        × IsScript false (string_bytes script) items) }
{
    let text = script_text(alloc, count)?;
    let Ok(()) = check_script(alloc, text.as_str(), false) else {
        return Err(NoMemory);
    };
    Ok(text)
}
