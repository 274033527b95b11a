//! Two workers beside an administrator.
ghost use Rattle.std.specs.Prelude.{◌<◌, List, false, length};
ghost use Rattle.decision.specs.Programs.{Suits};
ghost use Rattle.perm_base.specs.Shapes.{AreValid};
ghost use Rattle.script_read.specs.Said.{Said};
ghost use Rattle.script_read.specs.Script.{IsScript};

use crate::desks::{desk, program};
use crate::meeting::Meeting;
use answer_lines::PrintedLines;
use decision::Program;
use live_pair::{PairPlaces, Places};
use live_rounds::{Gate, TakeStop, Taker, run_shared};
use outside::NoMemory;
use perm_base::Shapes;
use regex_gate::RegexFinder;
use script_read::check_script;
use std::alloc::Global;
use std::sync::Wait;
use std::sync::atomic::Ordering;
use std::test::Fail;
use std::thread::Threads;

// Two requests of each worker beside two publishes.
const TURNS: &str = "add p, alice, data1, read
publish
ask alice, data1, read
ask alice, data1, read
ask alice, data1, read
ask alice, data1, read
remove p, alice, data1, read
publish
";

// The lines of a session, as they are printed.
#[derive(Drop)]
struct Answers {
    text: Vec<u8>,
}

// Keeps the answers of lines.
#[derive(Clone, Copy)]
struct Keeping;

impl Taker<Answers> for Keeping {
    ghost use Rattle.std.specs.Prelude.{⊤};

    ghost took = { λ _ _ _. ⊤ };

    ghost stopped = { λ _ _ _ _. ⊤ };

    fn take(&self, _alloc: Global, to: &mut Answers, lines: &PrintedLines) -> Result<(), TakeStop> {
        let taken = to.text.extend_from_slice(&lines.text);
        taken.map_err(NoMemory::from)?;
        Ok(())
    }
}

#[test]
fn workers_and_the_administrator_wait_for_each_other(rt: HostRuntime) -> Result<(), Fail> {
    let alloc = rt.alloc();
    let gate = Meeting::new();
    let mut places = PairPlaces::new();
    let answers = lines_of(&rt, alloc, &gate, &mut places)?;
    assert_eq!(rt; gate.late.load(Ordering::SeqCst), false);
    assert_eq!(rt; places.refusals(), 0);
    assert!(rt; is_beside(&answers, 2));
    assert!(rt; is_beside(&answers, 4));
    Ok(())
}

// The lines of the script, whose requests two workers answer.
fn lines_of<R: Threads + Wait + Sync, G: Gate, H: Places>(
    rt: &R,
    alloc: Global,
    gate: &G,
    places: &mut H,
) -> Result<Answers, NoMemory> {
    let Ok(()) = check_script(alloc, TURNS, false) else {
        return Err(NoMemory);
    };
    lines_by(rt, alloc, TURNS, gate, places)
}

// With a finder for each worker and one more.
fn lines_by<R: Threads + Wait + Sync, G: Gate, H: Places>(
    rt: &R,
    alloc: Global,
    script: &str,
    gate: &G,
    places: &mut H,
) -> Result<Answers, NoMemory>
    requires checked { (items : List Said) × IsScript false script.now items }
{
    let mut finders = Vec::with_capacity(alloc, 3)?;
    for _ in 0..3 {
        finders.push(RegexFinder::new(alloc))?;
    }
    if finders.len() <= 2 {
        return Err(NoMemory);
    }
    lines_with(rt, alloc, script, &mut finders, gate, places)
}

// By the program.
fn lines_with<R: Threads + Wait + Sync, G: Gate, H: Places>(
    rt: &R,
    alloc: Global,
    script: &str,
    finders: &mut Vec<RegexFinder>,
    gate: &G,
    places: &mut H,
) -> Result<Answers, NoMemory>
    requires finders { 2 < length finders.old.items }
    requires checked { (items : List Said) × IsScript false script.now items }
{
    let (program, shapes) = program(alloc)?;
    lines_over(rt, alloc, &program, shapes, script, finders, gate, places)
}

// Over the policy without rules that has these shapes.
fn lines_over<R: Threads + Wait + Sync, G: Gate, H: Places>(
    rt: &R,
    alloc: Global,
    program: &Program,
    shapes: Shapes,
    script: &str,
    finders: &mut Vec<RegexFinder>,
    gate: &G,
    places: &mut H,
) -> Result<Answers, NoMemory>
    requires suits { Suits program.now shapes }
    requires valid { AreValid shapes }
    requires finders { 2 < length finders.old.items }
    requires checked { (items : List Said) × IsScript false script.now items }
{
    let desk = desk(alloc, shapes)?;
    let keeping = Keeping;
    let mut answers = Answers {
        text: Vec::new(alloc),
    };
    match run_shared(
        rt,
        alloc,
        desk,
        program,
        false,
        script,
        2,
        finders,
        gate,
        places,
        &keeping,
        &mut answers,
    ) {
        Ok(()) => Ok(answers),
        Err(_) => Err(NoMemory),
    }
}

// Whether the line at a place, behind its number, is the answer before the first publish, or the one behind it.
fn is_beside(answers: &Answers, place: usize) -> bool {
    let mut lines = answers.text.split(|byte| *byte == b'\n');
    let Some(line) = lines.nth(place) else {
        return false;
    };
    let told = line.get(2..).unwrap_or(line);
    told == b"deny @0 -".as_slice() || told == b"allow @1 p#1 alice, data1, read".as_slice()
}
