ghost use Rattle.std.specs.Prelude.{◌≡◌, All, IfOk, None, OnErr, OnOk, [], map, true};
ghost use Rattle.answer_lines.specs.Told.{is_printable};
ghost use Rattle.policy_state.specs.States.{tables};
ghost use Rattle.regex_gate.specs.Refusals.{IsUsed};
ghost use Rattle.script_read.specs.Named.{is_named};
ghost use Rattle.script_read.specs.Said.{seen};
ghost use Rattle.version_log.specs.Log.{versions};
ghost use Rattle.decision.specs.Programs.{Suits};
ghost use Rattle.desk_session.specs.Desks.{StandsAmid, StandsBehind};
ghost use Rattle.desk_session.specs.Scripts.{AreScriptLines};

use crate::item::answer_item;
use answer_lines::{Line, Lines};
use decision::{Program, Scratch};
use matcher_meaning::order_of_rows_is_one;
use outside::NoMemory;
use policy_desk::Desk;
use regex_gate::Finder;
use script_read::Script;
use std::alloc::Global;

/// The lines of a script whose items are answered at a desk one after the other, on one thread: one line for each item,
/// numbered from 1. Where memory runs out the desk has the edits of some of the first items, and the lines are dropped.
pub fn run_plain<P: Finder>(
    alloc: Global,
    desk: &mut Desk,
    program: &Program,
    script: &Script,
    finder: &mut P,
) -> Result<Lines, NoMemory>
    requires suits { Suits program.now desk.old.state.shapes }
    requires opening { versions desk.old.state.log ≡ 0 }
    requires none_pending { desk.old.pending ≡ [] }
    requires keeps_all { desk.old.kept ≡ None }
    ensures plain { IfOk result (AreScriptLines program.now desk.old.state.shapes
        (tables desk.old.state) (P.refusals finder.old) (P.refusals finder.new)
        (map seen script.now)) }
    ensures printable { IfOk result (λ lines.
        All (λ item. is_named item ≡ true) (map seen script.now)
        → All (λ line. is_printable line.answer ≡ true) lines) }
    ensures behind { OnOk result
        (StandsBehind (tables desk.old.state) (map seen script.now) desk.new) }
    ensures stopped { OnErr result
        (StandsAmid (tables desk.old.state) (map seen script.now) desk.new) }
    ensures shapes { desk.new.state.shapes ≡ desk.old.state.shapes }
    ensures used { IsUsed (P.refusals finder.old) (P.refusals finder.new) }
{
    desk.holds();
    order_of_rows_is_one();
    let mut scratch = Scratch::for_program(alloc, program);
    let mut lines = Vec::with_capacity(alloc, script.len())?;
    let mut number: u32 = 0;
    let items = script.as_slice();
    for item in items {
        number = number.saturating_add(1);
        let answer = answer_item(alloc, desk, program, item, finder, &mut scratch)?;
        lines.push(Line { number, answer })?;
    }
    Ok(Lines::from_vec(lines))
}
