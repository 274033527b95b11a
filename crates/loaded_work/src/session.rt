ghost use Rattle.std.specs.Prelude.{◌≡◌, ◌≤◌, IfErr, List, None, OnErr, OnOk, [], false, map, true};
ghost use Rattle.answer_lines.specs.Printed.{ArePrinted, printed_line};
ghost use Rattle.answer_lines.specs.declared.answer.Line as line;
ghost use Rattle.outside.specs.Faults.{Rose};
ghost use Rattle.outside.specs.Told.{with_back};
ghost use Rattle.script_read.specs.ItemLines.{IsBuiltAs};
ghost use Rattle.script_read.specs.Named.{is_named};
ghost use Rattle.script_read.specs.Said.{Said, seen};
ghost use Rattle.script_read.specs.Script.{IsScript};
ghost use Rattle.decision.specs.Programs.{Suits};
ghost use Rattle.desk_session.specs.Desks.{StandsBehind};
ghost use Rattle.desk_session.specs.Requests.{Refuses};
ghost use Rattle.desk_session.specs.Steps.{is_request};
ghost use Rattle.loaded_work.specs.Helps.Items.{PushesItem};
ghost use Rattle.loaded_work.specs.Helps.TaskSteps.{AreAnswered, IsReady, LinesStop, PrintedAll, PrintedSome};
ghost use Rattle.loaded_work.specs.Texts.{text_of_lines};
ghost use Rattle.loaded_work.specs.Sinks.{taken};
ghost use Rattle.model_conf.specs.ModelText.{ModelParts};
ghost use Rattle.policy_state.specs.States.{tables};
ghost use Rattle.policy_table.specs.Tables.{Policy};
ghost use Rattle.regex_gate.specs.Refusals.{IsUsed, Refusals};
ghost use Rattle.version_log.specs.Log.{versions};

use crate::court::next_number;
use crate::gather::push_full;
use crate::loaded::Loaded;
use crate::opened::open_loaded;
use answer_lines::{PrintedLines, push_line};
use decision::{Program, Scratch};
use desk_session::{Line, answer_other, push_asked};
use matcher_meaning::case_verdict_is_there;
use outside::{NoMemory, Sink, push_all};
use perm_value::Value;
use policy_desk::{Desk, open_desk};
use regex_gate::Finder;
use run_status::Stop;
use script_read::{BuiltItem, Item, item_lines};
use session_meaning::replies_are_printable;
use std::alloc::Global;

/// Does the items of a script one after the other: each is read, done, and told by a line before the next is read.
pub fn serve<K: Sink, P: Finder>(
    alloc: Global,
    loaded: Loaded,
    json: bool,
    script: &str,
    out: &mut K,
    finder: &mut P,
) -> Result<(), Stop>
    requires ready { IsReady loaded }
    requires checked { (items : List Said) × IsScript json script.now items }
    ensures { AreAnswered (IsScript json script.now) loaded
        (P.refusals finder.old) (P.refusals finder.new)
        (taken (K.taken out.old) (K.faults out.old)) (taken (K.taken out.new) (K.faults out.new))
        result }
{
    let opened = open_loaded(alloc, loaded)?;
    let mut desk = open_desk(alloc, opened.state)?;
    print_items(alloc, out, &mut desk, &opened.program, json, script, finder)
}

// Does the items of a script at a desk, and prints a line for each, numbered from 1.
fn print_items<K: Sink, P: Finder>(
    alloc: Global,
    out: &mut K,
    desk: &mut Desk,
    program: &Program,
    json: bool,
    script: &str,
    finder: &mut P,
) -> Result<(), Stop>
    requires suits { Suits program.now desk.old.state.shapes }
    requires opening { versions desk.old.state.log ≡ 0 }
    requires none_pending { desk.old.pending ≡ [] }
    requires keeps_all { desk.old.kept ≡ None }
    requires checked { (items : List Said) × IsScript json script.now items }
    ensures printed { OnOk result (PrintedAll (IsScript json script.now)
        program.now desk.old.state.shapes (tables desk.old.state)
        (P.refusals finder.old) (P.refusals finder.new) (K.taken out.old) (K.taken out.new)) }
    ensures stopped { IfErr result (PrintedSome (IsScript json script.now)
        program.now desk.old.state.shapes (tables desk.old.state)
        (P.refusals finder.old) (P.refusals finder.new) (K.taken out.old) (K.taken out.new)
        (Rose (K.faults out.old) (K.faults out.new))) }
    ensures counted { K.faults out.old ≤ K.faults out.new }
    ensures used { IsUsed (P.refusals finder.old) (P.refusals finder.new) }
{
    desk.holds();
    case_verdict_is_there();
    let mut scratch = Scratch::for_program(alloc, program);
    let mut text = String::new(alloc);
    let mut values = Vec::new(alloc);
    let mut number = 0;
    let mut left = item_lines(json, script, 1);
    while let Some(built) = left.next_built(alloc)? {
        number = next_number(number);
        push_item(
            alloc,
            &mut text,
            number,
            desk,
            program,
            built,
            finder,
            &mut scratch,
            &mut values,
        )?;
        push_full(out, &mut text)?;
    }
    push_all(out, text.as_bytes())?;
    Ok(())
}

// Answers an item, does what it says, and appends its line; the rule that a line of a request names is not copied, and its values
// take the place of others.
fn push_item<P: Finder>(
    alloc: Global,
    text: &mut String,
    number: u32,
    desk: &mut Desk,
    program: &Program,
    built: BuiltItem<'_>,
    finder: &mut P,
    scratch: &mut Scratch,
    values: &mut Vec<Value>,
) -> Result<(), NoMemory>
    requires suits { Suits program.now desk.old.state.shapes }
    requires stands { (opening : Policy) × (before : List Said) × StandsBehind opening before desk.old }
    requires kind { (item : Said) × IsBuiltAs built item }
    ensures pushed { OnOk result ((item : Said) → IsBuiltAs built.entry item
        → PushesItem program.now (P.refusals finder.old) (P.refusals finder.new) item number
        desk.old desk.new text.old text.new) }
    ensures shapes { desk.new.state.shapes ≡ desk.old.state.shapes }
    ensures refused { OnErr result ((item : Said) → IsBuiltAs built.entry item
        → Refuses program.now (P.refusals finder.old) (P.refusals finder.new) item) }
{
    match built {
        BuiltItem::Request(asked) => {
            let state = desk.state();
            push_asked(
                alloc, text, number, state, program, asked, finder, scratch, values,
            )
        }
        BuiltItem::Other(item) => {
            let pushed = push_other(alloc, text, number, desk, &item);
            drop(item);
            pushed
        }
    }
}

// The same for an item that is no request.
fn push_other(
    alloc: Global,
    text: &mut String,
    number: u32,
    desk: &mut Desk,
    item: &Item,
) -> Result<(), NoMemory>
    requires other { is_request (seen item.now) ≡ false }
    requires stands { (opening : Policy) × (before : List Said) × StandsBehind opening before desk.old }
    requires has_name { is_named (seen item.now) ≡ true }
    ensures pushed { OnOk result ((model : ModelParts) (refusals : Refusals)
        → PushesItem model refusals refusals (seen item.now) number
        desk.old desk.new text.old text.new) }
    ensures shapes { desk.new.state.shapes ≡ desk.old.state.shapes }
{
    replies_are_printable();
    let answer = answer_other(&(), alloc, desk, item)?;
    push_line(text, &Line { number, answer })
}

/// Pushes lines that were printed.
pub fn print_lines<K: Sink>(out: &mut K, lines: &PrintedLines) -> Result<(), Stop>
    ensures printed { OnOk result ((told : List line.Line)
        → ArePrinted (map printed_line told) lines.now
        → K.taken out.new ≡ with_back (K.taken out.old) (text_of_lines told)) }
    ensures stopped { IfErr result (λ stop. (told : List line.Line)
        → ArePrinted (map printed_line told) lines.now
        → LinesStop (K.taken out.old) (K.taken out.new)
        told (Rose (K.faults out.old) (K.faults out.new)) stop) }
    ensures counted { K.faults out.old ≤ K.faults out.new }
{
    push_all(out, lines.text.as_slice())?;
    Ok(())
}
