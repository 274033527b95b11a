ghost use Rattle.std.specs.Prelude.{◌≡◌, ◌≤◌, IfErr, IfOk, OnOk, [], map};
ghost use Rattle.outside.specs.Faults.{Rose};
ghost use Rattle.outside.specs.Told.{with_back};
ghost use Rattle.policy_state.specs.States.{tables};
ghost use Rattle.script_read.specs.Said.{seen};
ghost use Rattle.decision.specs.Programs.{Suits};
ghost use Rattle.desk_session.specs.Desks.{StandsBehind};
ghost use Rattle.loaded_work.specs.Helps.ShippedItems.{GoesBehind};
ghost use Rattle.loaded_work.specs.Helps.TaskSteps.{IsReady, ShowStops};
ghost use Rattle.loaded_work.specs.Shipped.{is_done, ship_text};
ghost use Rattle.version_log.specs.Log.{versions};

use crate::loaded::Loaded;
use crate::opened::{Opened, open_loaded};
use decision::{Program, Scratch};
use desk_session::answer_item;
use log_ship::print_packets;
use outside::{NoMemory, Sink, Text, push_all};
use policy_desk::{Desk, open_desk};
use policy_state::PolicyState;
use regex_gate::Finder;
use run_status::Stop;
use script_read::{Item, Script};
use std::alloc::Global;

/// Does the calls, publishes and keeps of a script, and writes the packets of the edits that are kept then.
pub fn ship<K: Sink, P: Finder>(
    alloc: Global,
    loaded: Loaded,
    script: &Script,
    out: &mut K,
    finder: &mut P,
) -> Result<(), Stop>
    requires { IsReady loaded }
    ensures shown { OnOk result (K.taken out.new ≡ with_back (K.taken out.old)
        (ship_text loaded.shapes loaded.tables.policy (map seen script.now))) }
    ensures stopped { IfErr result (ShowStops (K.taken out.old) (K.taken out.new)
        (ship_text loaded.shapes loaded.tables.policy (map seen script.now))
        (Rose (K.faults out.old) (K.faults out.new))) }
    ensures counted { K.faults out.old ≤ K.faults out.new }
    ensures unasked { P.refusals finder.new ≡ P.refusals finder.old }
{
    let text = shipped_text(alloc, loaded, script, finder)?;
    push_all(out, text.bytes())?;
    Ok(())
}

// The packets of the edits that are kept once a script was done over what was loaded.
fn shipped_text<P: Finder>(
    alloc: Global,
    loaded: Loaded,
    script: &Script,
    finder: &mut P,
) -> Result<Text, NoMemory>
    requires { IsReady loaded }
    ensures shown { IfOk result (λ text. text
        ≡ ship_text loaded.shapes loaded.tables.policy (map seen script.now)) }
    ensures unasked { P.refusals finder.new ≡ P.refusals finder.old }
{
    let Opened { program, state } = open_loaded(alloc, loaded)?;
    text_behind(alloc, &program, state, script, finder)
}

// The same over a state without edits.
fn text_behind<P: Finder>(
    alloc: Global,
    program: &Program,
    state: PolicyState,
    script: &Script,
    finder: &mut P,
) -> Result<Text, NoMemory>
    requires suits { Suits program.now state.shapes }
    requires opening { versions state.log ≡ 0 }
    ensures shown { IfOk result (λ text. text
        ≡ ship_text state.shapes (tables state) (map seen script.now)) }
    ensures unasked { P.refusals finder.new ≡ P.refusals finder.old }
{
    let mut desk = open_desk(alloc, state)?;
    do_items(alloc, &mut desk, program, script, finder)?;
    print_packets(alloc, desk.state())
}

// Does these items at a desk, one after the other.
fn do_items<P: Finder>(
    alloc: Global,
    desk: &mut Desk,
    program: &Program,
    script: &Script,
    finder: &mut P,
) -> Result<(), NoMemory>
    requires suits { Suits program.now desk.old.state.shapes }
    requires before { StandsBehind (tables desk.old.state) [] desk.old }
    ensures behind { OnOk result
        (StandsBehind (tables desk.old.state) (map seen script.now) desk.new) }
    ensures shapes { desk.new.state.shapes ≡ desk.old.state.shapes }
    ensures unasked { P.refusals finder.new ≡ P.refusals finder.old }
{
    let mut scratch = Scratch::for_program(alloc, program);
    let items = script.as_slice();
    for item in items {
        do_item(alloc, desk, program, item, finder, &mut scratch)?;
    }
    Ok(())
}

// Does an item that edits, publishes or keeps; any other is passed over.
fn do_item<P: Finder>(
    alloc: Global,
    desk: &mut Desk,
    program: &Program,
    item: &Item,
    finder: &mut P,
    scratch: &mut Scratch,
) -> Result<(), NoMemory>
    requires suits { Suits program.now desk.old.state.shapes }
    ensures behind { OnOk result (GoesBehind (seen item.now) desk.old desk.new) }
    ensures shapes { desk.new.state.shapes ≡ desk.old.state.shapes }
    ensures unasked { P.refusals finder.new ≡ P.refusals finder.old }
{
    if !is_done(item) {
        return Ok(());
    }
    let _answer = answer_item(alloc, desk, program, item, finder, scratch)?;
    Ok(())
}

fn is_done(item: &Item) -> bool
    ensures { result ≡ is_done (seen item.now) }
{
    match item {
        Item::Edit(_) | Item::Publish | Item::Keep(_) => true,
        Item::Ask(_)
        | Item::Sync
        | Item::Has { .. }
        | Item::Rows { .. }
        | Item::Roles { .. }
        | Item::Users { .. }
        | Item::History(_) => false,
    }
}
