ghost use Rattle.std.specs.Prelude.{◌≡◌, ◌≤◌, IfErr, IfOk, OnOk};
ghost use Rattle.outside.specs.Faults.{Rose};
ghost use Rattle.policy_state.specs.States.{tables};
ghost use Rattle.loaded_work.specs.Helps.TaskSteps.{IsReady, IsShortReport, NotReported, ReportStops, Showed};
ghost use Rattle.loaded_work.specs.Roles.{no_report};

use crate::loaded::Loaded;
use crate::opened::open_state;
use outside::{NoMemory, Sink, push_all};
use policy_state::PolicyState;
use rbac_query::{ReportStop, relation_has_one_report};
use run_status::{Part, Stop};
use std::alloc::Global;

// What is written in place of a report where there is no relation g.
const NO_REPORT: &str = "1 refused: no table g\n";

/// Writes the report of g. It is made as a whole before any of it is pushed.
pub fn report<K: Sink>(alloc: Global, loaded: Loaded, out: &mut K) -> Result<(), Stop>
    requires { IsReady loaded }
    ensures shown { OnOk result (Showed (IsShortReport loaded.shapes loaded.tables.policy)
        (K.taken out.old) (K.taken out.new)) }
    ensures stopped { IfErr result (ReportStops loaded.shapes loaded.tables.policy
        (K.taken out.old) (K.taken out.new) (Rose (K.faults out.old) (K.faults out.new))) }
    ensures counted { K.faults out.old ≤ K.faults out.new }
{
    let state = open_state(alloc, loaded.shapes, loaded.tables)?;
    let text = report_text(alloc, &state)?;
    push_all(out, &text)?;
    Ok(())
}

// The report of g, or what is written in its place.
fn report_text(alloc: Global, state: &PolicyState) -> Result<Vec<u8>, Stop>
    ensures reported { IfOk result (λ text.
        IsShortReport state.now.shapes (tables state.now) text.items) }
    ensures stopped { IfErr result (NotReported state.now.shapes (tables state.now)) }
{
    relation_has_one_report();
    match rbac_query::report(alloc, state, Part::Report.limit()) {
        Ok(text) => Ok(text),
        Err(ReportStop::NoTable) => Ok(no_report(alloc)?),
        Err(ReportStop::TooLong) => Err(Stop::TooLong(Part::Report)),
        Err(ReportStop::NoMemory) => Err(Stop::NoMemory),
    }
}

// What is written in place of a report.
fn no_report(alloc: Global) -> Result<Vec<u8>, NoMemory>
    ensures { IfOk result (λ text. text.items ≡ no_report) }
{
    Ok(Vec::from_slice(alloc, NO_REPORT.as_bytes())?)
}
