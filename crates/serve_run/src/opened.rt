ghost use Rattle.std.specs.Prelude.{◌≡◌, ◌≤◌, ◌<◌, IfOk, IfErr, OnOk, false};
ghost use Rattle.loaded_work.specs.Helps.TaskSteps.{IsReady};
ghost use Rattle.outside.specs.Faults.{Rose};
ghost use Rattle.outside.specs.Log.{Adds};
ghost use Rattle.run_files.specs.Files.{limit_in};
ghost use Rattle.run_files.specs.Loads.{LoadStops, both_fetches};
ghost use Rattle.serve_run.specs.Helps.Opened.{IsMade, IsOpened};

use command_words::{Files, Options};
use decision::Program;
use loaded_work::{Loaded, open_loaded};
use outside::{NoMemory, Shelf};
use perm_base::TableId;
use policy_state::PolicyState;
use run_files::load_files;
use run_status::Stop;
use std::alloc::Global;

/// What is answered by: the program of a model, the state of a policy that suits it, and how many rules its table p has.
#[derive(Drop)]
pub(crate) struct OpenedFiles {
    pub program: Program,
    pub state: PolicyState,
    pub rules: u32,
}

/// Loads the files of a run, and opens them.
pub(crate) fn open_files<F: Shelf>(
    alloc: Global,
    shelf: &mut F,
    files: &Files<'_>,
    options: &Option<Options>,
) -> Result<OpenedFiles, Stop>
    requires { (0 < limit_in options.now) × (limit_in options.now ≤ 250) }
    ensures opened { IfOk result (IsOpened (F.files shelf.old) files.now options.now) }
    ensures fetched { OnOk result (Adds (F.calls shelf.old) (F.calls shelf.new)
        (both_fetches files.now false)) }
    ensures stopped { IfErr result (LoadStops (F.files shelf.old) files.now options.now
        (Adds (F.calls shelf.old) (F.calls shelf.new))
        (Rose (F.faults shelf.old) (F.faults shelf.new))) }
    ensures same_files { F.files shelf.new ≡ F.files shelf.old }
    ensures counted { F.faults shelf.old ≤ F.faults shelf.new }
{
    let loaded = load_files(alloc, shelf, files, options)?;
    let opened = open_counted(alloc, loaded)?;
    Ok(opened)
}

// Opens what was loaded, and counts the rules of p.
fn open_counted(alloc: Global, loaded: Loaded) -> Result<OpenedFiles, NoMemory>
    requires { IsReady loaded }
    ensures { IfOk result (IsMade loaded) }
{
    let rules = loaded.tables.len(TableId::P);
    let opened = open_loaded(alloc, loaded)?;
    Ok(OpenedFiles {
        program: opened.program,
        state: opened.state,
        rules,
    })
}
