ghost use Rattle.std.specs.Prelude.{IfOk};
ghost use Rattle.perm_base.specs.Shapes.{AreValid};
ghost use Rattle.policy_table.specs.Limits.{AreSound};
ghost use Rattle.loaded_work.specs.Helps.TaskSteps.{IsFirst, IsOpened, IsReady};

use crate::loaded::Loaded;
use decision::{Program, make_program};
use outside::NoMemory;
use perm_base::Shapes;
use policy_state::{PolicyState, make_state};
use policy_table::Tables;
use std::alloc::Global;

/// What items are answered by: a program, and the state of a policy that suits it.
#[derive(Drop)]
pub struct Opened {
    pub program: Program,
    pub state: PolicyState,
}

/// Makes the program of a model, and the state of a policy as its file has it.
#[tactic(auto, using(policy_state::proofs::CallerLemmas::version_stands))]
pub fn open_loaded(alloc: Global, loaded: Loaded) -> Result<Opened, NoMemory>
    requires { IsReady loaded }
    ensures { IfOk result (λ opened. IsOpened loaded opened.program opened.state) }
{
    let program = make_program(alloc, loaded.model)?;
    let key = program.index_key(alloc)?;
    let state = make_state(alloc, loaded.shapes, key, loaded.tables)?;
    Ok(Opened { program, state })
}

/// The state of a policy as its file has it, without an index.
#[tactic(auto, using(policy_state::proofs::CallerLemmas::version_stands))]
pub(crate) fn open_state(
    alloc: Global,
    shapes: Shapes,
    tables: Tables,
) -> Result<PolicyState, NoMemory>
    requires valid { AreValid shapes }
    requires sound { AreSound shapes tables.policy }
    ensures { IfOk result (λ state. IsFirst shapes tables.policy state) }
{
    make_state(alloc, shapes, None, tables)
}
