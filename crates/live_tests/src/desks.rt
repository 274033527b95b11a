//! A program, and a desk that its requests are asked at.
ghost use Rattle.std.specs.Prelude.{◌≡◌, [], IfOk, None};
ghost use Rattle.decision.specs.Programs.{Suits};
ghost use Rattle.perm_base.specs.Shapes.{AreValid};
ghost use Rattle.policy_state.specs.States.{StandsFor, tables};
ghost use Rattle.version_log.specs.Log.{versions};

use decision::{Program, make_program};
use model_conf::{Model, read_model, shapes_of};
use outside::NoMemory;
use perm_base::Shapes;
use policy_csv::read_policy;
use policy_desk::{Desk, open_desk};
use policy_state::make_state;
use std::alloc::Global;

const MODEL: &[u8] = b"[request_definition]
r = sub, obj, act
[policy_definition]
p = sub, obj, act
[policy_effect]
e = some(where (p.eft == allow))
[matchers]
m = r.sub == p.sub && r.obj == p.obj && r.act == p.act
";

/// The program of a model of three equalities, and the shapes of its policies.
pub(crate) fn program(alloc: Global) -> Result<(Program, Shapes), NoMemory>
    ensures suits { IfOk result (λ made. Suits made.0 made.1) }
    ensures valid { IfOk result (λ made. AreValid made.1) }
{
    let Ok(model) = read_model(alloc, MODEL) else {
        return Err(NoMemory);
    };
    let shapes = shapes(alloc, &model)?;
    let program = make_program(alloc, model)?;
    Ok((program, shapes))
}

// The shapes of a model's policies.
fn shapes(alloc: Global, model: &Model) -> Result<Shapes, NoMemory>
    ensures suits { IfOk result (λ shapes. Suits model.now shapes) }
    ensures valid { IfOk result (λ shapes. AreValid shapes) }
{
    let Ok(shapes) = shapes_of(alloc, model, &[], &[], 10) else {
        return Err(NoMemory);
    };
    Ok(shapes)
}

/// A desk over a policy without rules.
pub(crate) fn desk(alloc: Global, shapes: Shapes) -> Result<Desk, NoMemory>
    requires valid { AreValid shapes }
    ensures shapes { IfOk result (λ desk. desk.state.shapes ≡ shapes) }
    ensures stands { IfOk result (λ desk. StandsFor desk.state (tables desk.state) []) }
    ensures opening { IfOk result (λ desk. versions desk.state.log ≡ 0) }
    ensures pending { IfOk result (λ desk. desk.pending ≡ []) }
    ensures kept { IfOk result (λ desk. desk.kept ≡ None) }
{
    let Ok(tables) = read_policy(alloc, b"", &shapes) else {
        return Err(NoMemory);
    };
    let state = make_state(alloc, shapes, None, tables)?;
    open_desk(alloc, state)
}
