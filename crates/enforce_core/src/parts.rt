ghost use Rattle.std.specs.Prelude.{◌≡◌, ◌<◌, ◌≤◌, [], IfErr, IfOk, None, Some};
ghost use Rattle.decision.specs.Programs.{Suits};
ghost use Rattle.loaded_work.specs.Helps.TaskSteps.{IsReady};
ghost use Rattle.perm_base.specs.Shapes.{AreValid};
ghost use Rattle.policy_csv.specs.Policy.{IsPolicy};
ghost use Rattle.policy_state.specs.States.{StandsFor, tables};
ghost use Rattle.policy_table.specs.Limits.{AreSound};
ghost use Rattle.run_files.specs.Files.{absent_in, shapes_with};
ghost use Rattle.run_files.specs.Helps.ReadStops.{ShapesStop};
ghost use Rattle.enforce_core.specs.Helps.Made.{AreMade, PolicyStops};
ghost use Rattle.enforce_core.specs.Opened.{AreOpenedFrom, IsOpenedFrom, OpeningStops};

use crate::enforcer::Enforcer;
use crate::options::read_options;
use command_words::Options;
use decision::Program;
use loaded_work::{Loaded, open_loaded};
use model_conf::{Model, read_model, shapes_of};
use outside::NoMemory;
use perm_base::Shapes;
use policy_csv::read_policy;
use policy_desk::{Desk, open_desk};
use policy_table::Tables;
use run_status::{Part, Stop};
use std::alloc::Global;

/// The enforcer of a model and a policy, given as texts, with options as the program takes them, one a line. What the program
/// refuses is refused by the same stop: first the options are read, then the model, what the options name, and the policy.
pub fn open_enforcer(
    alloc: Global,
    model: &[u8],
    policy: &[u8],
    options: &[u8],
) -> Result<Enforcer, Stop>
    ensures opened { IfOk result (IsOpenedFrom
        (record { model = model.now; policy = policy.now; options = options.now })) }
    ensures stopped { IfErr result (OpeningStops
        (record { model = model.now; policy = policy.now; options = options.now })) }
{
    let parts = open_parts(alloc, model, policy, options)?;
    let (program, desk) = parts;
    let enforcer = Enforcer::owning(alloc, program, desk)?;
    Ok(enforcer)
}

/// The program of a model and a desk over a policy, for a caller that puts them together in its own way, as with a pair.
pub fn open_parts(
    alloc: Global,
    model: &[u8],
    policy: &[u8],
    options: &[u8],
) -> Result<(Program, Desk), Stop>
    ensures opened { IfOk result (λ parts. AreOpenedFrom
        (record { model = model.now; policy = policy.now; options = options.now })
        parts.0 parts.1) }
    ensures suits { IfOk result (λ parts. Suits parts.0 parts.1.state.shapes) }
    ensures stands { IfOk result (λ parts.
        StandsFor parts.1.state (tables parts.1.state) []) }
    ensures pending { IfOk result (λ parts. parts.1.pending ≡ []) }
    ensures stopped { IfErr result (OpeningStops
        (record { model = model.now; policy = policy.now; options = options.now })) }
{
    let options = read_options(alloc, options)?;
    let model = read_model(alloc, model)?;
    let shapes = shapes_under(alloc, &model, &options)?;
    let tables = read_tables(alloc, policy, &shapes)?;
    let loaded = Loaded {
        model,
        shapes,
        tables,
    };
    let parts = parts_of(alloc, loaded)?;
    Ok(parts)
}

// The shapes of the model's policies, where it has what the options name.
fn shapes_under(alloc: Global, model: &Model, options: &Options) -> Result<Shapes, Stop>
    requires { (0 < options.now.limit) × (options.now.limit ≤ 250) }
    ensures found { IfOk result (λ shapes. shapes ≡ shapes_with (Some options.now) model.now) }
    ensures fits { IfOk result (λ _. absent_in (Some options.now) model.now ≡ None) }
    ensures valid { IfOk result (λ shapes. AreValid shapes) }
    ensures suits { IfOk result (λ shapes. Suits model.now shapes) }
    ensures stopped { IfErr result (ShapesStop (Some options.now) model.now) }
{
    Ok(shapes_of(
        alloc,
        model,
        options.names.as_slice(),
        options.domains.as_slice(),
        options.limit,
    )?)
}

// The tables that the policy's text says.
fn read_tables(alloc: Global, bytes: &[u8], shapes: &Shapes) -> Result<Tables, Stop>
    requires { AreValid shapes.now }
    ensures read { IfOk result (λ tables. IsPolicy shapes.now bytes.now tables.policy) }
    ensures sound { IfOk result (λ tables. AreSound shapes.now tables.policy) }
    ensures stopped { IfErr result (PolicyStops shapes.now bytes.now) }
{
    if bytes.len() as u64 > Part::Policy.limit() {
        return Err(Stop::TooLong(Part::Policy));
    }
    Ok(read_policy(alloc, bytes, shapes)?)
}

// The program of what was loaded, and a desk over its policy.
fn parts_of(alloc: Global, loaded: Loaded) -> Result<(Program, Desk), NoMemory>
    requires { IsReady loaded }
    ensures { IfOk result (λ parts. AreMade loaded parts.0 parts.1) }
{
    let opened = open_loaded(alloc, loaded)?;
    let desk = open_desk(alloc, opened.state)?;
    desk.holds();
    Ok((opened.program, desk))
}
