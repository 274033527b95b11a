ghost use Rattle.std.specs.Prelude.{◌≡◌, ◌≤◌, ◌<◌, ◌∷◌, [], IfOk, IfErr, OnOk, false, length};
ghost use Rattle.outside.specs.Faults.{Rose};
ghost use Rattle.outside.specs.Files.{Holds};
ghost use Rattle.outside.specs.Log.{Adds, call};
ghost use Rattle.model_conf.specs.ModelText.{IsModel};
ghost use Rattle.decision.specs.Programs.{Suits};
ghost use Rattle.perm_base.specs.Shapes.{AreValid};
ghost use Rattle.policy_csv.specs.Policy.{IsPolicy};
ghost use Rattle.policy_table.specs.Limits.{AreSound};
ghost use Rattle.run_status.specs.Parts.{limit_of};
ghost use Rattle.run_status.specs.declared.part.Part.TheVariants as parts;
ghost use Rattle.loaded_work.specs.Helps.TaskSteps.{IsReady};
ghost use Rattle.run_files.specs.Files.{FileIs, absent_in, limit_in, shapes_with};
ghost use Rattle.run_files.specs.Loads.{IsLoaded, LoadStops, both_fetches};
ghost use Rattle.run_files.specs.Helps.ReadStops.{FetchStops, ModelStops, PolicyStops, ShapesStop, fetch_stop};

use command_words::{Files, Options};
use loaded_work::Loaded;
use model_conf::{Model, read_model, shapes_of};
use outside::{Fetch, Shelf};
use perm_base::Shapes;
use policy_csv::read_policy;
use policy_table::Tables;
use run_status::{Part, Stop};
use std::alloc::Global;

// By how many links a name has a role at most, unless it is told.
const MOST_LINKS: u8 = 10;

/// Fetches and reads the model, tries the options against it, and then fetches and reads the policy. Exactly where another cause is
/// said to come, want of memory may come instead.
pub fn load_files<F: Shelf>(
    alloc: Global,
    shelf: &mut F,
    files: &Files<'_>,
    options: &Option<Options>,
) -> Result<Loaded, Stop>
    requires { (0 < limit_in options.now) × (limit_in options.now ≤ 250) }
    ensures loaded { IfOk result (IsLoaded (F.files shelf.old) files.now options.now) }
    ensures ready { IfOk result (λ loaded. IsReady loaded) }
    ensures fetched { OnOk result (Adds (F.calls shelf.old) (F.calls shelf.new)
        (both_fetches files.now false)) }
    ensures stopped { IfErr result (LoadStops (F.files shelf.old) files.now options.now
        (Adds (F.calls shelf.old) (F.calls shelf.new))
        (Rose (F.faults shelf.old) (F.faults shelf.new))) }
    ensures same_files { F.files shelf.new ≡ F.files shelf.old }
    ensures counted { F.faults shelf.old ≤ F.faults shelf.new }
{
    let model = read_model_file(alloc, shelf, files.model)?;
    let shapes = policy_shapes(alloc, &model, options)?;
    let tables = read_policy_file(alloc, shelf, files.policy, &shapes)?;
    Ok(Loaded {
        model,
        shapes,
        tables,
    })
}

// Fetches and reads the model.
fn read_model_file<F: Shelf>(alloc: Global, shelf: &mut F, name: &str) -> Result<Model, Stop>
    ensures read { IfOk result (λ model. FileIs (F.files shelf.old) name.now parts.Model
        (λ bytes. IsModel bytes model)) }
    ensures fetched { OnOk result (Adds (F.calls shelf.old) (F.calls shelf.new)
        (call name.now false ∷ [])) }
    ensures stopped { IfErr result (ModelStops (F.files shelf.old) name.now
        (λ failed. Adds (F.calls shelf.old) (F.calls shelf.new) (call name.now failed ∷ []))
        (Rose (F.faults shelf.old) (F.faults shelf.new))) }
    ensures same_files { F.files shelf.new ≡ F.files shelf.old }
    ensures counted { F.faults shelf.old ≤ F.faults shelf.new }
{
    let bytes = fetch(alloc, shelf, name, Part::Model)?;
    Ok(read_model(alloc, &bytes)?)
}

// The shapes of the model's policies, where it has the relations and domain columns that options name.
fn policy_shapes(alloc: Global, model: &Model, options: &Option<Options>) -> Result<Shapes, Stop>
    requires { (0 < limit_in options.now) × (limit_in options.now ≤ 250) }
    ensures found { IfOk result (λ shapes. shapes ≡ shapes_with options.now model.now) }
    ensures fits { IfOk result (λ _. absent_in options.now model.now ≡ None) }
    ensures valid { IfOk result (λ shapes. AreValid shapes) }
    ensures suits { IfOk result (λ shapes. Suits model.now shapes) }
    ensures stopped { IfErr result (ShapesStop options.now model.now) }
{
    let Some(options) = options else {
        return Ok(shapes_of(alloc, model, &[], &[], MOST_LINKS)?);
    };
    Ok(shapes_of(
        alloc,
        model,
        options.names.as_slice(),
        options.domains.as_slice(),
        options.limit,
    )?)
}

// Fetches and reads the policy.
fn read_policy_file<F: Shelf>(
    alloc: Global,
    shelf: &mut F,
    name: &str,
    shapes: &Shapes,
) -> Result<Tables, Stop>
    requires { AreValid shapes.now }
    ensures read { IfOk result (λ tables. FileIs (F.files shelf.old) name.now parts.Policy
        (λ bytes. IsPolicy shapes.now bytes tables.policy)) }
    ensures sound { IfOk result (λ tables. AreSound shapes.now tables.policy) }
    ensures fetched { OnOk result (Adds (F.calls shelf.old) (F.calls shelf.new)
        (call name.now false ∷ [])) }
    ensures stopped { IfErr result (PolicyStops (F.files shelf.old) name.now shapes.now
        (λ failed. Adds (F.calls shelf.old) (F.calls shelf.new) (call name.now failed ∷ []))
        (Rose (F.faults shelf.old) (F.faults shelf.new))) }
    ensures same_files { F.files shelf.new ≡ F.files shelf.old }
    ensures counted { F.faults shelf.old ≤ F.faults shelf.new }
{
    let bytes = fetch(alloc, shelf, name, Part::Policy)?;
    Ok(read_policy(alloc, &bytes, shapes)?)
}

// Fetches the bytes of a part.
fn fetch<F: Shelf>(alloc: Global, shelf: &mut F, name: &str, part: Part) -> Result<Vec<u8>, Stop>
    ensures found { IfOk result (λ bytes. Holds (F.files shelf.old) name.now bytes.items) }
    ensures within { IfOk result (λ bytes. length bytes.items ≤ limit_of part) }
    ensures fetched { OnOk result (Adds (F.calls shelf.old) (F.calls shelf.new)
        (call name.now false ∷ [])) }
    ensures stopped { IfErr result (FetchStops (F.files shelf.old) name.now part
        (λ failed. Adds (F.calls shelf.old) (F.calls shelf.new) (call name.now failed ∷ []))
        (Rose (F.faults shelf.old) (F.faults shelf.new))) }
    ensures same_files { F.files shelf.new ≡ F.files shelf.old }
    ensures counted { F.faults shelf.old ≤ F.faults shelf.new }
{
    match shelf.fetch(alloc, name, part.limit()) {
        Ok(bytes) => Ok(bytes),
        Err(reason) => Err(stop_of(part, reason)),
    }
}

// The stop that comes of a file of a part that was not fetched.
fn stop_of(part: Part, reason: Fetch) -> Stop
    ensures { result ≡ fetch_stop part reason }
{
    match reason {
        Fetch::Absent | Fetch::Failed => Stop::CannotRead(part),
        Fetch::TooLong => Stop::TooLong(part),
        Fetch::NoMemory => Stop::NoMemory,
    }
}
