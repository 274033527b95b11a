ghost use Rattle.std.specs.Prelude.{◌≡◌, ◌<◌, ◌≤◌, IfErr, IfOk, None, length};
ghost use Rattle.outside.specs.Faults.{Rose};
ghost use Rattle.outside.specs.Files.{Holds};
ghost use Rattle.perm_base.specs.Shapes.{AreValid};
ghost use Rattle.run_status.specs.Parts.{limit_of};
ghost use Rattle.lint_run.specs.Lints.{absent_in, shapes_with};
ghost use Rattle.lint_run.specs.Helps.{FetchStops, ShapesStop, fetch_stop};

use command_words::Options;
use model_conf::{Model, shapes_of};
use outside::{Fetch, Shelf};
use perm_base::Shapes;
use run_status::{Part, Stop};
use std::alloc::Global;

/// Fetches the bytes of a part.
pub(crate) fn fetch<F: Shelf>(
    alloc: Global,
    shelf: &mut F,
    name: &str,
    part: Part,
) -> Result<Vec<u8>, Stop>
    ensures found { IfOk result (λ bytes. Holds (F.files shelf.old) name.now bytes.items) }
    ensures within { IfOk result (λ bytes. length bytes.items ≤ limit_of part) }
    ensures stopped { IfErr result (FetchStops (F.files shelf.old) name.now part
        (Rose (F.faults shelf.old) (F.faults shelf.new))) }
    ensures same_files { F.files shelf.new ≡ F.files shelf.old }
    ensures counted { F.faults shelf.old ≤ F.faults shelf.new }
{
    match shelf.fetch(alloc, name, part.limit()) {
        Ok(bytes) => Ok(bytes),
        Err(reason) => Err(stop_of(part, reason)),
    }
}

// The stop that comes of a file of a part that was not fetched.
fn stop_of(part: Part, reason: Fetch) -> Stop
    ensures { result ≡ fetch_stop part reason }
{
    match reason {
        Fetch::Absent | Fetch::Failed => Stop::CannotRead(part),
        Fetch::TooLong => Stop::TooLong(part),
        Fetch::NoMemory => Stop::NoMemory,
    }
}

/// The shapes of the model's policies, where it has the relations and domain columns that options name.
pub(crate) fn policy_shapes(alloc: Global, model: &Model, options: &Options) -> Result<Shapes, Stop>
    requires { (0 < options.now.limit) × (options.now.limit ≤ 250) }
    ensures found { IfOk result (λ shapes. shapes ≡ shapes_with options.now model.now) }
    ensures fits { IfOk result (λ _. absent_in options.now model.now ≡ None) }
    ensures valid { IfOk result (λ shapes. AreValid shapes) }
    ensures stopped { IfErr result (ShapesStop options.now model.now) }
{
    Ok(shapes_of(
        alloc,
        model,
        options.names.as_slice(),
        options.domains.as_slice(),
        options.limit,
    )?)
}
