ghost use Rattle.std.specs.Prelude.{◌≡◌, IfErr, IfOk, None};
ghost use Rattle.enforce_core.specs.Opened.{IsOpenedFrom, OpeningStops};
ghost use Rattle.enforce_core.specs.Seen.{IsSnapshotOf};
ghost use Rattle.casbin_c.specs.Codes.{closed};
ghost use Rattle.casbin_c.specs.Handles.{Uses};
ghost use Rattle.casbin_c.specs.Opened.{OpensFrom, Takes};

use crate::codes::{CLOSED, NO_MEMORY, OK};
use crate::handle::Handle;
use crate::room::write_stop;
use enforce_core::{Enforcer, open_enforcer};
use outside::NoMemory;
use run_status::Stop;
use std::alloc::Global;

/// Opens an enforcer of the texts of a model and of a policy, with the options of the program, one a line. What the handle held
/// is closed. Where it is refused, the handle is as it was, the answer is the program's status, and its line is written to `line`
/// where it fits.
#[unsafe(no_mangle)]
pub extern "C" fn casbin_open(
    alloc: Global,
    model: &[u8],
    policy: &[u8],
    options: &[u8],
    handle: &mut Handle,
    line: &mut [u8],
    size: &mut usize,
) -> u32
    ensures { OpensFrom
        (record { model = model.now; policy = policy.now; options = options.now }) result
        handle.old.held.inside handle.new.held.inside line.old line.new size.new }
{
    match open_box(alloc, model, policy, options) {
        Ok(enforcer) => {
            handle.put(alloc, enforcer);
            *size = 0;
            OK
        }
        Err(stop) => {
            write_stop(alloc, stop, line, size);
            u32::from(stop.status().code())
        }
    }
}

// The enforcer, in a box.
fn open_box(
    alloc: Global,
    model: &[u8],
    policy: &[u8],
    options: &[u8],
) -> Result<Box<Enforcer>, Stop>
    ensures opened { IfOk result (λ made. IsOpenedFrom
        (record { model = model.now; policy = policy.now; options = options.now }) made.value) }
    ensures stopped { IfErr result (OpeningStops
        (record { model = model.now; policy = policy.now; options = options.now })) }
{
    let enforcer = open_enforcer(alloc, model, policy, options)?;
    let made = boxed(alloc, enforcer)?;
    Ok(made)
}

// An enforcer in a box.
fn boxed(alloc: Global, enforcer: Enforcer) -> Result<Box<Enforcer>, NoMemory>
    ensures { IfOk result (λ made. made.value ≡ enforcer) }
{
    let made = Box::new(alloc, enforcer)?;
    Ok(made)
}

/// Takes a snapshot of what `from` judges by into the handle `to`; what that held is closed. Later calls and publishes change
/// nothing in it, and it may be asked in another thread.
#[unsafe(no_mangle)]
pub extern "C" fn casbin_snapshot(alloc: Global, from: &mut Handle, to: &mut Handle) -> u32
    ensures { Uses from.old.held.inside from.new.held.inside
        ((result ≡ closed) × (to.new.held.inside ≡ to.old.held.inside))
        (λ old new. (new ≡ old) × Takes old result to.old.held.inside to.new.held.inside) }
{
    let Some(enforcer) = from.take(alloc) else {
        return CLOSED;
    };
    let taken = snapshot_box(alloc, &enforcer);
    from.give(enforcer);
    match taken {
        Ok(snapshot) => {
            to.put(alloc, snapshot);
            OK
        }
        Err(_) => NO_MEMORY,
    }
}

// A snapshot of an enforcer, in a box.
fn snapshot_box(alloc: Global, enforcer: &Enforcer) -> Result<Box<Enforcer>, NoMemory>
    ensures { IfOk result (λ made. IsSnapshotOf enforcer.now made.value) }
{
    let snapshot = enforcer.snapshot(alloc)?;
    let made = boxed(alloc, snapshot)?;
    Ok(made)
}

/// Closes the handle; a closed one stays so.
#[unsafe(no_mangle)]
pub extern "C" fn casbin_close(alloc: Global, handle: &mut Handle)
    ensures { handle.new.held.inside ≡ None }
{
    drop(handle.take(alloc));
}
