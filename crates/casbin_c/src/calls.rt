ghost use Rattle.std.specs.Prelude.{◌≡◌};
ghost use Rattle.enforce_core.specs.Called.{CallsTo, PublishesTo};
ghost use Rattle.enforce_core.specs.Places.{state_at};
ghost use Rattle.version_log.specs.Log.{versions};
ghost use Rattle.casbin_c.specs.Codes.{closed, code_of_call, code_of_done, code_of_publish};
ghost use Rattle.casbin_c.specs.Codes.{code_of_stop, ok};
ghost use Rattle.casbin_c.specs.Handles.{Uses};
ghost use Rattle.casbin_c.specs.Told.{TellsCall, TellsVersion, WritesCall, WritesLine};
ghost use Rattle.casbin_c.specs.Told.{WritesTold, told_stop, version_of};

use crate::codes::{CLOSED, NO_MEMORY, OK, REFUSED, SCRIPT, SNAPSHOT, UNTOLD};
use crate::handle::Handle;
use crate::room::{write_stop, write_text};
use enforce_core::{CallStop, Called};
use run_status::Stop;
use std::alloc::Global;

/// Does one item of a script that is no request: a call, a batch, a query, a publish (Casbin, management API). The line that
/// answers it, or tells why the text is none, is written to `line` where it fits, and its length is told. A call changes the
/// drafts alone: what is judged changes with a publish.
#[unsafe(no_mangle)]
pub extern "C" fn casbin_call(
    alloc: Global,
    handle: &mut Handle,
    text: &[u8],
    line: &mut [u8],
    size: &mut usize,
) -> u32
    ensures { Uses handle.old.held.inside handle.new.held.inside
        ((result ≡ closed) × (line.new ≡ line.old) × (size.new ≡ size.old))
        (λ old new. (new ≡ record old { place = new.place }) × TellsCall
        (CallsTo old.place new.place text.now) result line.old line.new size.new) }
{
    let Some(mut enforcer) = handle.take(alloc) else {
        return CLOSED;
    };
    let called = enforcer.call(alloc, text);
    handle.give(enforcer);
    tell_call(alloc, called, line, size)
}

// Writes the line of a call, and gives its code.
fn tell_call(
    alloc: Global,
    called: Result<Called, CallStop>,
    line: &mut [u8],
    size: &mut usize,
) -> u32
    ensures code { result ≡ code_of_call called }
    ensures written { WritesCall called line.old line.new size.new }
{
    match called {
        Ok(done) => tell_done(done, line, size),
        Err(stop) => tell_stop(alloc, stop, line, size),
    }
}

// Writes the line of a call that was answered, and gives its code.
fn tell_done(done: Called, line: &mut [u8], size: &mut usize) -> u32
    ensures code { result ≡ code_of_done done.refused }
    ensures written { WritesLine done.line line.old line.new size.new }
{
    let _code = write_text(&done.line, line, size);
    code_of_done(done.refused)
}

// The code of a call that was answered.
fn code_of_done(refused: bool) -> u32
    ensures { result ≡ code_of_done refused }
{
    if refused { REFUSED } else { OK }
}

// Writes why a call was not answered, where that is its text's fault, and gives its code.
fn tell_stop(alloc: Global, stop: CallStop, line: &mut [u8], size: &mut usize) -> u32
    ensures code { result ≡ code_of_stop stop }
    ensures written { WritesTold (told_stop stop) line.old line.new size.new }
{
    write_told(alloc, told_stop(stop), line, size);
    code_of_stop(stop)
}

// The stop whose line tells why a text is no script.
fn told_stop(stop: CallStop) -> Option<Stop>
    ensures { result ≡ told_stop stop }
{
    match stop {
        CallStop::NoScript(fault) => Some(Stop::NoScript(fault)),
        CallStop::NoItem | CallStop::Snapshot | CallStop::NoMemory | CallStop::Untold => None,
    }
}

// Writes the line of a stop, where there is one.
fn write_told(alloc: Global, told: Option<Stop>, line: &mut [u8], size: &mut usize)
    ensures { WritesTold told line.old line.new size.new }
{
    let Some(stop) = told else {
        *size = 0;
        return;
    };
    write_stop(alloc, stop, line, size);
}

/// Publishes what was called since the last publish, and tells the new version.
#[unsafe(no_mangle)]
pub extern "C" fn casbin_publish(alloc: Global, handle: &mut Handle, version: &mut u32) -> u32
    ensures { Uses handle.old.held.inside handle.new.held.inside
        ((result ≡ closed) × (version.new ≡ version.old))
        (λ old new. (new ≡ record old { place = new.place }) × TellsVersion
        (PublishesTo old.place new.place) result version.old version.new) }
{
    let Some(mut enforcer) = handle.take(alloc) else {
        return CLOSED;
    };
    let published = enforcer.publish(alloc);
    handle.give(enforcer);
    tell_version(published, version)
}

// Tells a version that was published, and gives the code.
fn tell_version(published: Result<u32, CallStop>, version: &mut u32) -> u32
    ensures code { result ≡ code_of_publish published }
    ensures told { version.new ≡ version_of version.old published }
{
    match published {
        Ok(number) => {
            *version = number;
            OK
        }
        Err(stop) => code_of_stop(stop),
    }
}

// The code of a call that was not answered.
fn code_of_stop(stop: CallStop) -> u32
    ensures { result ≡ code_of_stop stop }
{
    match stop {
        CallStop::NoScript(_) | CallStop::NoItem => SCRIPT,
        CallStop::Snapshot => SNAPSHOT,
        CallStop::NoMemory => NO_MEMORY,
        CallStop::Untold => UNTOLD,
    }
}

/// Tells the version of the policy by which requests are judged.
#[unsafe(no_mangle)]
pub extern "C" fn casbin_version(alloc: Global, handle: &mut Handle, version: &mut u32) -> u32
    ensures { Uses handle.old.held.inside handle.new.held.inside
        ((result ≡ closed) × (version.new ≡ version.old))
        (λ old new. (new ≡ old) × (result ≡ ok)
        × (version.new ≡ versions (state_at old.place).log)) }
{
    let Some(enforcer) = handle.take(alloc) else {
        return CLOSED;
    };
    let number = enforcer.version();
    handle.give(enforcer);
    *version = number;
    OK
}
