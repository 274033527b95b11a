ghost use Rattle.std.specs.Prelude.{◌≡◌, Ok};
ghost use Rattle.enforce_core.specs.Places.{state_at};
ghost use Rattle.enforce_core.specs.Shown.{rule_text};
ghost use Rattle.policy_csv.specs.Printed.{printed};
ghost use Rattle.policy_state.specs.States.{tables};
ghost use Rattle.casbin_c.specs.Codes.{closed};
ghost use Rattle.casbin_c.specs.Handles.{Uses};
ghost use Rattle.casbin_c.specs.Told.{TellsPolicy, TellsRule, WritesPolicy, WritesRule};

use crate::codes::{CLOSED, NO_MEMORY, NO_RULE};
use crate::handle::Handle;
use crate::room::write_text;
use outside::{NoMemory, Text};
use std::alloc::Global;

/// Shows the rule of p with this number, counted from 1, as it stands in the policy by which requests are judged.
#[unsafe(no_mangle)]
pub extern "C" fn casbin_rule(
    alloc: Global,
    handle: &mut Handle,
    row: u32,
    room: &mut [u8],
    size: &mut usize,
) -> u32
    ensures { Uses handle.old.held.inside handle.new.held.inside
        ((result ≡ closed) × (room.new ≡ room.old) × (size.new ≡ size.old))
        (λ old new. (new ≡ old) × TellsRule (rule_text (tables (state_at old.place)) row)
        result room.old room.new size.old size.new) }
{
    let Some(enforcer) = handle.take(alloc) else {
        return CLOSED;
    };
    let shown = enforcer.rule_text(alloc, row);
    handle.give(enforcer);
    tell_rule(shown, room, size)
}

// Writes a rule that was shown, where there is one.
fn tell_rule(shown: Result<Option<Text>, NoMemory>, room: &mut [u8], size: &mut usize) -> u32
    ensures { WritesRule shown result room.old room.new size.old size.new }
{
    match shown {
        Ok(found) => tell_found(found, room, size),
        Err(_) => NO_MEMORY,
    }
}

// Writes it where there is one.
fn tell_found(found: Option<Text>, room: &mut [u8], size: &mut usize) -> u32
    ensures { WritesRule (Ok found) result room.old room.new size.old size.new }
{
    match found {
        Some(text) => write_text(&text, room, size),
        None => NO_RULE,
    }
}

/// Shows the policy by which requests are judged, as text that can be read again.
#[unsafe(no_mangle)]
pub extern "C" fn casbin_policy(
    alloc: Global,
    handle: &mut Handle,
    room: &mut [u8],
    size: &mut usize,
) -> u32
    ensures { Uses handle.old.held.inside handle.new.held.inside
        ((result ≡ closed) × (room.new ≡ room.old) × (size.new ≡ size.old))
        (λ old new. (new ≡ old) × TellsPolicy (printed (tables (state_at old.place)))
        result room.old room.new size.old size.new) }
{
    let Some(enforcer) = handle.take(alloc) else {
        return CLOSED;
    };
    let shown = enforcer.policy_text(alloc);
    handle.give(enforcer);
    tell_policy(shown, room, size)
}

// Writes a policy that was shown.
fn tell_policy(shown: Result<Text, NoMemory>, room: &mut [u8], size: &mut usize) -> u32
    ensures { WritesPolicy shown result room.old room.new size.old size.new }
{
    match shown {
        Ok(text) => write_text(&text, room, size),
        Err(_) => NO_MEMORY,
    }
}
