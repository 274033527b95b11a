ghost use Rattle.std.specs.Prelude.{◌≡◌, ◌≢◌, ◌++◌, ◌≤◌, [], Ok, Err, IfErr, IfOk, OnOk, vec_capacity};
ghost use Rattle.live_meaning.specs.Replies.{IsStopped, replies_of};

use crate::events::{Event, Reply, StepStop};
use crate::worlds::{World, step};
use outside::NoMemory;
use std::alloc::Global;

/// Does events one after the other, and answers each. It stops at the first that is refused, with those before it done. It
/// also stops where memory runs out, behind some of them.
pub fn run(world: &mut World, events: Vec<Event>) -> Result<Vec<Reply>, StepStop>
    // The answers are those of the definition, each at its place.
    ensures replies { IfOk result (λ replies.
        replies_of world.old events.items ≡ Ok replies.items) }
    ensures done { OnOk result (world.new ≡ world.old ++ events.items) }

    // The refusal is that of the definition, and the events before it were done.
    ensures refused { IfErr result (λ stop.
        stop ≢ StepStop.NoMemory → replies_of world.old events.items ≡ Err stop) }
    ensures stopped { IfErr result (IsStopped world.old events.items world.new) }
{
    let mut replies = room(world.alloc, events.len())?;
    for event in events {
        let reply = step(world, event)?;
        replies.push_reserved(reply);
    }
    Ok(replies)
}

// Room for replies.
fn room(alloc: Global, count: usize) -> Result<Vec<Reply>, NoMemory>
    ensures none { IfOk result (λ replies. replies.items ≡ []) }
    ensures room { IfOk result (λ replies. count ≤ vec_capacity replies) }
{
    Ok(Vec::with_capacity(alloc, count)?)
}
