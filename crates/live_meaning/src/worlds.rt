ghost use Rattle.std.specs.Prelude.{◌≡◌, ◌≢◌, ◌∷◌, ◌++◌, [], Ok, Err, IfErr, IfOk, OnErr, OnOk};
ghost use Rattle.live_meaning.specs.Replies.{reply_of};
ghost use Rattle.live_meaning.specs.declared.events.StepStop as declared;

use crate::counts::Counts;
use crate::events::{Event, Reply, StepStop};
use outside::{NoMemory, Share};
use std::alloc::Global;
use std::marker::Model;

/// A policy's life among one administrator and many readers. Contracts see the list of the events that were done. Beside
/// them it keeps what answers the next one, so that a step takes the same time behind any number of events, but for the
/// growth of the list.
#[derive(Drop)]
pub struct World {
    pub(crate) alloc: Global,
    events: Vec<Event>,
    counts: Counts,
}

impl Model for World {
    ghost use Rattle.std.specs.Prelude.{◌≡◌, List};
    ghost use Rattle.live_meaning.specs.Helps.Counted.{counts_of};
    ghost use Rattle.live_meaning.specs.declared.events.Event.{Event};

    ghost Value = { List Event };

    ghost view = { λ w. w.events.items };

    ghost invariant = { λ w. w.counts ≡ counts_of w.events.items };
}

/// A world in which nothing was done. It takes no memory.
pub fn new_world(alloc: Global) -> World
    ensures { result ≡ [] }
{
    World {
        alloc,
        events: Vec::new(alloc),
        counts: Counts::NONE,
    }
}

/// Does an event and answers it. An event of a seat that was not given, or of a note that was not, is refused, and changes
/// nothing; nor does want of memory.
pub fn step(world: &mut World, event: Event) -> Result<Reply, StepStop>
    // The answer is that of the definition.
    ensures reply { IfOk result (λ reply. reply_of world.old event ≡ Ok reply) }
    ensures refused { IfErr result (λ stop.
        stop ≢ StepStop.NoMemory → reply_of world.old event ≡ Err stop) }
    // What is refused is refused whatever memory there is.
    ensures refusal { (stop : declared.StepStop) → reply_of world.old event ≡ Err stop
        → result ≡ Err stop }

    ensures done { OnOk result (world.new ≡ world.old ++ event ∷ []) }
    ensures same { OnErr result (world.new ≡ world.old) }
{
    let reply = world.reply_to(&event)?;
    world.push(event)?;
    Ok(reply)
}

impl World {
    // What an event is answered.
    fn reply_to(&self, event: &Event) -> Result<Reply, StepStop>
        ensures { result ≡ reply_of self.now event.now }
    {
        self.counts.answer(event)
    }

    // Appends an event.
    fn push(&mut self, event: Event) -> Result<(), NoMemory>
        ensures done { OnOk result (self.new ≡ self.old ++ event ∷ []) }
        ensures same { OnErr result (self.new ≡ self.old) }
    {
        let counts = self.counts.with(&event);
        self.events.push(event)?;
        self.counts = counts;
        Ok(())
    }
}

impl Share for World {}
