ghost use Rattle.std.specs.Prelude.{◌≡◌, ◌≤◌, ◌∷◌, [], Bool, IfErr, OnOk, Some, true};
ghost use Rattle.decision.specs.Programs.{Suits};
ghost use Rattle.item_stream.specs.Lines.{begins_packet};
ghost use Rattle.model_conf.specs.ModelText.{ModelParts};
ghost use Rattle.outside.specs.Faults.{Rose};
ghost use Rattle.regex_gate.specs.Refusals.{IsUsed, Refusals};
ghost use Rattle.script_read.specs.Named.{is_named};
ghost use Rattle.script_read.specs.Said.{seen};
ghost use Rattle.live_serve.specs.Places.{StandsSomewhere, follows, state_at};
ghost use Rattle.live_serve.specs.Sayings.{packet, said, sent};
ghost use Rattle.live_serve.specs.Served.{Halts, OfSection, Pushed, SectionStops};
ghost use Rattle.live_serve.specs.Standings.{follower_standing};

use crate::pen::Pen;
use crate::query::answer_query;
use crate::script::packets_of;
use decision::{Program, Scratch};
use log_ship::{Follower, Packet, Packets, texts_read_in_one_way};
use outside::Sink;
use regex_gate::Finder;
use run_status::Stop;
use script_read::Item;
use std::alloc::Global;

/// A clerk with a follower.
#[derive(Drop)]
pub struct FollowerClerk {
    follower: Follower,
    scratch: Scratch,
    pub(crate) pen: Pen,
}

impl FollowerClerk {
    /// A clerk who has answered nothing yet. It takes no memory.
    pub fn new(alloc: Global, follower: Follower, program: &Program) -> FollowerClerk
        ensures { follower_standing result ≡ record { place = follows follower; number = 0 } }
    {
        FollowerClerk {
            follower,
            scratch: Scratch::for_program(alloc, program),
            pen: Pen::new(alloc),
        }
    }

    /// Answers an item, and pushes its answer; what only a leader does is refused.
    pub(crate) fn serve_item<K: Sink, P: Finder>(
        &mut self,
        alloc: Global,
        program: &Program,
        item: &Item,
        out: &mut K,
        finder: &mut P,
    ) -> Result<(), Stop>
        requires suits { Suits program.now (state_at (follower_standing self.old).place).shapes }
        requires stands { StandsSomewhere (follower_standing self.old).place }
        requires has_name { is_named (seen item.now) ≡ true }
        ensures served { OnOk result
            (Pushed program.now (P.refusals finder.old) (P.refusals finder.new)
            (follower_standing self.old) (follower_standing self.new) (K.taken out.old)
            (K.taken out.new) (said (seen item.now ∷ []))) }
        ensures stopped { IfErr result (λ stop.
            Halts program.now (follower_standing self.old) (K.taken out.old) (K.taken out.new)
            (Rose (K.faults out.old) (K.faults out.new)) stop (said (seen item.now ∷ []))) }
        ensures counted { K.faults out.old ≤ K.faults out.new }
        ensures used { IsUsed (P.refusals finder.old) (P.refusals finder.new) }
    {
        let state = self.follower.state();
        let answer = answer_query(alloc, state, program, item, finder, &mut self.scratch)?;
        match answer {
            Some(answer) => self.pen.tell(answer, out),
            None => self.pen.refuse("refused: ", "follower", out),
        }
    }

    /// Takes the packets of lines, and pushes what became of each.
    pub(crate) fn serve_packets<K: Sink>(
        &mut self,
        alloc: Global,
        lines: &[u8],
        out: &mut K,
    ) -> Result<(), Stop>
        requires sent { begins_packet lines.now ≡ true }
        ensures served { OnOk result ((json : Bool) (model : ModelParts) (refusals : Refusals)
            → OfSection json true (Some lines.now) (Pushed model refusals refusals
            (follower_standing self.old) (follower_standing self.new) (K.taken out.old)
            (K.taken out.new))) }
        ensures stopped { IfErr result (λ stop. (json : Bool) (model : ModelParts)
            → SectionStops json true model (follower_standing self.old)
            (Some lines.now) (K.taken out.old) (K.taken out.new)
            (Rose (K.faults out.old) (K.faults out.new)) stop) }
        ensures counted { K.faults out.old ≤ K.faults out.new }
    {
        let read = packets_of(alloc, lines)?;
        match read {
            Some(packets) => self.take_packets(alloc, &packets, out),
            None => self.pen.refuse("refused: ", "packet", out),
        }
    }

    // Takes packets one after the other, and pushes what became of each.
    fn take_packets<K: Sink>(
        &mut self,
        alloc: Global,
        packets: &Packets,
        out: &mut K,
    ) -> Result<(), Stop>
        ensures served { OnOk result ((model : ModelParts) (refusals : Refusals)
            → Pushed model refusals refusals
            (follower_standing self.old) (follower_standing self.new) (K.taken out.old)
            (K.taken out.new) (sent packets.now)) }
        ensures stopped { IfErr result (λ stop. (model : ModelParts)
            → Halts model (follower_standing self.old) (K.taken out.old) (K.taken out.new)
            (Rose (K.faults out.old) (K.faults out.new)) stop (sent packets.now)) }
        ensures counted { K.faults out.old ≤ K.faults out.new }
    {
        let sent = packets.as_slice();
        for packet in sent {
            self.take_packet(alloc, packet, out)?;
        }
        Ok(())
    }

    // Takes a packet, and pushes what became of it.
    fn take_packet<K: Sink>(
        &mut self,
        alloc: Global,
        sent: &Packet,
        out: &mut K,
    ) -> Result<(), Stop>
        ensures served { OnOk result ((model : ModelParts) (refusals : Refusals)
            → Pushed model refusals refusals
            (follower_standing self.old) (follower_standing self.new) (K.taken out.old)
            (K.taken out.new) (packet sent.now ∷ [])) }
        ensures stopped { IfErr result (λ stop. (model : ModelParts)
            → Halts model (follower_standing self.old) (K.taken out.old) (K.taken out.new)
            (Rose (K.faults out.old) (K.faults out.new)) stop (packet sent.now ∷ [])) }
        ensures counted { K.faults out.old ≤ K.faults out.new }
    {
        texts_read_in_one_way();
        let taken = self.follower.take(alloc, sent);
        self.pen.tell_taken(taken, out)
    }
}
