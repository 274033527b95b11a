ghost use Rattle.std.specs.Prelude.{◌≡◌, ◌≤◌, ◌∷◌, [], All, IfErr, OnOk, Some, false, map, true};
ghost use Rattle.decision.specs.Programs.{Suits};
ghost use Rattle.item_stream.specs.Lines.{begins_packet};
ghost use Rattle.item_stream.specs.Seen as cut;
ghost use Rattle.outside.specs.Faults.{Rose};
ghost use Rattle.outside.specs.Told.{with_back};
ghost use Rattle.regex_gate.specs.Refusals.{IsUsed};
ghost use Rattle.script_read.specs.Named.{is_named};
ghost use Rattle.script_read.specs.Said.{seen};
ghost use Rattle.live_serve.specs.Lines.{next_number, refused_text};
ghost use Rattle.live_serve.specs.Places.{StandsSomewhere, at_desk, follows, is_followers, state_at};
ghost use Rattle.live_serve.specs.Sayings.{is_sent, said};
ghost use Rattle.live_serve.specs.Served.{Halts, OfSection, Pushed, SectionStops};
ghost use Rattle.live_serve.specs.Standings.{standing};
ghost use Rattle.live_serve.specs.Helps.Ended.{LeavesEnded, TakesEnded};
ghost use Rattle.live_serve.specs.Helps.Untold.{TellStops};

use crate::cause::cause_text;
use crate::desk_clerk::DeskClerk;
use crate::follower_clerk::FollowerClerk;
use crate::script::script_of;
use decision::Program;
use item_stream::{Section, is_packet};
use log_ship::Follower;
use outside::Sink;
use policy_desk::Desk;
use regex_gate::Finder;
use run_status::Stop;
use script_read::{Item, Script};
use std::alloc::Global;

/// Who answers the sections of a stream, each line with its number.
#[derive(Drop)]
pub enum Clerk {
    Desk(DeskClerk),
    Follower(FollowerClerk),
}

impl Clerk {
    /// A clerk at a desk who has answered nothing yet. It takes no memory.
    pub fn over_desk(alloc: Global, desk: Desk, program: &Program) -> Clerk
        ensures { standing result ≡ record { place = at_desk desk; number = 0 } }
    {
        Clerk::Desk(DeskClerk::new(alloc, desk, program))
    }

    /// A clerk with a follower who has answered nothing yet. It takes no memory.
    pub fn over_follower(alloc: Global, follower: Follower, program: &Program) -> Clerk
        ensures { standing result ≡ record { place = follows follower; number = 0 } }
    {
        Clerk::Follower(FollowerClerk::new(alloc, follower, program))
    }

    /// Whether its stream is a follower's, in which packets are sections too.
    pub(crate) fn takes_packets(&self) -> bool
        ensures { result ≡ is_followers (standing self.now).place }
    {
        match self {
            Clerk::Desk(_) => false,
            Clerk::Follower(_) => true,
        }
    }

    /// Does what a section says, and pushes its answer. Behind that the sink took the answer and nothing else.
    pub fn serve_section<K: Sink, P: Finder>(
        &mut self,
        alloc: Global,
        program: &Program,
        json: bool,
        section: Section,
        out: &mut K,
        finder: &mut P,
    ) -> Result<(), Stop>
        requires suits { Suits program.now (state_at (standing self.old).place).shapes }
        requires stands { StandsSomewhere (standing self.old).place }
        ensures served { OnOk result (OfSection json (is_followers (standing self.old).place)
            (cut.seen section)
            (Pushed program.now (P.refusals finder.old) (P.refusals finder.new)
            (standing self.old) (standing self.new) (K.taken out.old) (K.taken out.new))) }
        ensures stopped { IfErr result (SectionStops json (is_followers (standing self.old).place)
            program.now
            (standing self.old) (cut.seen section) (K.taken out.old) (K.taken out.new)
            (Rose (K.faults out.old) (K.faults out.new))) }
        ensures counted { K.faults out.old ≤ K.faults out.new }
        ensures used { IsUsed (P.refusals finder.old) (P.refusals finder.new) }
    {
        match section {
            Section::TooLong => self.refuse("too long", out),
            Section::Lines(lines) => self.serve_lines(alloc, program, json, &lines, out, finder),
        }
    }

    // Does what lines say, and pushes their answer.
    fn serve_lines<K: Sink, P: Finder>(
        &mut self,
        alloc: Global,
        program: &Program,
        json: bool,
        lines: &[u8],
        out: &mut K,
        finder: &mut P,
    ) -> Result<(), Stop>
        requires suits { Suits program.now (state_at (standing self.old).place).shapes }
        requires stands { StandsSomewhere (standing self.old).place }
        ensures served { OnOk result (OfSection json (is_followers (standing self.old).place)
            (Some lines.now)
            (Pushed program.now (P.refusals finder.old) (P.refusals finder.new)
            (standing self.old) (standing self.new) (K.taken out.old) (K.taken out.new))) }
        ensures stopped { IfErr result (SectionStops json (is_followers (standing self.old).place)
            program.now
            (standing self.old) (Some lines.now) (K.taken out.old) (K.taken out.new)
            (Rose (K.faults out.old) (K.faults out.new))) }
        ensures counted { K.faults out.old ≤ K.faults out.new }
        ensures used { IsUsed (P.refusals finder.old) (P.refusals finder.new) }
    {
        if is_packet(lines) {
            return self.serve_sent(alloc, program, json, lines, out, finder);
        }
        self.serve_script(alloc, program, json, lines, out, finder)
    }

    // The same of lines that are packets in a follower's stream, and a script in any other.
    fn serve_sent<K: Sink, P: Finder>(
        &mut self,
        alloc: Global,
        program: &Program,
        json: bool,
        lines: &[u8],
        out: &mut K,
        finder: &mut P,
    ) -> Result<(), Stop>
        requires suits { Suits program.now (state_at (standing self.old).place).shapes }
        requires stands { StandsSomewhere (standing self.old).place }
        requires sent { begins_packet lines.now ≡ true }
        ensures served { OnOk result (OfSection json (is_followers (standing self.old).place)
            (Some lines.now)
            (Pushed program.now (P.refusals finder.old) (P.refusals finder.new)
            (standing self.old) (standing self.new) (K.taken out.old) (K.taken out.new))) }
        ensures stopped { IfErr result (SectionStops json (is_followers (standing self.old).place)
            program.now
            (standing self.old) (Some lines.now) (K.taken out.old) (K.taken out.new)
            (Rose (K.faults out.old) (K.faults out.new))) }
        ensures counted { K.faults out.old ≤ K.faults out.new }
        ensures used { IsUsed (P.refusals finder.old) (P.refusals finder.new) }
    {
        match self {
            Clerk::Desk(_) => self.serve_script(alloc, program, json, lines, out, finder),
            Clerk::Follower(clerk) => clerk.serve_packets(alloc, lines, out),
        }
    }

    // Does what a script says, and pushes its answer.
    fn serve_script<K: Sink, P: Finder>(
        &mut self,
        alloc: Global,
        program: &Program,
        json: bool,
        lines: &[u8],
        out: &mut K,
        finder: &mut P,
    ) -> Result<(), Stop>
        requires suits { Suits program.now (state_at (standing self.old).place).shapes }
        requires stands { StandsSomewhere (standing self.old).place }
        requires script { is_sent (is_followers (standing self.old).place) lines.now ≡ false }
        ensures served { OnOk result (OfSection json (is_followers (standing self.old).place)
            (Some lines.now)
            (Pushed program.now (P.refusals finder.old) (P.refusals finder.new)
            (standing self.old) (standing self.new) (K.taken out.old) (K.taken out.new))) }
        ensures stopped { IfErr result (SectionStops json (is_followers (standing self.old).place)
            program.now
            (standing self.old) (Some lines.now) (K.taken out.old) (K.taken out.new)
            (Rose (K.faults out.old) (K.faults out.new))) }
        ensures counted { K.faults out.old ≤ K.faults out.new }
        ensures used { IsUsed (P.refusals finder.old) (P.refusals finder.new) }
    {
        let read = script_of(alloc, lines, json)?;
        match read {
            Ok(script) => self.serve_items(alloc, program, &script, out, finder),
            Err(fault) => self.refuse(cause_text(fault), out),
        }
    }

    // Does items one after the other, and pushes the answer of each.
    fn serve_items<K: Sink, P: Finder>(
        &mut self,
        alloc: Global,
        program: &Program,
        script: &Script,
        out: &mut K,
        finder: &mut P,
    ) -> Result<(), Stop>
        requires suits { Suits program.now (state_at (standing self.old).place).shapes }
        requires stands { StandsSomewhere (standing self.old).place }
        requires have_names { All (λ item. is_named item ≡ true) (map seen script.now) }
        ensures served { OnOk result
            (Pushed program.now (P.refusals finder.old) (P.refusals finder.new)
            (standing self.old) (standing self.new) (K.taken out.old) (K.taken out.new)
            (said (map seen script.now))) }
        ensures stopped { IfErr result (λ stop.
            Halts program.now (standing self.old) (K.taken out.old) (K.taken out.new)
            (Rose (K.faults out.old) (K.faults out.new)) stop (said (map seen script.now))) }
        ensures counted { K.faults out.old ≤ K.faults out.new }
        ensures used { IsUsed (P.refusals finder.old) (P.refusals finder.new) }
    {
        let items = script.as_slice();
        for item in items {
            self.serve_item(alloc, program, item, out, finder)?;
        }
        Ok(())
    }

    // Answers an item as who the clerk works for does, and pushes the answer.
    fn serve_item<K: Sink, P: Finder>(
        &mut self,
        alloc: Global,
        program: &Program,
        item: &Item,
        out: &mut K,
        finder: &mut P,
    ) -> Result<(), Stop>
        requires suits { Suits program.now (state_at (standing self.old).place).shapes }
        requires stands { StandsSomewhere (standing self.old).place }
        requires has_name { is_named (seen item.now) ≡ true }
        ensures served { OnOk result
            (Pushed program.now (P.refusals finder.old) (P.refusals finder.new)
            (standing self.old) (standing self.new) (K.taken out.old) (K.taken out.new)
            (said (seen item.now ∷ []))) }
        ensures stopped { IfErr result (λ stop.
            Halts program.now (standing self.old) (K.taken out.old) (K.taken out.new)
            (Rose (K.faults out.old) (K.faults out.new)) stop (said (seen item.now ∷ []))) }
        ensures counted { K.faults out.old ≤ K.faults out.new }
        ensures used { IsUsed (P.refusals finder.old) (P.refusals finder.new) }
    {
        match self {
            Clerk::Desk(clerk) => clerk.serve_item(alloc, program, item, out, finder),
            Clerk::Follower(clerk) => clerk.serve_item(alloc, program, item, out, finder),
        }
    }

    // Tells why a section is no script.
    fn refuse<K: Sink>(&mut self, cause: &str, out: &mut K) -> Result<(), Stop>
        ensures told { OnOk result (K.taken out.new ≡ with_back (K.taken out.old)
            (refused_text (next_number (standing self.old).number) cause.now)) }
        ensures stopped { IfErr result (TellStops (K.taken out.old) (K.taken out.new)
            (refused_text (next_number (standing self.old).number) cause.now)
            (Rose (K.faults out.old) (K.faults out.new))) }
        ensures counted { K.faults out.old ≤ K.faults out.new }
        ensures next { (standing self.new).number ≡ next_number (standing self.old).number }
        ensures place { (standing self.new).place ≡ (standing self.old).place }
    {
        match self {
            Clerk::Desk(clerk) => clerk.pen.refuse("refused: script ", cause, out),
            Clerk::Follower(clerk) => clerk.pen.refuse("refused: script ", cause, out),
        }
    }
}

/// Does what a section says, where one has ended.
pub(crate) fn serve_ended<K: Sink, P: Finder>(
    clerk: &mut Clerk,
    alloc: Global,
    program: &Program,
    json: bool,
    section: Option<Section>,
    out: &mut K,
    finder: &mut P,
) -> Result<(), Stop>
    requires suits { Suits program.now (state_at (standing clerk.old).place).shapes }
    requires stands { StandsSomewhere (standing clerk.old).place }
    ensures served { OnOk result (TakesEnded json (is_followers (standing clerk.old).place)
        program.now
        (P.refusals finder.old) (P.refusals finder.new) (standing clerk.old) (standing clerk.new)
        (cut.seen_option section) (K.taken out.old) (K.taken out.new)) }
    ensures stopped { IfErr result (LeavesEnded json (is_followers (standing clerk.old).place)
        program.now
        (standing clerk.old) (cut.seen_option section) (K.taken out.old) (K.taken out.new)
        (Rose (K.faults out.old) (K.faults out.new))) }
    ensures counted { K.faults out.old ≤ K.faults out.new }
    ensures used { IsUsed (P.refusals finder.old) (P.refusals finder.new) }
{
    match section {
        None => Ok(()),
        Some(section) => clerk.serve_section(alloc, program, json, section, out, finder),
    }
}
