ghost use Rattle.std.specs.Prelude.{◌≡◌, ◌≤◌, ◌∷◌, [], IfErr, OnOk, true};
ghost use Rattle.decision.specs.Programs.{Suits};
ghost use Rattle.outside.specs.Faults.{Rose};
ghost use Rattle.regex_gate.specs.Refusals.{IsUsed};
ghost use Rattle.script_read.specs.Named.{is_named};
ghost use Rattle.script_read.specs.Said.{seen};
ghost use Rattle.live_serve.specs.Places.{StandsSomewhere, at_desk, state_at};
ghost use Rattle.live_serve.specs.Sayings.{said};
ghost use Rattle.live_serve.specs.Served.{Halts, Pushed};
ghost use Rattle.live_serve.specs.Standings.{desk_standing};

use crate::pen::Pen;
use decision::{Program, Scratch};
use desk_session::answer_item;
use outside::Sink;
use policy_desk::Desk;
use regex_gate::Finder;
use run_status::Stop;
use script_read::Item;
use session_meaning::replies_are_printable;
use std::alloc::Global;

/// A clerk at a desk.
#[derive(Drop)]
pub struct DeskClerk {
    desk: Desk,
    scratch: Scratch,
    pub(crate) pen: Pen,
}

impl DeskClerk {
    /// A clerk who has answered nothing yet. It takes no memory.
    pub fn new(alloc: Global, desk: Desk, program: &Program) -> DeskClerk
        ensures { desk_standing result ≡ record { place = at_desk desk; number = 0 } }
    {
        DeskClerk {
            desk,
            scratch: Scratch::for_program(alloc, program),
            pen: Pen::new(alloc),
        }
    }

    /// Does an item, and pushes its answer.
    pub(crate) fn serve_item<K: Sink, P: Finder>(
        &mut self,
        alloc: Global,
        program: &Program,
        item: &Item,
        out: &mut K,
        finder: &mut P,
    ) -> Result<(), Stop>
        requires suits { Suits program.now (state_at (desk_standing self.old).place).shapes }
        requires stands { StandsSomewhere (desk_standing self.old).place }
        requires has_name { is_named (seen item.now) ≡ true }
        ensures served { OnOk result
            (Pushed program.now (P.refusals finder.old) (P.refusals finder.new)
            (desk_standing self.old) (desk_standing self.new) (K.taken out.old) (K.taken out.new)
            (said (seen item.now ∷ []))) }
        ensures stopped { IfErr result (λ stop.
            Halts program.now (desk_standing self.old) (K.taken out.old) (K.taken out.new)
            (Rose (K.faults out.old) (K.faults out.new)) stop (said (seen item.now ∷ []))) }
        ensures counted { K.faults out.old ≤ K.faults out.new }
        ensures used { IsUsed (P.refusals finder.old) (P.refusals finder.new) }
    {
        replies_are_printable();
        let answer = answer_item(
            alloc,
            &mut self.desk,
            program,
            item,
            finder,
            &mut self.scratch,
        )?;
        self.pen.tell(answer, out)
    }
}
