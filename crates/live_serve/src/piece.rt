ghost use Rattle.std.specs.Prelude.{◌≡◌, ◌≤◌, ◌+◌, [], IfErr, OnOk, drop, length};
ghost use Rattle.decision.specs.Programs.{Suits};
ghost use Rattle.outside.specs.Faults.{Rose};
ghost use Rattle.regex_gate.specs.Refusals.{IsUsed};
ghost use Rattle.live_serve.specs.Places.{StandsSomewhere, is_followers, state_at};
ghost use Rattle.live_serve.specs.Standings.{standing};
ghost use Rattle.live_serve.specs.Streams.{LeavesPiece, TakesPiece};

use crate::clerk::{Clerk, serve_ended};
use decision::Program;
use item_stream::Sections;
use outside::Sink;
use regex_gate::Finder;
use run_status::Stop;
use std::alloc::Global;

/// Takes a piece of a stream: each section that ends in it is answered, and its answer is pushed before the next is looked at.
/// Behind it the sink took the answers of these sections and nothing else.
pub fn serve_piece<K: Sink, P: Finder>(
    alloc: Global,
    clerk: &mut Clerk,
    sections: &mut Sections,
    program: &Program,
    json: bool,
    piece: &[u8],
    out: &mut K,
    finder: &mut P,
) -> Result<(), Stop>
    requires suits { Suits program.now (state_at (standing clerk.old).place).shapes }
    requires stands { StandsSomewhere (standing clerk.old).place }
    ensures served { OnOk result (TakesPiece json (is_followers (standing clerk.old).place)
        program.now
        (P.refusals finder.old) (P.refusals finder.new) (standing clerk.old) (standing clerk.new)
        sections.old sections.new piece.now [] (K.taken out.old) (K.taken out.new)) }
    ensures stopped { IfErr result (LeavesPiece json (is_followers (standing clerk.old).place)
        program.now
        (standing clerk.old) sections.old piece.now
        (K.taken out.old) (K.taken out.new) (Rose (K.faults out.old) (K.faults out.new))) }
    ensures counted { K.faults out.old ≤ K.faults out.new }
    ensures used { IsUsed (P.refusals finder.old) (P.refusals finder.new) }
{
    let mut at = 0;
    while at < piece.len() {
        let (used, section) = sections.take_line(alloc, rest_of(piece, at))?;
        at += used;
        serve_ended(clerk, alloc, program, json, section, out, finder)?;
    }
    Ok(())
}

// The bytes from a place on.
fn rest_of(piece: &[u8], at: usize) -> &[u8]
    requires { at ≤ length piece.now }
    ensures rest { result.now ≡ drop at piece.now }
    ensures long { length result.now + at ≡ length piece.now }
{
    &piece[at..]
}
