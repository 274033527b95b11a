ghost use Rattle.std.specs.Prelude.{◌≡◌, ◌≤◌, [], IfErr, IfSome, OnOk, length, take};
ghost use Rattle.decision.specs.Programs.{Suits};
ghost use Rattle.item_stream.specs.Sections.{first_stage, left_at, sections_of};
ghost use Rattle.outside.specs.Ends.{IsEndedOnce};
ghost use Rattle.outside.specs.Faults.{Rose};
ghost use Rattle.regex_gate.specs.Refusals.{IsUsed};
ghost use Rattle.live_serve.specs.Places.{StandsSomewhere, is_followers, state_at};
ghost use Rattle.live_serve.specs.Standings.{standing};
ghost use Rattle.live_serve.specs.Streams.{IsFirst, OfRead, ServeStops, TookTexts, service};
ghost use Rattle.live_serve.specs.Helps.Ended.{LeavesEnded, TakesEnded, at_first};

use crate::clerk::{Clerk, serve_ended};
use crate::piece::serve_piece;
use decision::Program;
use item_stream::Sections;
use outside::{Sink, Source};
use regex_gate::Finder;
use run_status::{Part, Stop};
use std::alloc::Global;

// How many bytes are asked for at once.
const PIECE: usize = 16_384;

// How often bytes are asked for at most; no run comes to its end.
const MOST_PULLS: u64 = 18_446_744_073_709_551_615;

/// Serves a stream by a clerk who has answered nothing yet: each section is answered as soon as its last line is read, and its answer is pushed before the next
/// bytes are pulled. Nothing that comes in ends that but the end of the stream. What is kept does not grow with what was read,
/// but by what its edits make of the policy and its log. The stream is pulled in pieces, of which there are at most 2^64 - 1.
pub fn serve_stream<S: Source, K: Sink, P: Finder>(
    alloc: Global,
    clerk: &mut Clerk,
    program: &Program,
    json: bool,
    input: &mut S,
    out: &mut K,
    finder: &mut P,
) -> Result<(), Stop>
    requires suits { Suits program.now (state_at (standing clerk.old).place).shapes }
    requires first { IsFirst (standing clerk.old).place }
    requires no_line { standing clerk.old ≡ at_first (standing clerk.old).place }

    // The stream was read to its end, and `out` took the texts of all its sections.
    ensures served { OnOk result (OfRead (S.left input.old) (S.left input.new) (λ read.
        TookTexts (service json program.now (standing clerk.old).place)
        (P.refusals finder.old) (P.refusals finder.new)
        (sections_of (is_followers (standing clerk.old).place) read)
        (K.taken out.old) (K.taken out.new))) }
    ensures read_to_end { OnOk result (IfSome (S.left input.new) (λ rest. rest ≡ [])) }

    // It was not, for this cause, and `out` took the texts of the first sections.
    ensures stopped { IfErr result (λ stop. OfRead (S.left input.old) (S.left input.new)
        (ServeStops (service json program.now (standing clerk.old).place)
        (P.refusals finder.old) (P.refusals finder.new) (K.taken out.old) (K.taken out.new)
        (Rose (S.faults input.old) (S.faults input.new))
        (Rose (K.faults out.old) (K.faults out.new)) stop)) }
    ensures no_further { IsEndedOnce (S.ends input.old) (S.ends input.new) }
    ensures input_counted { S.faults input.old ≤ S.faults input.new }
    ensures out_counted { K.faults out.old ≤ K.faults out.new }
    ensures used { IsUsed (P.refusals finder.old) (P.refusals finder.new) }
{
    let mut sections = Sections::new(alloc, clerk.takes_packets());
    serve_pieces(
        alloc,
        clerk,
        &mut sections,
        program,
        json,
        input,
        out,
        finder,
    )
}

// The same by a clerk who has answered nothing yet.
fn serve_pieces<S: Source, K: Sink, P: Finder>(
    alloc: Global,
    clerk: &mut Clerk,
    sections: &mut Sections,
    program: &Program,
    json: bool,
    input: &mut S,
    out: &mut K,
    finder: &mut P,
) -> Result<(), Stop>
    requires suits { Suits program.now (state_at (standing clerk.old).place).shapes }
    requires first { IsFirst (standing clerk.old).place }
    requires no_line { standing clerk.old ≡ at_first (standing clerk.old).place }
    requires no_byte { sections.old ≡ first_stage (is_followers (standing clerk.old).place) }
    ensures served { OnOk result (OfRead (S.left input.old) (S.left input.new) (λ read.
        TookTexts (service json program.now (standing clerk.old).place)
        (P.refusals finder.old) (P.refusals finder.new)
        (sections_of (is_followers (standing clerk.old).place) read)
        (K.taken out.old) (K.taken out.new))) }
    ensures read_to_end { OnOk result (IfSome (S.left input.new) (λ rest. rest ≡ [])) }
    ensures stopped { IfErr result (λ stop. OfRead (S.left input.old) (S.left input.new)
        (ServeStops (service json program.now (standing clerk.old).place)
        (P.refusals finder.old) (P.refusals finder.new) (K.taken out.old) (K.taken out.new)
        (Rose (S.faults input.old) (S.faults input.new))
        (Rose (K.faults out.old) (K.faults out.new)) stop)) }
    ensures no_further { IsEndedOnce (S.ends input.old) (S.ends input.new) }
    ensures input_counted { S.faults input.old ≤ S.faults input.new }
    ensures out_counted { K.faults out.old ≤ K.faults out.new }
    ensures used { IsUsed (P.refusals finder.old) (P.refusals finder.new) }
{
    let mut piece = [0; PIECE];
    let mut pulls = 0;
    while pulls < MOST_PULLS {
        let Ok(count) = input.pull(&mut piece) else {
            return Err(Stop::CannotRead(Part::Input));
        };
        if count == 0 {
            return serve_rest(alloc, clerk, sections, program, json, out, finder);
        }
        let read = front_of(&piece, count);
        serve_piece(alloc, clerk, sections, program, json, read, out, finder)?;
        pulls += 1;
    }
    Err(Stop::TooLong(Part::Input))
}

// Answers the section that is left where a stream ends.
fn serve_rest<K: Sink, P: Finder>(
    alloc: Global,
    clerk: &mut Clerk,
    sections: &mut Sections,
    program: &Program,
    json: bool,
    out: &mut K,
    finder: &mut P,
) -> Result<(), Stop>
    requires suits { Suits program.now (state_at (standing clerk.old).place).shapes }
    requires stands { StandsSomewhere (standing clerk.old).place }
    ensures served { OnOk result (TakesEnded json (is_followers (standing clerk.old).place)
        program.now
        (P.refusals finder.old) (P.refusals finder.new) (standing clerk.old) (standing clerk.new)
        (left_at sections.old) (K.taken out.old) (K.taken out.new)) }
    ensures stopped { IfErr result (LeavesEnded json (is_followers (standing clerk.old).place)
        program.now
        (standing clerk.old) (left_at sections.old)
        (K.taken out.old) (K.taken out.new) (Rose (K.faults out.old) (K.faults out.new))) }
    ensures counted { K.faults out.old ≤ K.faults out.new }
    ensures used { IsUsed (P.refusals finder.old) (P.refusals finder.new) }
{
    let section = sections.take_rest(alloc)?;
    serve_ended(clerk, alloc, program, json, section, out, finder)
}

// The first so many bytes.
fn front_of(piece: &[u8], count: usize) -> &[u8]
    requires { count ≤ length piece.now }
    ensures front { result.now ≡ take count piece.now }
    ensures long { length result.now ≡ count }
{
    &piece[..count]
}
