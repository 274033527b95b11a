ghost use Rattle.std.specs.Prelude.{◌≡◌, ◌≤◌, ◌⊎◌, ◌++◌, IfErr, MatchResult, OnOk, true};
ghost use Rattle.answer_lines.specs.LineText.{answer_text, numbered};
ghost use Rattle.answer_lines.specs.Told.{is_printable};
ghost use Rattle.loaded_work.specs.Followed.{IsKnown, taken_text};
ghost use Rattle.outside.specs.Faults.{Rose};
ghost use Rattle.outside.specs.Told.{with_back};
ghost use Rattle.run_status.specs.declared.stop.Stop.TheVariants as stops;
ghost use Rattle.live_serve.specs.Lines.{next_number};
ghost use Rattle.live_serve.specs.Helps.Untold.{TellStops};

use crate::taken::push_taken;
use crate::text::{push_refused, push_told};
use answer_lines::{Answer, Line};
use log_ship::{TakeRefused, Taken};
use outside::{Sink, push_all};
use run_status::Stop;
use std::alloc::Global;

/// What answers are told with, each under its number.
#[derive(Drop)]
pub(crate) struct Pen {
    // The number of the last line.
    pub number: u64,
    // The line that is told, and nothing before it.
    text: String,
    // The same under the number 0.
    plain: String,
}

impl Pen {
    /// A pen that has told nothing yet. It takes no memory.
    pub(crate) fn new(alloc: Global) -> Pen
        ensures { result.number ≡ 0 }
    {
        Pen {
            number: 0,
            text: String::new(alloc),
            plain: String::new(alloc),
        }
    }

    /// Tells an answer.
    pub(crate) fn tell<K: Sink>(&mut self, answer: Answer, out: &mut K) -> Result<(), Stop>
        requires printable { is_printable answer ≡ true }
        ensures told { OnOk result (K.taken out.new ≡ with_back (K.taken out.old)
            (numbered (next_number self.old.number) (answer_text answer))) }
        ensures stopped { IfErr result (TellStops (K.taken out.old) (K.taken out.new)
            (numbered (next_number self.old.number) (answer_text answer))
            (Rose (K.faults out.old) (K.faults out.new))) }
        ensures counted { K.faults out.old ≤ K.faults out.new }
        ensures next { self.new.number ≡ next_number self.old.number }
    {
        let number = self.number.saturating_add(1);
        self.number = number;
        self.text.clear();
        let line = Line { number: 0, answer };
        push_told(&mut self.text, &mut self.plain, number, &line)?;
        push_all(out, self.text.as_bytes())?;
        Ok(())
    }

    /// Tells why what was said is refused.
    pub(crate) fn refuse<K: Sink>(
        &mut self,
        front: &str,
        cause: &str,
        out: &mut K,
    ) -> Result<(), Stop>
        ensures told { OnOk result (K.taken out.new ≡ with_back (K.taken out.old)
            (numbered (next_number self.old.number) (front.now ++ cause.now))) }
        ensures stopped { IfErr result (TellStops (K.taken out.old) (K.taken out.new)
            (numbered (next_number self.old.number) (front.now ++ cause.now))
            (Rose (K.faults out.old) (K.faults out.new))) }
        ensures counted { K.faults out.old ≤ K.faults out.new }
        ensures next { self.new.number ≡ next_number self.old.number }
    {
        let number = self.number.saturating_add(1);
        self.number = number;
        self.text.clear();
        push_refused(&mut self.text, number, front, cause)?;
        push_all(out, self.text.as_bytes())?;
        Ok(())
    }

    /// Tells what became of a packet. Where memory ran out for it nothing is told.
    pub(crate) fn tell_taken<K: Sink>(
        &mut self,
        taken: Result<Taken, TakeRefused>,
        out: &mut K,
    ) -> Result<(), Stop>
        ensures told { OnOk result (K.taken out.new ≡ with_back (K.taken out.old)
            (numbered (next_number self.old.number) (taken_text taken))) }
        ensures known { MatchResult result (λ _. IsKnown taken)
            (λ stop. (stop ≡ stops.NoMemory) ⊎ IsKnown taken) }
        ensures stopped { IfErr result (TellStops (K.taken out.old) (K.taken out.new)
            (numbered (next_number self.old.number) (taken_text taken))
            (Rose (K.faults out.old) (K.faults out.new))) }
        ensures counted { K.faults out.old ≤ K.faults out.new }
        ensures next { self.new.number ≡ next_number self.old.number }
    {
        let number = self.number.saturating_add(1);
        self.number = number;
        self.text.clear();
        push_taken(&mut self.text, number, taken)?;
        push_all(out, self.text.as_bytes())?;
        Ok(())
    }
}
