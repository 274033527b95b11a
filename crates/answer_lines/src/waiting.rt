ghost use Rattle.std.specs.Prelude.{◌≡◌, ◌+◌, ◌<◌, ◌≤◌, ◌∷◌, ◌++◌, ◌^◌, [], IfOk, OnErr, OnOk, length, option_copied, true};
ghost use Rattle.answer_lines.specs.Printed.{AreTakenOut, printed_answer};
ghost use Rattle.answer_lines.specs.Told.{comes_with_rule, is_printable};
ghost use Rattle.answer_lines.specs.declared.answer.Answer.TheVariants.{Decided};

use crate::answer::Answer;
use crate::kept::KeptAnswers;
use crate::printed_lines::PrintedLines;
use effect_fold::Verdict;
use outside::NoMemory;
use perm_base::Rule;
use std::alloc::Global;
use std::marker::Model;

/// Printed answers that wait for their lines: they are taken out in the order in which they were put in. Contracts see the list of
/// those that are left.
#[derive(Drop)]
pub struct WaitingAnswers {
    kept: KeptAnswers,
    // The number that the line of the next one has most likely.
    number: u32,
}

impl Model for WaitingAnswers {
    ghost use Rattle.std.specs.Prelude.{List};
    ghost use Rattle.answer_lines.specs.Printed as answer;

    ghost Value = { List answer.PrintedAnswer };

    ghost view = { λ w. w.kept };
}

impl WaitingAnswers {
    /// None, and no memory for any.
    pub fn new(alloc: Global) -> WaitingAnswers
        ensures { result ≡ [] }
    {
        WaitingAnswers {
            kept: KeptAnswers::new(alloc),
            number: 1,
        }
    }

    /// None, with memory for so many, and for so many bytes of their lines: up to these nothing is moved when one is put in.
    pub fn with_room(
        alloc: Global,
        answers: usize,
        bytes: usize,
    ) -> Result<WaitingAnswers, NoMemory>
        ensures none { IfOk result (λ waiting. waiting ≡ []) }
    {
        let kept = KeptAnswers::with_room(alloc, answers, bytes)?;
        Ok(WaitingAnswers { kept, number: 1 })
    }

    /// How many are left.
    pub fn len(&self) -> usize
        ensures { result ≡ length self.now }
    {
        self.kept.len()
    }

    /// The line of the answer that is put in next has most likely this number, and those behind it the next ones. An answer whose line has
    /// another number is printed anew.
    pub fn expect(&mut self, number: u32)
        ensures { self.new ≡ self.old }
    {
        self.number = number;
    }

    /// Prints an answer, which is put in behind the others. Refused is want of memory alone, and so is a text of more than 2^32 - 1
    /// bytes: then all are as they were.
    pub fn push_answer(&mut self, answer: &Answer) -> Result<(), NoMemory>
        requires printable { is_printable answer.now ≡ true }
        ensures pushed { OnOk result (self.new ≡ self.old ++ printed_answer answer.now ∷ []) }
        ensures same { OnErr result (self.new ≡ self.old) }
    {
        let number = self.number;
        self.kept.push_answer(number, answer)?;
        self.number = number.saturating_add(1);
        Ok(())
    }

    /// Prints a verdict as `push_answer` prints `Answer::Decided`, with a rule that is not copied.
    pub fn push_verdict(
        &mut self,
        version: u32,
        verdict: Verdict,
        rule: Option<&Rule>,
    ) -> Result<(), NoMemory>
        requires printable { comes_with_rule verdict (option_copied rule) ≡ true }
        ensures pushed { OnOk result (self.new ≡ self.old
            ++ printed_answer (Decided version verdict (option_copied rule.entry)) ∷ []) }
        ensures same { OnErr result (self.new ≡ self.old) }
    {
        let number = self.number;
        self.kept.push_verdict(number, version, verdict, rule)?;
        self.number = number.saturating_add(1);
        Ok(())
    }

    /// Takes some of the first ones out, at most so many, and puts their lines behind others, with this number and those behind it. It
    /// says how many. Where memory runs out all are left.
    pub fn print_some(
        &mut self,
        number: u32,
        most: usize,
        lines: &mut PrintedLines,
    ) -> Result<usize, NoMemory>
        ensures taken { IfOk result (λ count. AreTakenOut count number
            self.old self.new lines.old lines.new) }
        ensures most { IfOk result (λ count. count ≤ most) }
        ensures some { IfOk result (λ count. 0 < most → 0 < length self.old → 0 < count) }
        ensures numbers { IfOk result (λ count. number + count ≤ 2 ^ 32) }
        ensures same { OnErr result (self.new ≡ self.old) }
    {
        self.kept.print_some(number, most, lines)
    }
}
