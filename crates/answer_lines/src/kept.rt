ghost use Rattle.std.specs.Prelude.{◌≡◌, ◌+◌, ◌<◌, ◌≤◌, ◌∷◌, ◌++◌, ◌^◌, [], IfOk, OnErr, OnOk, decimal, length, map, option_copied, take, true};
ghost use Rattle.answer_lines.specs.Helps.Marked.{IsRun, TellsLine, shown_by_mark, size_of, told_in};
ghost use Rattle.answer_lines.specs.Printed.{AreTakenOut, printed_answer};
ghost use Rattle.answer_lines.specs.Told.{comes_with_rule, is_printable};
ghost use Rattle.answer_lines.specs.declared.answer.Answer.TheVariants.{Decided};

use crate::answer::Answer;
use crate::printed::{Shown, shown_by, shown_by_verdict};
use crate::printed_lines::{PrintedLines, push_line_of};
use crate::whole_lines::{push_whole, push_whole_verdict};
use effect_fold::Verdict;
use itoa::Buffer;
use outside::NoMemory;
use perm_base::Rule;
use std::alloc::Global;
use std::marker::Model;

/// The lines of answers, as they are printed with the numbers that they have most likely, one behind the other in one piece of memory,
/// with what each shows. Contracts see the list of the answers that were not taken out.
#[derive(Drop)]
pub(crate) struct KeptAnswers {
    texts: String,
    marks: Vec<Mark>,
    // How many bytes and how many answers were taken out.
    from: usize,
    taken: usize,
}

// How long the line of an answer is, which number it has, and what the answer shows. There is one for each answer, so it takes few
// bytes.
#[derive(Clone, Copy)]
struct Mark {
    size: u32,
    number: u32,
    shown: Shown,
}

// How many of the first lines have the numbers that are wanted, and how many bytes they have.
#[derive(Clone, Copy)]
struct Run {
    count: usize,
    size: usize,
}

impl Model for KeptAnswers {
    ghost use Rattle.std.specs.Prelude.{List, drop, string_bytes};
    ghost use Rattle.answer_lines.specs.Helps.Marked.{AreMarked, marked};
    ghost use Rattle.answer_lines.specs.Printed as answer;

    ghost Value = { List answer.PrintedAnswer };

    ghost view = { λ w. marked (drop w.taken w.marks.items) (drop w.from (string_bytes w.texts)) };

    ghost invariant = { λ w. AreMarked w.from w.taken (string_bytes w.texts) w.marks.items };
}

impl KeptAnswers {
    /// None, and no memory for any.
    pub(crate) fn new(alloc: Global) -> KeptAnswers
        ensures { result ≡ [] }
    {
        KeptAnswers {
            texts: String::new(alloc),
            marks: Vec::new(alloc),
            from: 0,
            taken: 0,
        }
    }

    /// None, with memory for so many, and for so many bytes of their texts.
    pub(crate) fn with_room(
        alloc: Global,
        answers: usize,
        bytes: usize,
    ) -> Result<KeptAnswers, NoMemory>
        ensures none { IfOk result (λ kept. kept ≡ []) }
    {
        let texts = String::with_capacity(alloc, bytes)?;
        let marks = Vec::with_capacity(alloc, answers)?;
        Ok(KeptAnswers {
            texts,
            marks,
            from: 0,
            taken: 0,
        })
    }

    /// How many are left.
    pub(crate) fn len(&self) -> usize
        ensures { result ≡ length self.now }
    {
        self.marks.len() - self.taken
    }

    /// Prints the line of an answer with this number behind the others. Where memory runs out all are as they were; a line of more than
    /// 2^32 - 1 bytes is for want of memory.
    pub(crate) fn push_answer(&mut self, number: u32, answer: &Answer) -> Result<(), NoMemory>
        requires printable { is_printable answer.now ≡ true }
        ensures pushed { OnOk result (self.new ≡ self.old ++ printed_answer answer.now ∷ []) }
        ensures same { OnErr result (self.new ≡ self.old) }
    {
        self.marks.reserve(1)?;
        let size = push_whole(&mut self.texts, number, answer)?;
        let shown = shown_by(answer);
        self.marks.push_reserved(Mark {
            size,
            number,
            shown,
        });
        Ok(())
    }

    /// Prints a verdict as `push_answer` prints `Answer::Decided`, with a rule that is not copied.
    pub(crate) fn push_verdict(
        &mut self,
        number: u32,
        version: u32,
        verdict: Verdict,
        rule: Option<&Rule>,
    ) -> Result<(), NoMemory>
        requires printable { comes_with_rule verdict (option_copied rule) ≡ true }
        ensures pushed { OnOk result (self.new ≡ self.old
            ++ printed_answer (Decided version verdict (option_copied rule.entry)) ∷ []) }
        ensures same { OnErr result (self.new ≡ self.old) }
    {
        self.marks.reserve(1)?;
        let size = push_whole_verdict(&mut self.texts, number, version, verdict, rule)?;
        let shown = shown_by_verdict(version, verdict);
        self.marks.push_reserved(Mark {
            size,
            number,
            shown,
        });
        Ok(())
    }

    /// Takes some of the first ones out, at most so many, and puts their lines behind others, with this number and those behind it. It
    /// says how many. Lines that were printed with these numbers are copied at once, another is printed anew. Where memory runs out all
    /// are left.
    pub(crate) fn print_some(
        &mut self,
        number: u32,
        most: usize,
        lines: &mut PrintedLines,
    ) -> Result<usize, NoMemory>
        ensures taken { IfOk result (λ count. AreTakenOut count number
            self.old self.new lines.old lines.new) }
        ensures most { IfOk result (λ count. count ≤ most) }
        ensures some { IfOk result (λ count. 0 < most → 0 < length self.old → 0 < count) }
        ensures numbers { IfOk result (λ count. number + count ≤ 2 ^ 32) }
        ensures same { OnErr result (self.new ≡ self.old) }
    {
        if most == 0 {
            return Ok(0);
        }
        let run = run_of(&self.marks[self.taken..], number, most);
        if run.count == 0 {
            return self.print_first(number, lines);
        }
        let taken = self.taken + run.count;
        let until = self.from + run.size;
        push_shown(&mut lines.shown, &self.marks[self.taken..taken])?;
        lines
            .text
            .extend_from_slice(&self.texts.as_bytes()[self.from..until])?;
        self.from = until;
        self.taken = taken;
        Ok(run.count)
    }

    // Takes the first one out, and puts its line with this number behind others; it says how many there were.
    fn print_first(&mut self, number: u32, lines: &mut PrintedLines) -> Result<usize, NoMemory>
        ensures taken { IfOk result (λ count. AreTakenOut count number
            self.old self.new lines.old lines.new) }
        ensures one { IfOk result (λ count. count ≤ 1) }
        ensures some { IfOk result (λ count. 0 < length self.old → 0 < count) }
        ensures same { OnErr result (self.new ≡ self.old) }
    {
        let Some(mark) = self.marks.get(self.taken) else {
            return Ok(0);
        };
        let mark = *mark;
        let until = self.from + mark.size as usize;
        let told = told_in(mark.number, &self.texts.as_bytes()[self.from..until]);
        push_line_of(lines, number, told, mark.shown)?;
        self.from = until;
        self.taken += 1;
        Ok(1)
    }
}

// How many of the first marks have this number and those behind it, at most so many, and how many bytes their lines have.
fn run_of(marks: &[Mark], number: u32, most: usize) -> Run
    requires { size_of marks.now < 2 ^ 63 }
    ensures run { IsRun number result.count marks.now }
    ensures size { result.size ≡ size_of (take result.count marks.now) }
    ensures most { result.count ≤ most }
    ensures numbers { number + result.count ≤ 2 ^ 32 }
{
    let mut count = 0;
    let mut size = 0;
    while let Some(mark) = marks.get(count) {
        if count >= most || !is_behind(mark.number, number, count) {
            return Run { count, size };
        }
        size += mark.size as usize;
        count += 1;
    }
    Run { count, size }
}

// Whether a number is so many behind another.
fn is_behind(number: u32, first: u32, count: usize) -> bool
    ensures { result ≡ true → number ≡ first + count }
{
    number >= first && (number - first) as usize == count
}

// Puts what marks show behind what others show.
fn push_shown(shown: &mut Vec<Shown>, marks: &[Mark]) -> Result<(), NoMemory>
    ensures { OnOk result (shown.new.items
        ≡ shown.old.items ++ map shown_by_mark marks.now) }
{
    for mark in marks {
        shown.push(mark.shown)?;
    }
    Ok(())
}

// What is told in a line with this number, between its blank and its LF.
fn told_in(number: u32, line: &[u8]) -> &[u8]
    requires { TellsLine number line.now }
    ensures { result.now ≡ told_in number line.now }
{
    let mut digits = Buffer::new();
    let front = digits.format(number).len() + 1;
    &line[front..line.len() - 1]
}
