ghost use Rattle.std.specs.Prelude.{◌≡◌, ◌<◌, [], IfOk, OnOk};
ghost use Rattle.answer_lines.specs.Printed.{ArePrinted};
ghost use Rattle.live_rounds.specs.Helps.MergedItems.{AreSomePrinted, FillsWith, GoesOn, IsRunPrinted, TakesReplies, TakesSome, merged_kinds};
ghost use Rattle.live_rounds.specs.Shares.{in_turn};

use crate::beside::OthersDone;
use crate::kinds::{Kinds, Run};
use answer_lines::{PrintedLines, WaitingAnswers};
use outside::NoMemory;
use std::alloc::Global;
use std::marker::Model;
use std::vec::IntoIter;

// How many lines are taken at a time, so that those of a long round are never all in memory beside its replies.
const AT_ONCE: usize = 1_024;

/// The lines of a round that are left, in the order of its items, of each of which it is known whether it is a request. Contracts see
/// the list of them.
#[derive(Drop)]
pub struct RoundLines {
    kinds: Kinds,
    number: u32,
    asked: Replies,
    others: WaitingAnswers,
}

impl Model for RoundLines {
    ghost use Rattle.std.specs.Prelude.{List};
    ghost use Rattle.answer_lines.specs.Printed as line;
    ghost use Rattle.live_rounds.specs.Helps.MergedItems.{merged_kinds};

    ghost Value = { List line.PrintedLine };

    ghost view = { λ l. merged_kinds l.number l.kinds l.asked l.others };
}

// The replies to requests that are left: of the part that they stand in, and of the parts behind it. Contracts see the list of them.
#[derive(Drop)]
struct Replies {
    current: WaitingAnswers,
    lists: IntoIter<WaitingAnswers>,
}

impl Model for Replies {
    ghost use Rattle.std.specs.Prelude.{◌++◌, List};
    ghost use Rattle.answer_lines.specs.Printed as answer;
    ghost use Rattle.live_rounds.specs.Shares.{in_turn};

    ghost Value = { List answer.PrintedAnswer };

    ghost view = { λ r. r.current ++ in_turn r.lists.rest.items };
}

impl Replies {
    // Takes the first ones out, at most so many, and puts their lines, with this number and those behind it, behind others; it says
    // how many.
    fn print_some(
        &mut self,
        number: u32,
        most: usize,
        lines: &mut PrintedLines,
    ) -> Result<usize, NoMemory>
        requires { 0 < most }
        ensures { IfOk result (λ count. TakesReplies count most number
            self.old self.new lines.old lines.new) }
    {
        if !go_on(&mut self.current, &mut self.lists) {
            return Ok(0);
        }
        self.current.print_some(number, most, lines)
    }
}

// Puts the next list that has a reply in the place of one that has none; it says whether a reply is left.
fn go_on(current: &mut WaitingAnswers, lists: &mut IntoIter<WaitingAnswers>) -> bool
    ensures { GoesOn result current.old current.new lists.old.rest.items lists.new.rest.items }
{
    while current.len() == 0 {
        let Some(next) = lists.next() else {
            return false;
        };
        *current = next;
    }
    true
}

impl RoundLines {
    /// The lines of a round behind so many items, out of the replies to the requests of its parts and of what was answered to its other
    /// items.
    pub(crate) fn new(
        alloc: Global,
        before: u32,
        asked: Vec<WaitingAnswers>,
        others: OthersDone,
    ) -> RoundLines
        ensures { result ≡ merged_kinds before others.kinds.items
            (in_turn asked.items) others.replies }
    {
        let OthersDone { replies, kinds } = others;
        RoundLines {
            kinds: Kinds::new(kinds),
            number: before,
            asked: Replies {
                current: WaitingAnswers::new(alloc),
                lists: asked.into_iter(),
            },
            others: replies,
        }
    }

    /// Takes some of the first lines, which are printed in the place of others; it says whether there were some.
    pub(crate) fn take_some(&mut self, lines: &mut PrintedLines) -> Result<bool, NoMemory>
        ensures { IfOk result (λ some. TakesSome some self.old self.new lines.new) }
    {
        lines.clear();
        self.fill(lines)?;
        Ok(!lines.shown.is_empty())
    }

    // Takes some of the first lines, which are printed.
    fn fill(&mut self, lines: &mut PrintedLines) -> Result<(), NoMemory>
        requires none { ArePrinted [] lines.old }
        ensures { OnOk result (FillsWith self.old self.new lines.new) }
    {
        while lines.shown.len() < AT_ONCE {
            if !self.take_run(AT_ONCE - lines.shown.len(), lines)? {
                return Ok(());
            }
        }
        Ok(())
    }

    // Takes the first lines of the run that stands first, at most so many, which are printed behind others; it says whether there were
    // some.
    fn take_run(&mut self, most: usize, lines: &mut PrintedLines) -> Result<bool, NoMemory>
        requires { 0 < most }
        ensures { IfOk result (λ some. AreSomePrinted some
            self.old self.new lines.old lines.new) }
    {
        let Some(run) = self.kinds.first_run(most) else {
            return Ok(false);
        };
        let number = self.number.saturating_add(1);
        let count = print_run(run, number, &mut self.asked, &mut self.others, lines)?;
        self.kinds.pass(count);
        self.number = self.number.saturating_add(count as u32);
        Ok(0 < count)
    }
}

// Prints the next replies to the requests of a run, or the next ones to its other items, behind others; it says how many.
fn print_run(
    run: Run,
    number: u32,
    asked: &mut Replies,
    others: &mut WaitingAnswers,
    lines: &mut PrintedLines,
) -> Result<usize, NoMemory>
    requires { 0 < run.count }
    ensures { IfOk result (λ count. IsRunPrinted count run.count run.asks number
        asked.old asked.new others.old others.new lines.old lines.new) }
{
    if run.asks {
        return asked.print_some(number, run.count, lines);
    }
    others.print_some(number, run.count, lines)
}
