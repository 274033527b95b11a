ghost use Rattle.std.specs.Prelude.{◌≡◌, ◌+◌, ◌<◌, ◌≤◌, ◌^◌, ℕ, Bool, [], IfNone, IfOk, IfSome, List, OnErr, length, take};
ghost use Rattle.script_read.specs.Helps.Asks.{AreAskedBefore};
ghost use Rattle.script_read.specs.Helps.Checked.{AreChecked, is_spent, less_by, limited, lines_behind};
ghost use Rattle.script_read.specs.ItemLines.{ArePassed, IsBuiltAs, IsTakenOff, IsToldAs, items_from, said};
ghost use Rattle.script_read.specs.Said.{Said};
ghost use Rattle.script_read.specs.Script.{SaysFrom};

use crate::item::Item;
use crate::lines::asked_line;
use crate::reader::{part_end, read_part};
use crate::word::{behind_ask, word_and_arguments};
use outside::NoMemory;
use std::alloc::Global;
use std::marker::Model;
use text_parts::next_full_line;

/// The line of a request as it stands in a script, behind its word. `read_line_over` reads it.
#[derive(Clone, Copy)]
pub struct AskedLine<'a> {
    /// It is JSON.
    pub json: bool,
    pub line: &'a str,
}

/// What the first of some items is, which is not built.
#[derive(Clone, Copy)]
pub enum FirstItem<'a> {
    /// A request, by its line.
    Request(AskedLine<'a>),
    /// It waits for what was asked.
    Sync,
    /// Another one.
    Other,
}

/// The first of some items, which is built where it is no request.
#[derive(Drop)]
pub enum BuiltItem<'a> {
    /// A request, by its line.
    Request(AskedLine<'a>),
    /// Another one.
    Other(Item),
}

/// The items of a script that was checked, as they stand in its text: all from a line on, or so many of them. `said` is what they
/// say. Nothing is built of them before they are taken off, and they take no memory.
#[derive(Drop)]
pub struct ItemLines<'a> {
    json: bool,
    text: &'a str,
    number: u64,
    most: Option<usize>,
}

impl<'a> Model for ItemLines<'a> {
    ghost use Rattle.script_read.specs.Helps.Checked.{AreChecked};
    ghost use Rattle.script_read.specs.ItemLines.{ScriptLines};

    ghost Value = { ScriptLines };

    ghost view = { λ l. record { json = l.json; number = l.number; text = l.text.now; most = l.most } };

    ghost invariant = { λ l. AreChecked l.json l.number l.text.now };
}

/// The items of a text that was checked, whose first line has the given number.
pub fn item_lines(json: bool, text: &str, number: u64) -> ItemLines<'_>
    requires few { number + length text.now < 2 ^ 64 }
    requires checked { (items : List Said) × SaysFrom json number text.now items }
    ensures { (items : List Said) → SaysFrom json number text.now items → said result ≡ items }
{
    ItemLines {
        json,
        text,
        number,
        most: None,
    }
}

impl<'a> ItemLines<'a> {
    /// The first so many of them, or all.
    pub fn front(&self, count: usize) -> ItemLines<'a>
        ensures { said result ≡ take count (said self.now) }
    {
        ItemLines {
            json: self.json,
            text: self.text,
            number: self.number,
            most: Some(limited(self.most, count)),
        }
    }

    /// The same items.
    pub fn again(&self) -> ItemLines<'a>
        ensures { result ≡ self.now }
    {
        ItemLines {
            json: self.json,
            text: self.text,
            number: self.number,
            most: self.most,
        }
    }

    /// Takes off the first item, and says what it is. It takes no memory.
    pub fn next_told(&mut self) -> Option<FirstItem<'a>>
        ensures none { IfNone result ((said self.old ≡ []) × (said self.new ≡ [])) }
        ensures some { IfSome result (λ first. IsTakenOff (IsToldAs first)
            (said self.old) (said self.new)) }
    {
        if is_spent(self.most) {
            return None;
        }
        if let Some((line, text)) = asked_line(self.text) {
            let (json, line) = (self.json, behind_ask(line));
            let number = self.number + 1;
            self.go_on(1, number, text);
            return Some(FirstItem::Request(AskedLine { json, line }));
        }
        let Some((first, number, text)) = first_told(self.json, self.text, self.number) else {
            return None;
        };
        self.go_on(1, number, text);
        Some(first)
    }

    /// Takes off requests that stand in front, at most so many, and says how many. A request whose line does not begin with `ask` and
    /// a blank ends them.
    pub fn pass_asked(&mut self, most: usize) -> usize
        ensures passed { ArePassed result (said self.old) (said self.new) }
        ensures few { result ≤ most }
    {
        let (count, text) = asked_before(self.text, limited(self.most, most));
        let number = self.number + count as u64;
        self.go_on(count, number, text);
        count
    }

    // Goes on at a later line, where so many items less are left. No field is written that stays the same.
    #[inline(always)]
    fn go_on(&mut self, count: usize, number: u64, text: &'a str)
        requires { AreChecked self.now.json number text.now }
        ensures { self.new ≡ lines_behind count number text.now self.old }
    {
        self.text = text;
        self.number = number;
        self.most = less_by(self.most, count);
    }

    /// Takes off the first item, and builds it where it is no request. Refused is want of memory alone, and all items are left then.
    pub fn next_built(&mut self, alloc: Global) -> Result<Option<BuiltItem<'a>>, NoMemory>
        ensures none { IfOk result (λ next. IfNone next ((said self.old ≡ []) × (said self.new ≡ []))) }
        ensures some { IfOk result (λ next. IfSome next (λ built.
            IsTakenOff (IsBuiltAs built) (said self.old) (said self.new))) }
        ensures same { OnErr result (self.new ≡ self.old) }
    {
        if is_spent(self.most) {
            return Ok(None);
        }
        if let Some((line, text)) = asked_line(self.text) {
            let (json, line) = (self.json, behind_ask(line));
            let number = self.number + 1;
            self.go_on(1, number, text);
            return Ok(Some(BuiltItem::Request(AskedLine { json, line })));
        }
        let Some((built, number, text)) = first_built(alloc, self.json, self.text, self.number)?
        else {
            return Ok(None);
        };
        self.go_on(1, number, text);
        Ok(Some(built))
    }
}

// Whether no item is left where so many may be taken off.
fn is_spent(most: Option<usize>) -> bool
    ensures { result ≡ is_spent most }
{
    match most {
        Some(count) => count == 0,
        None => false,
    }
}

// So many less, where it is told how many.
fn less_by(most: Option<usize>, count: usize) -> Option<usize>
    ensures { result ≡ less_by count most }
{
    match most {
        Some(most) => Some(most.saturating_sub(count)),
        None => None,
    }
}

// So many, or as many as are left where these are fewer.
fn limited(most: Option<usize>, count: usize) -> usize
    ensures { result ≡ limited most count }
{
    match most {
        Some(most) => count.min(most),
        None => count,
    }
}

// How many lines of requests stand in front of a text, at most so many, that begin with `ask` and a blank, and what stands behind
// them.
fn asked_before(text: &str, most: usize) -> (usize, &str)
    ensures passed { (json : Bool) (number : ℕ) → AreChecked json number text.now
        → AreAskedBefore json number result.0 text.now result.1.now }
    ensures few { result.0 ≤ most }
{
    let mut count = 0;
    let mut rest = text;
    while count < most {
        let Some((_line, after)) = asked_line(rest) else {
            return (count, rest);
        };
        count += 1;
        rest = after;
    }
    (count, rest)
}

// What the first item of a text is, the number of the line behind it, and what stands from there on. It is kept apart, so that the
// lines of most requests are taken off without its frame.
#[inline(never)]
fn first_told(json: bool, text: &str, number: u64) -> Option<(FirstItem<'_>, u64, &str)>
    requires checked { AreChecked json number text.now }
    ensures none { IfNone result (items_from json number text.now ≡ []) }
    ensures some { IfSome result (λ found. IsTakenOff (IsToldAs found.0)
        (items_from json number text.now) (items_from json found.1 found.2.now)) }
    ensures rest { IfSome result (λ found. AreChecked json found.1 found.2.now) }
{
    let Some((at, line, after)) = next_full_line(text, number) else {
        return None;
    };
    let (word, arguments) = word_and_arguments(line);
    if word == "ask" {
        let asked = AskedLine {
            json,
            line: arguments,
        };
        return Some((FirstItem::Request(asked), at + 1, after));
    }
    let (next, behind, _end) = part_end(line, after, at + 1);
    if word == "sync" {
        return Some((FirstItem::Sync, next, behind));
    }
    Some((FirstItem::Other, next, behind))
}

// The first item of a text, which is built where it is no request, the number of the line behind it, and what stands from there on.
// It is kept apart as `first_told` is.
#[inline(never)]
fn first_built(
    alloc: Global,
    json: bool,
    text: &str,
    number: u64,
) -> Result<Option<(BuiltItem<'_>, u64, &str)>, NoMemory>
    requires checked { AreChecked json number text.now }
    ensures none { IfOk result (λ next. IfNone next (items_from json number text.now ≡ [])) }
    ensures some { IfOk result (λ next. IfSome next (λ found. IsTakenOff (IsBuiltAs found.0)
        (items_from json number text.now) (items_from json found.1 found.2.now))) }
    ensures rest { IfOk result (λ next. IfSome next (λ found.
        AreChecked json found.1 found.2.now)) }
{
    let Some((at, line, after)) = next_full_line(text, number) else {
        return Ok(None);
    };
    let (word, arguments) = word_and_arguments(line);
    if word == "ask" {
        let asked = AskedLine {
            json,
            line: arguments,
        };
        return Ok(Some((BuiltItem::Request(asked), at + 1, after)));
    }
    let (next, behind, end) = part_end(line, after, at + 1);
    let Ok(item) = read_part(alloc, json, at, line, after, end) else {
        return Err(NoMemory);
    };
    Ok(Some((BuiltItem::Other(item), next, behind)))
}
