ghost use Rattle.std.specs.Prelude.{◌≡◌, ◌-◌, ◌≤◌, ◌++◌, [], IfOk, OnOk, codes, false, length, option_map, string_bytes, true};
ghost use Rattle.std.specs.List.{after_first, prefix_len};
ghost use Rattle.text_parts.specs.Names.{is_word};
ghost use Rattle.text_parts.specs.Numbered.{line};
ghost use Rattle.model_conf.specs.Faults.{key_text};
ghost use Rattle.model_conf.specs.declared.key.Key.TheVariants as keys;
ghost use Rattle.file_lint.specs.Mended.{if_short, is_emptied, is_guess, key_number, matcher_at, mended, piece, piece_within, reach_behind, relation_key, usual_lines, usual_value, with_column, with_declared, with_key, with_left, with_line, with_more, with_relation, with_section, with_value, without_line, without_mark, word_front};
ghost use Rattle.file_lint.specs.ModelNames.{header_in, lower_of};
ghost use Rattle.file_lint.specs.Near.{near_name, section_names};
ghost use Rattle.file_lint.specs.Places.{file_lines, from_key, is_equals, is_open, key_in, line_at};
ghost use Rattle.file_lint.specs.declared.mended.Extent.TheVariants as extents;
ghost use Rattle.file_lint.specs.declared.mended.Reach.TheVariants as reaches;
ghost use Rattle.file_lint.specs.Helps.Steps.{mended_seen};

use crate::hints::begins_so;
use crate::lines::{cut_at_equals, from_key, is_open, key_in, line_at};
use crate::names::{has_order_mark, header_in, key_and_rest, lower_of};
use crate::near::near_section;
use crate::texts::{joined, push};
use crate::values::{place_of_value, rest_at};
use model_conf::{Key, ModelFault};
use outside::NoMemory;
use perm_base::TableId;
use std::alloc::Global;
use text_parts::{behind_blanks, is_word, next_text_line};

// The greatest number of bytes of a model.
const MOST_BYTES: usize = 65_536;

/// Which lines belong to one that is replaced: none, those that continue it, or those of its section.
#[derive(Clone, Copy)]
pub(crate) enum Extent {
    Alone,
    Continued,
    Section,
}

/// How far lines have come: ahead of the line that is replaced, within what is replaced, whose last line is continued or not, or
/// past it.
#[derive(Clone, Copy)]
pub(crate) enum Reach {
    Ahead,
    Within { continued: bool },
    Past,
}

/// A mended text, and whether columns or shapes were guessed in it.
#[derive(Drop)]
pub(crate) struct Mended {
    pub(crate) text: String,
    pub(crate) guessed: bool,
}

/// A model's text with this fault, which is its first, taken away, where that can be.
#[tactic(auto, unfolding(crate::specs::Mended::mended))]
pub(crate) fn mend(alloc: Global, text: &str, fault: ModelFault) -> Result<Option<Mended>, NoMemory>
    ensures { IfOk result (λ made. option_map mended_seen made ≡ mended fault text.now) }
{
    match fault {
        ModelFault::TooLong | ModelFault::NotUtf8 | ModelFault::Matcher(_) | ModelFault::NoMemory =>
            Ok(None),
        ModelFault::Line { line } => without_line(alloc, text, line),
        ModelFault::UnknownSection { line } => with_section(alloc, text, line),
        ModelFault::UnknownKey { line } => with_key(alloc, text, line),
        ModelFault::RepeatedKey { line } => without_key(alloc, text, line),
        ModelFault::Missing { key } => with_missing(alloc, text, key),
        ModelFault::Columns { key } => with_columns(alloc, text, key),
        ModelFault::RoleShape { relation } => with_shape(alloc, text, relation),
        ModelFault::UnknownEffect => with_effect(alloc, text),
        ModelFault::UnknownColumn { at } => with_column_at(alloc, text, at),
        ModelFault::RoleUse { at } => with_relation_at(alloc, text, at),
    }
}

// A text that is not longer than a model may be.
fn if_short(guessed: bool, text: String) -> Option<Mended>
    ensures { option_map mended_seen result ≡ if_short guessed (string_bytes text) }
{
    let shown = text.as_str();
    if shown.len() > MOST_BYTES {
        return None;
    }
    Some(Mended { text, guessed })
}

// A text without the byte-order mark of a line, or without the line where it has none.
fn without_line(alloc: Global, text: &str, at: u32) -> Result<Option<Mended>, NoMemory>
    ensures { IfOk result (λ made. option_map mended_seen made ≡ if_short false
        (without_line at (line_at at (file_lines text.now)) text.now)) }
{
    let number = u64::from(at);
    let left = without_mark(line_at(text, number));
    let made = with_left(alloc, text, number, left)?;
    Ok(if_short(false, made))
}

// A line without its byte-order mark, where it has one.
fn without_mark(line: &str) -> Option<&str>
    ensures { option_map (λ rest. rest.now) result ≡ without_mark line.now }
{
    if !has_order_mark(line) {
        return None;
    }
    Some(&line[3..])
}

// A text with a line replaced by what is left of it, or without the line.
fn with_left(alloc: Global, text: &str, number: u64, left: Option<&str>) -> Result<String, NoMemory>
    ensures { IfOk result (λ made. string_bytes made
        ≡ with_left number text.now (option_map (λ rest. rest.now) left.entry)) }
{
    match left {
        None => with_line(alloc, text, Extent::Continued, number, ""),
        Some(left) => with_line(alloc, text, Extent::Alone, number, left),
    }
}

// A text with the section that a line nearly names, or without the lines of the section.
fn with_section(alloc: Global, text: &str, at: u32) -> Result<Option<Mended>, NoMemory>
    ensures { IfOk result (λ made. option_map mended_seen made ≡ if_short false (with_section at
        (near_name (header_in (line_at at (file_lines text.now))) section_names) text.now)) }
{
    let number = u64::from(at);
    let name = near_section(header_in(line_at(text, number)));
    let made = with_named(alloc, text, number, name)?;
    Ok(if_short(false, made))
}

// A text with the header of a section in place of a line, or without the lines of the section.
fn with_named(
    alloc: Global,
    text: &str,
    number: u64,
    name: Option<&str>,
) -> Result<String, NoMemory>
    ensures { IfOk result (λ made. string_bytes made
        ≡ with_section number (option_map (λ named. named.now) name.entry) text.now) }
{
    match name {
        None => with_line(alloc, text, Extent::Section, number, ""),
        Some(name) => with_header(alloc, text, number, name),
    }
}

// A text with the header of a section in place of a line.
fn with_header(alloc: Global, text: &str, number: u64, name: &str) -> Result<String, NoMemory>
    ensures { IfOk result (λ made. string_bytes made
        ≡ with_line extents.Alone number (codes "[" ++ name.now ++ codes "]") text.now) }
{
    let by = joined(alloc, "[", name, "]")?;
    let made = with_line(alloc, text, Extent::Alone, number, by.as_str())?;
    Ok(made)
}

// A text with the key of a line in lower case, or without the line.
fn with_key(alloc: Global, text: &str, at: u32) -> Result<Option<Mended>, NoMemory>
    ensures { IfOk result (λ made. option_map mended_seen made ≡ if_short false (with_key at
        (lower_of (key_in (line_at at (file_lines text.now))))
        (line_at at (file_lines text.now)) text.now)) }
{
    let number = u64::from(at);
    let whole = line_at(text, number);
    let key = lower_of(key_in(whole));
    let made = with_lower(alloc, text, number, key, whole)?;
    Ok(if_short(false, made))
}

// A text with this key in place of that of a line, or without the line.
fn with_lower(
    alloc: Global,
    text: &str,
    number: u64,
    key: Option<&str>,
    line: &str,
) -> Result<String, NoMemory>
    ensures { IfOk result (λ made. string_bytes made
        ≡ with_key number (option_map (λ lower. lower.now) key.entry) line.now text.now) }
{
    match key {
        None => with_line(alloc, text, Extent::Continued, number, ""),
        Some(key) => with_other_key(alloc, text, number, key, line),
    }
}

// A text with this key in place of that of a line.
fn with_other_key(
    alloc: Global,
    text: &str,
    number: u64,
    key: &str,
    line: &str,
) -> Result<String, NoMemory>
    ensures { IfOk result (λ made. string_bytes made ≡ with_line extents.Alone number
        (key.now ++ codes " =" ++ after_first is_equals line.now) text.now) }
{
    let by = joined(alloc, key, " =", cut_at_equals(line).1)?;
    let made = with_line(alloc, text, Extent::Alone, number, by.as_str())?;
    Ok(made)
}

// A text without the line of a key.
fn without_key(alloc: Global, text: &str, at: u32) -> Result<Option<Mended>, NoMemory>
    ensures { IfOk result (λ made. option_map mended_seen made
        ≡ if_short false (with_line extents.Continued at [] text.now)) }
{
    let number = u64::from(at);
    let made = with_line(alloc, text, Extent::Continued, number, "")?;
    Ok(if_short(false, made))
}

// A text with a key that is missing, and its section.
fn with_missing(alloc: Global, text: &str, key: Key) -> Result<Option<Mended>, NoMemory>
    ensures { IfOk result (λ made. option_map mended_seen made
        ≡ if_short (is_guess key) (with_more (usual_lines key) text.now)) }
{
    let made = with_more(alloc, text, usual_lines(key))?;
    Ok(if_short(is_guess(key), made))
}

// A text with the usual columns of a key.
fn with_columns(alloc: Global, text: &str, key: Key) -> Result<Option<Mended>, NoMemory>
    ensures { IfOk result (λ made. option_map mended_seen made ≡ with_value (key_text key)
        (usual_value key) true (key_number (key_text key) text.now) text.now) }
{
    let name = key_text(key);
    let value = usual_value(key);
    let made = with_value(alloc, text, name, value, true)?;
    Ok(made)
}

// A text with the shape of a relation without domains.
fn with_shape(alloc: Global, text: &str, relation: u8) -> Result<Option<Mended>, NoMemory>
    ensures { IfOk result (λ made. option_map mended_seen made ≡ with_value (relation_key relation)
        (codes "_, _") true (key_number (relation_key relation) text.now) text.now) }
{
    let name = relation_key(relation);
    let made = with_value(alloc, text, name, "_, _", true)?;
    Ok(made)
}

// A text with the usual effect.
fn with_effect(alloc: Global, text: &str) -> Result<Option<Mended>, NoMemory>
    ensures { IfOk result (λ made. option_map mended_seen made ≡ with_value (codes "e")
        (usual_value keys.E) false (key_number (codes "e") text.now) text.now) }
{
    let value = usual_value(Key::E);
    let made = with_value(alloc, text, "e", value, false)?;
    Ok(made)
}

// A text with another value of a key.
fn with_value(
    alloc: Global,
    text: &str,
    key: &str,
    value: &str,
    guessed: bool,
) -> Result<Option<Mended>, NoMemory>
    ensures { IfOk result (λ made. option_map mended_seen made
        ≡ with_value key.now value.now guessed (key_number key.now text.now) text.now) }
{
    let Some((number, _, _)) = from_key(text, key) else {
        return Ok(None);
    };
    let by = joined(alloc, key, " = ", value)?;
    let made = with_line(alloc, text, Extent::Continued, number, by.as_str())?;
    Ok(if_short(guessed, made))
}

// A text in which the column that stands at a byte of the matcher, counted from 1, is declared.
fn with_column_at(alloc: Global, text: &str, at: u32) -> Result<Option<Mended>, NoMemory>
    ensures { IfOk result (λ made. option_map mended_seen made
        ≡ with_declared (matcher_at (at - 1) text.now) text.now) }
{
    let name = matcher_at(text, at);
    let made = with_declared(alloc, text, name)?;
    Ok(made)
}

// A text in which the relation that is asked at a byte of the matcher, counted from 1, is declared.
fn with_relation_at(alloc: Global, text: &str, at: u32) -> Result<Option<Mended>, NoMemory>
    ensures { IfOk result (λ made. let name = word_front (matcher_at (at - 1) text.now) in
        option_map mended_seen made ≡ with_relation name (key_number name text.now) text.now) }
{
    let name = word_front(matcher_at(text, at));
    let made = with_relation(alloc, text, name)?;
    Ok(made)
}

// A text in which the column of `r.column` or `p.column` at the front of a text is declared.
fn with_declared(alloc: Global, text: &str, name: &[u8]) -> Result<Option<Mended>, NoMemory>
    ensures { IfOk result (λ made. option_map mended_seen made ≡ with_declared name.now text.now) }
{
    let Some((key, rest)) = key_and_rest(name) else {
        return Ok(None);
    };
    let column = word_front(rest);
    let named = key_text(key);
    let made = with_column_of(alloc, text, named, column)?;
    Ok(made)
}

// A text in which a column stands in front of those of a key.
fn with_column_of(
    alloc: Global,
    text: &str,
    key: &str,
    column: &str,
) -> Result<Option<Mended>, NoMemory>
    ensures { IfOk result (λ made. option_map mended_seen made ≡ with_column key.now column.now
        (from_key key.now false (file_lines text.now)) text.now) }
{
    let Some((number, line, _)) = from_key(text, key) else {
        return Ok(None);
    };
    let front = joined(alloc, key, " = ", column)?;
    let by = joined(alloc, front.as_str(), ",", cut_at_equals(line).1)?;
    let made = with_line(alloc, text, Extent::Alone, number, by.as_str())?;
    Ok(if_short(false, made))
}

// A text in which a relation of a name is declared, where none is.
fn with_relation(alloc: Global, text: &str, name: &str) -> Result<Option<Mended>, NoMemory>
    ensures { IfOk result (λ made. option_map mended_seen made
        ≡ with_relation name.now (key_number name.now text.now) text.now) }
{
    let None = from_key(text, name) else {
        return Ok(None);
    };
    let more = joined(alloc, "[role_definition]\n", name, " = _, _\n")?;
    let made = with_more(alloc, text, more.as_str())?;
    Ok(if_short(true, made))
}

// What stands at a byte of the matcher, counted from 1, and behind it in its line.
fn matcher_at(text: &str, at: u32) -> &[u8]
    ensures { result.now ≡ matcher_at (at - 1) text.now }
{
    let place = place_of_value(text, "m", at.saturating_sub(1));
    rest_at(text, &place)
}

// A text with lines behind it, which continue none of its own.
fn with_more(alloc: Global, text: &str, more: &str) -> Result<String, NoMemory>
    ensures { IfOk result (λ made. string_bytes made ≡ with_more more.now text.now) }
{
    joined(alloc, text, "\n\n", more)
}

// A text with a line replaced, and those emptied that belong to it.
fn with_line(
    alloc: Global,
    text: &str,
    extent: Extent,
    at: u64,
    by: &str,
) -> Result<String, NoMemory>
    ensures { IfOk result (λ made. string_bytes made ≡ with_line extent at by.now text.now) }
{
    let mut made = String::new(alloc);
    let mut reach = Reach::Ahead;
    let mut number = 1;
    let mut rest = text;
    while let Some((line, after)) = next_text_line(rest) {
        let next = reach_behind(extent, at, reach, number, line);
        push_piece(&mut made, by, reach, next, line)?;
        made.push_str("\n")?;
        reach = next;
        number += 1;
        rest = after;
    }
    Ok(made)
}

// How far the lines have come behind one more.
fn reach_behind(extent: Extent, at: u64, reach: Reach, number: u64, next: &str) -> Reach
    ensures { result ≡ reach_behind extent at reach (line number next.now) }
{
    match reach {
        Reach::Ahead => {
            if number == at {
                within(next)
            } else {
                Reach::Ahead
            }
        }
        Reach::Within { continued } => {
            if is_emptied(extent, continued, next) {
                within(next)
            } else {
                Reach::Past
            }
        }
        Reach::Past => Reach::Past,
    }
}

// Within what is replaced, the last line of which is this.
fn within(last: &str) -> Reach
    ensures { result ≡ reaches.Within (is_open last.now) }
{
    Reach::Within {
        continued: is_open(last),
    }
}

fn is_emptied(extent: Extent, continued: bool, text: &str) -> bool
    ensures { result ≡ is_emptied extent continued text.now }
{
    match extent {
        Extent::Alone => false,
        Extent::Continued => continued,
        Extent::Section => !begins_so(behind_blanks(text).as_bytes(), b"["),
    }
}

// Appends what stands in place of a line.
fn push_piece(
    made: &mut String,
    by: &str,
    before: Reach,
    behind: Reach,
    text: &str,
) -> Result<(), NoMemory>
    ensures { OnOk result (string_bytes made.new ≡ string_bytes made.old
        ++ piece by.now before behind text.now) }
{
    match behind {
        Reach::Within { .. } => push_within(made, by, before, text),
        Reach::Ahead | Reach::Past => push(made, text),
    }
}

// Appends what stands in place of a line that is within what is replaced.
fn push_within(made: &mut String, by: &str, before: Reach, text: &str) -> Result<(), NoMemory>
    ensures { OnOk result (string_bytes made.new ≡ string_bytes made.old
        ++ piece_within by.now before text.now) }
{
    match before {
        Reach::Ahead => push(made, by),
        Reach::Within { .. } => Ok(()),
        Reach::Past => push(made, text),
    }
}

/// The letters, digits and `_` in front of a text.
pub(crate) fn word_front(text: &[u8]) -> &str
    ensures { result.now ≡ word_front text.now }
{
    let end = word_length(text);
    let Ok(word) = str::from_utf8(&text[..end]) else {
        unreachable!()
    };
    word
}

// How many letters, digits and `_` stand in front of a text.
fn word_length(text: &[u8]) -> usize
    ensures value { result ≡ prefix_len is_word text.now }
    ensures within { result ≤ length text.now }
{
    word_count(text)
}

fn word_count(text: &[u8]) -> usize
    ensures { result ≡ prefix_len is_word text.now }
{
    text.iter().take_while(|byte| is_word(**byte)).count()
}

fn is_guess(key: Key) -> bool
    ensures { result ≡ is_guess key }
{
    match key {
        Key::R | Key::P => true,
        Key::E | Key::M => false,
    }
}

/// How a key is written.
pub(crate) fn key_text(key: Key) -> &'static str
    ensures { result.now ≡ key_text key }
{
    match key {
        Key::R => "r",
        Key::P => "p",
        Key::E => "e",
        Key::M => "m",
    }
}

/// How a role relation is written.
pub(crate) fn relation_key(relation: u8) -> &'static str
    ensures { result.now ≡ relation_key relation }
{
    match TableId::G(relation).name() {
        Some(name) => name,
        None => "",
    }
}

fn usual_lines(key: Key) -> &'static str
    ensures { result.now ≡ usual_lines key }
{
    match key {
        Key::R => "[request_definition]\nr = sub, obj, act\n",
        Key::P => "[policy_definition]\np = sub, obj, act\n",
        Key::E => "[policy_effect]\ne = some(where (p.eft == allow))\n",
        Key::M => "[matchers]\nm = true\n",
    }
}

fn usual_value(key: Key) -> &'static str
    ensures { result.now ≡ usual_value key }
{
    match key {
        Key::R | Key::P => "sub, obj, act",
        Key::E => "some(where (p.eft == allow))",
        Key::M => "true",
    }
}
