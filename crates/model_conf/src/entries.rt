ghost use Rattle.std.specs.Prelude.{◌≡◌, ◌+◌, ◌<◌, ◌≤◌, ◌^◌, IfOk, IfSome, IsUtf8, length, option_copied};
ghost use Rattle.text_parts.specs.Numbered.{numbered, text_lines};
ghost use Rattle.model_conf.specs.Relations.{value_of};
ghost use Rattle.model_conf.specs.Sections.{is_key_of};
ghost use Rattle.model_conf.specs.Helps.Seen.{ReadsEntries, TakesLines, entries_seen, standing_seen};
ghost use Rattle.model_conf.specs.Statements as statements;
ghost use Rattle.model_conf.specs.Helps.Steps.{Takes};

use crate::fault::ModelFault;
use crate::joined_lines::{join_lines, open_front};
use crate::line_content::{LineContent, read_said};
use crate::sections::{Section, key_named, section_named};
use outside::NoMemory;
use std::alloc::Global;
use text_parts::{is_passed_in_model, next_text_line};

/// A key and its value.
#[derive(Drop)]
pub(crate) struct Entry {
    pub(crate) key: &'static str,
    pub(crate) value: String,
}

/// The key lines so far, and the section that stands open.
#[derive(Drop)]
pub(crate) struct Entries {
    section: Option<Section>,
    pub(crate) entries: Vec<Entry>,
}

impl Entries {
    // Takes a logical line, whose first line has this number. After want of memory the entries are not to be used.
    fn take(&mut self, alloc: Global, number: u32, line: &str) -> Result<(), ModelFault>
        ensures { (said : statements.LineContent) × statements.LineSays line.now said
            × Takes (standing_seen self.old) (standing_seen self.new) number said result }
    {
        match read_said(line) {
            LineContent::Header(name) => {
                let Some(section) = section_named(name) else {
                    return Err(ModelFault::UnknownSection { line: number });
                };
                self.section = Some(section);
                Ok(())
            }
            LineContent::Pair(key, value) => self.put(alloc, number, key, value),
            LineContent::Nothing => Err(ModelFault::Line { line: number }),
        }
    }

    // Takes a logical line that begins with this line and is continued by those behind it. Gives what stands behind
    // all of them, and the number of the next line.
    fn take_lines<'a>(
        &mut self,
        alloc: Global,
        number: u32,
        line: &str,
        after: &'a str,
    ) -> Result<(&'a str, u32), ModelFault>
        requires { number + 1 + length after.now < 2 ^ 32 }
        ensures taken { TakesLines
            number line.now (numbered (number + 1) (text_lines after.now))
            (standing_seen self.old) (standing_seen self.new) result }
        ensures fewer { IfOk result (λ left.
            left.1 + length left.0.now ≤ number + 1 + length after.now) }
        ensures shorter { IfOk result (λ left. length left.0.now ≤ length after.now) }
    {
        let Some(_) = open_front(line) else {
            self.take(alloc, number, line)?;
            return Ok((after, number + 1));
        };
        let mut text = String::from_str(alloc, line).map_err(NoMemory::from)?;
        let left = join_lines(&mut text, after, number + 1)?;
        self.take(alloc, number, text.as_str())?;
        Ok(left)
    }

    fn put(&mut self, alloc: Global, number: u32, key: &str, value: &str) -> Result<(), ModelFault>
        ensures { Takes (standing_seen self.old) (standing_seen self.new) number
            (statements.pair key.now value.now) result }
    {
        let Some(section) = self.section else {
            return Err(ModelFault::Line { line: number });
        };
        let Some(name) = key_named(section, key) else {
            return Err(ModelFault::UnknownKey { line: number });
        };
        if has_key(&self.entries, key) {
            return Err(ModelFault::RepeatedKey { line: number });
        }
        let value = String::from_str(alloc, value).map_err(NoMemory::from)?;
        let entry = Entry { key: name, value };
        self.entries.push(entry).map_err(NoMemory::from)?;
        Ok(())
    }
}

/// Reads the lines of a text.
pub(crate) fn read_entries(alloc: Global, text: &str) -> Result<Entries, ModelFault>
    requires { length text.now ≤ 65536 }
    ensures { ReadsEntries text.now result }
{
    let mut entries = Entries {
        section: None,
        entries: Vec::new(alloc),
    };
    let mut rest = text;
    let mut number = 1;
    while let Some((line, after)) = next_text_line(rest) {
        if is_passed_in_model(line) {
            rest = after;
            number += 1;
            continue;
        }
        let (behind, next) = entries.take_lines(alloc, number, line, after)?;
        rest = behind;
        number = next;
    }
    Ok(entries)
}

/// The value of a key.
pub(crate) fn value_of<'a>(entries: &'a [Entry], key: &str) -> Option<&'a str>
    ensures value { option_copied result ≡ value_of (entries_seen entries.now) key.now }
    ensures utf8 { IfSome result (λ text. IsUtf8 text.now) }
{
    for entry in entries {
        if entry.key == key {
            return Some(entry.value.as_str());
        }
    }
    None
}

fn has_key(entries: &[Entry], key: &str) -> bool
    ensures { result ≡ is_key_of (entries_seen entries.now) key.now }
{
    entries.iter().any(|entry| entry.key == key)
}
