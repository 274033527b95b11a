ghost use Rattle.std.specs.Prelude.{◌≡◌, ◌≢◌, ◌+◌, ◌<◌, ◌≤◌, ◌^◌};
ghost use Rattle.std.specs.Prelude.{IfErr, IfOk, List, MatchResult, length, map};
ghost use Rattle.script_read.specs.Blocks.{part_item};
ghost use Rattle.script_read.specs.Helps.Ends.{behind_part, end_of_part, first_part};
ghost use Rattle.script_read.specs.Helps.Given.{Gives, fields_read};
ghost use Rattle.script_read.specs.Readings.{request_read};
ghost use Rattle.text_parts.specs.Full.{full_lines};
ghost use Rattle.script_read.specs.Said.{Said, seen};
ghost use Rattle.script_read.specs.Script.{IsScript, IsScriptFault};
ghost use Rattle.script_read.specs.declared.fault.ScriptFault as declared;
ghost use Rattle.text_parts.specs.Numbered.{line as line_at};

use crate::block::read_block;
use crate::fault::ScriptFault;
use crate::item::Item;
use crate::line_item::read_item;
use crate::lines::block_end;
use crate::script::Script;
use crate::word::begins_block;
use outside::NoMemory;
use std::alloc::Global;
use text_parts::{given_number, next_full_line};

/// Reads a script; with `json` its requests are JSON. Lines are cut at LF or CR LF; a line of blanks
/// alone, or one whose first byte that is no blank is `#`, is passed over. Any other is an item, or
/// belongs to a block, which is one item. Where a text is no script, its first `ScriptFault` is told.
pub fn read_script(alloc: Global, bytes: &[u8], json: bool) -> Result<Script, ScriptFault>
    // What is read is what the bytes say.
    ensures found { IfOk result (λ script. IsScript json bytes.now (map seen script)) }
    // What the bytes say is read, unless memory runs out.
    ensures only { (items : List Said) → IsScript json bytes.now items
        → MatchResult result (λ script. map seen script ≡ items)
        (λ fault. fault ≡ ScriptFault.NoMemory) }

    // Each fault is the first of the bytes, and their first fault is told.
    ensures fault { IfErr result (λ fault.
        fault ≢ ScriptFault.NoMemory → IsScriptFault json bytes.now fault) }
    ensures only_fault { (first : declared.ScriptFault) → IsScriptFault json bytes.now first
        → MatchResult result (λ script. ⊥)
        (λ fault. fault ≢ ScriptFault.NoMemory → fault ≡ first) }
{
    let Ok(text) = str::from_utf8(bytes) else {
        return Err(ScriptFault::NotUtf8);
    };
    let mut items = Vec::new(alloc);
    let mut number = 1;
    let mut rest = text;
    while let Some((at, line, after)) = next_full_line(rest, number) {
        let (next, behind, end) = part_end(line, after, at + 1);
        let item = read_part(alloc, json, at, line, after, end)?;
        items.push(item).map_err(NoMemory::from)?;
        number = next;
        rest = behind;
    }
    Ok(Script::from_vec(items))
}

/// Where the part that a line begins is at its end: the number of the next line, the text from there
/// on, and the number of the line that ends a block. Behind the line stands this text, whose first line
/// has the given number.
pub(crate) fn part_end<'a>(
    line: &'a str,
    after: &'a str,
    number: u64,
) -> (u64, &'a str, Option<u64>)
    requires { number + length after.now < 2 ^ 64 }
    ensures behind { behind_part line.now (full_lines number after.now)
        ≡ full_lines result.0 result.1.now }
    ensures end { result.2 ≡ end_of_part line.now (full_lines number after.now) }
    ensures within { result.0 + length result.1.now ≤ number + length after.now }
    ensures shorter { length result.1.now ≤ length after.now }
{
    if !begins_block(line) {
        return (number, after, None);
    }
    match block_end(after, number) {
        Some((end, behind)) => (end + 1, behind, Some(end)),
        None => (number, "", None),
    }
}

/// Reads the part that the line of this number begins. Behind the line stands this text.
pub(crate) fn read_part(
    alloc: Global,
    json: bool,
    number: u64,
    line: &str,
    after: &str,
    end: Option<u64>,
) -> Result<Item, ScriptFault>
    requires few { number + 1 + length after.now < 2 ^ 64 }
    requires end { end ≡ end_of_part line.now (full_lines (number + 1) after.now) }
    ensures { Gives seen result (part_item fields_read (request_read json)
        (first_part (line_at number line.now) (full_lines (number + 1) after.now))) }
{
    if begins_block(line) {
        Ok(Item::Edit(read_block(alloc, number, line, end, after)?))
    } else {
        read_item(alloc, json, given_number(number), line)
    }
}
