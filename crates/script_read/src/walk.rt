ghost use Rattle.std.specs.Prelude.{◌≡◌, ◌≢◌, ◌+◌, ◌<◌, ◌^◌};
ghost use Rattle.std.specs.Prelude.{IfErr, List, OnOk, codes, length};
ghost use Rattle.std.specs.Str.{bytes_eq};
ghost use Rattle.script_read.specs.Blocks.{part_item};
ghost use Rattle.script_read.specs.Helps.Ends.{end_of_part, first_part};
ghost use Rattle.script_read.specs.Helps.Given.{Checks, fields_read};
ghost use Rattle.script_read.specs.Readings.{request_read};
ghost use Rattle.script_read.specs.Lines.{word_of};
ghost use Rattle.script_read.specs.Said.{Said};
ghost use Rattle.script_read.specs.Script.{IsScript, IsScriptFault};
ghost use Rattle.text_parts.specs.Full.{full_lines};
ghost use Rattle.text_parts.specs.Numbered.{line as line_at};

use crate::fault::ScriptFault;
use crate::lines::next_other_line;
use crate::reader::{part_end, read_part};
use crate::word::{begins_ask, word_in};
use std::alloc::Global;

/// Whether a text is a script, or else its first fault, as `read_script` tells it. No item is kept,
/// and the requests are not read: none of them is a fault.
pub fn check_script(alloc: Global, text: &str, json: bool) -> Result<(), ScriptFault>
    ensures found { OnOk result ((items : List Said) × IsScript json text.now items) }
    ensures fault { IfErr result (λ fault.
        fault ≢ ScriptFault.NoMemory → IsScriptFault json text.now fault) }
{
    let mut number = 1;
    let mut rest = text;
    while let Some((at, line, after)) = next_other_line(rest, number) {
        let (next, behind, end) = part_end(line, after, at + 1);
        check_part(alloc, json, at, line, after, end)?;
        number = next;
        rest = behind;
    }
    Ok(())
}

// Whether the part that the line of this number begins says an item. Behind the line stands this text.
fn check_part(
    alloc: Global,
    json: bool,
    number: u64,
    line: &str,
    after: &str,
    end: Option<u64>,
) -> Result<(), ScriptFault>
    requires few { number + 1 + length after.now < 2 ^ 64 }
    requires end { end ≡ end_of_part line.now (full_lines (number + 1) after.now) }
    ensures { Checks result (part_item fields_read (request_read json)
        (first_part (line_at number line.now) (full_lines (number + 1) after.now))) }
{
    if is_ask(line) {
        return Ok(());
    }
    let item = read_part(alloc, json, number, line, after, end)?;
    drop(item);
    Ok(())
}

// Whether a line is that of a request.
fn is_ask(line: &str) -> bool
    ensures { result ≡ bytes_eq (word_of line.now) (codes "ask") }
{
    if begins_ask(line) {
        return true;
    }
    word_in(line) == "ask"
}
