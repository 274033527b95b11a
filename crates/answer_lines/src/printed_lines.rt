ghost use Rattle.std.specs.Prelude.{◌≡◌, [], OnOk};
ghost use Rattle.answer_lines.specs.Printed.{AddsLine};

use crate::printed::Shown;
use itoa::Buffer;
use outside::NoMemory;
use std::alloc::Global;

/// Lines as they are printed, each with its number and LF, one behind the other, and what each shows.
#[derive(Drop)]
pub struct PrintedLines {
    pub text: Vec<u8>,
    pub shown: Vec<Shown>,
}

impl PrintedLines {
    /// No lines.
    pub fn new(alloc: Global) -> PrintedLines
        ensures text { result.text.items ≡ [] }
        ensures shown { result.shown.items ≡ [] }
    {
        PrintedLines {
            text: Vec::new(alloc),
            shown: Vec::new(alloc),
        }
    }

    /// Takes all lines out, and keeps the memory.
    pub fn clear(&mut self)
        ensures text { self.new.text.items ≡ [] }
        ensures shown { self.new.shown.items ≡ [] }
    {
        self.text.clear();
        self.shown.clear();
    }
}

/// Puts a line behind others: its number, a blank, what is told, and LF.
pub(crate) fn push_line_of(
    lines: &mut PrintedLines,
    number: u32,
    told: &[u8],
    shown: Shown,
) -> Result<(), NoMemory>
    ensures added { OnOk result (AddsLine number told.now shown lines.old lines.new) }
{
    let mut digits = Buffer::new();
    lines
        .text
        .extend_from_slice(digits.format(number).as_bytes())?;
    lines.text.push(b' ')?;
    lines.text.extend_from_slice(told)?;
    lines.text.push(b'\n')?;
    lines.shown.push(shown)?;
    Ok(())
}
