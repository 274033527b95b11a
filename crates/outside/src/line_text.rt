ghost use Rattle.std.specs.Prelude.{◌≡◌, IfOk};

use crate::fault::NoMemory;
use crate::share::Share;
use arrayvec::ArrayString;
use std::alloc::Global;
use std::marker::Model;

/// A line of text, without its end, that is kept. Contracts see its bytes. One of at most 56 bytes lies in its own place.
#[derive(Drop)]
pub struct LineText {
    held: HeldLine,
}

// Where the bytes of a line lie: in the line itself, or in memory of their own.
#[derive(Drop)]
enum HeldLine {
    Short(ArrayString<56>),
    Long(String),
}

impl Model for LineText {
    ghost use Rattle.std.specs.Prelude.{List, ℕ};
    ghost use Rattle.outside.specs.Helps.Held.{held_line_bytes};

    ghost Value = { List ℕ };

    ghost view = { λ t. held_line_bytes t.held };
}

impl LineText {
    /// A copy of a text. One of at most 56 bytes takes no memory.
    pub fn from_str(alloc: Global, text: &str) -> Result<LineText, NoMemory>
        ensures { IfOk result (λ copy. copy ≡ text.now) }
    {
        let held = match ArrayString::from(text) {
            Ok(short) => HeldLine::Short(short),
            Err(_) => HeldLine::Long(String::from_str(alloc, text)?),
        };
        Ok(LineText { held })
    }

    /// The text as it is.
    pub fn as_str(&self) -> &str
        ensures { result.now ≡ self.now }
    {
        match &self.held {
            HeldLine::Short(text) => text.as_str(),
            HeldLine::Long(text) => text.as_str(),
        }
    }
}

impl Share for LineText {}
