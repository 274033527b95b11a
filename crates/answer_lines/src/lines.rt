ghost use Rattle.std.specs.Prelude.{◌≡◌};

use crate::answer::Line;
use outside::Share;
use std::marker::Model;

/// The lines of a run in their order. Contracts see the list of its lines.
#[derive(Drop)]
pub struct Lines {
    lines: Vec<Line>,
}

impl Model for Lines {
    ghost use Rattle.std.specs.Prelude.{List};
    ghost use Rattle.answer_lines.specs.declared.answer.Line as line;

    ghost Value = { List line.Line };

    ghost view = { λ l. l.lines.items };
}

impl Lines {
    /// These lines in their order. It takes no memory.
    pub fn from_vec(lines: Vec<Line>) -> Lines
        ensures { result ≡ lines.items }
    {
        Lines { lines }
    }

    /// The lines in their order.
    pub fn as_slice(&self) -> &[Line]
        ensures { result.now ≡ self.now }
    {
        &self.lines
    }
}

impl Share for Lines {}
