use outside::{NoMemory, Text};
use std::alloc::Global;
use std::marker::Model;

/// A field as it is read from a line: a part of that line, or a text of its own where it stood in quotes. Contracts see its bytes.
pub struct LineField<'a> {
    held: Held<'a>,
}

// Written out, so that a caller's proof sees one call and not the drop of each field.
impl<'a> Drop for LineField<'a> {
    fn drop(self) {
        let LineField { held: _held } = self;
    }
}

// Where the bytes of a field lie.
#[derive(Drop)]
enum Held<'a> {
    Part(&'a str),
    Own(Text),
}

impl<'a> Model for LineField<'a> {
    ghost use Rattle.std.specs.Prelude.{List, ℕ};
    ghost use Rattle.perm_base.specs.Helps.LineFields.{held_bytes};

    ghost Value = { List ℕ };

    ghost view = { λ f. held_bytes f.held };
}

impl<'a> LineField<'a> {
    ghost use Rattle.std.specs.Prelude.{◌≡◌, IfOk, OnOk};

    /// A part of a line.
    pub(crate) fn part(text: &'a str) -> LineField<'a>
        ensures { result ≡ text.now }
    {
        LineField {
            held: Held::Part(text),
        }
    }

    /// A text of its own.
    pub(crate) fn own(text: Text) -> LineField<'a>
        ensures { result ≡ text }
    {
        LineField {
            held: Held::Own(text),
        }
    }

    /// The field as a text of its own. One of at most 24 bytes takes no memory.
    pub fn into_text(self, alloc: Global) -> Result<Text, NoMemory>
        ensures { IfOk result (λ text. text ≡ self.entry) }
    {
        let LineField { held } = self;
        match held {
            Held::Part(text) => Text::from_str(alloc, text),
            Held::Own(text) => Ok(text),
        }
    }

    /// Puts the field in the place of a text. One of at most 24 bytes takes no memory.
    #[inline(always)]
    pub fn put_in(self, alloc: Global, text: &mut Text) -> Result<(), NoMemory>
        ensures { OnOk result (text.new ≡ self.entry) }
    {
        let LineField { held } = self;
        match held {
            Held::Part(part) => text.set(alloc, part),
            Held::Own(own) => {
                *text = own;
                Ok(())
            }
        }
    }
}
