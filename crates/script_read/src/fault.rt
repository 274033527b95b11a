ghost use Rattle.std.specs.Prelude.{◌≡◌};

use outside::NoMemory;

/// Why a line is no item. Of several causes the first that is listed here is told.
#[derive(Clone, Copy, Debug, PartialEq, Eq)]
pub enum LineCause {
    /// The line begins with no word of a script, or behind `begin` stands no block's word.
    Word,
    /// A quote that is never closed, a byte behind a closing quote that is neither a blank nor a
    /// comma, or a CR.
    Quote,
    /// Too many fields or too few, or arguments where none belong.
    Fields,
    /// The name is no table's, or no role relation's.
    Table,
    /// A place, count or number that is not one to nine digits.
    Number,
    /// A rule of another table than the block's.
    Mixed,
    /// The end of an `update` block with an odd number of rules.
    Unpaired,
}

/// Why a text is no script. Lines are counted from 1; a number above 2^32 - 1 is given as 2^32 - 1.
/// Of several faults the first is told; that the text ends in a block goes before the faults of the
/// lines inside.
#[derive(Clone, Copy, Debug, PartialEq, Eq)]
pub enum ScriptFault {
    /// The text is not UTF-8.
    NotUtf8,
    /// The line is no item.
    Line { line: u32, cause: LineCause },
    /// The text ends in the block that begins at this line.
    OpenBatch { line: u32 },
    /// Memory ran out, or a block has 2^32 rules or more.
    NoMemory,
}

impl LineCause {
    /// The fault of the line of this number.
    pub(crate) fn at(self, number: u32) -> ScriptFault
        ensures { result ≡ ScriptFault.Line number self }
    {
        ScriptFault::Line {
            line: number,
            cause: self,
        }
    }
}

impl From<NoMemory> for ScriptFault {
    ghost use Rattle.script_read.specs.declared.fault.ScriptFault.TheVariants.{NoMemory};

    ghost from_gives = { λ _ fault. fault ≡ NoMemory };

    fn from(_: NoMemory) -> ScriptFault {
        ScriptFault::NoMemory
    }
}
