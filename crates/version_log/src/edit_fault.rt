ghost use Rattle.std.specs.Prelude.{◌≡◌};

use outside::NoMemory;

/// Why a text is not read as an edit. Lines are counted from 1; a number above 2^32 - 1 is given as 2^32 - 1.
#[derive(Clone, Copy, Debug, PartialEq, Eq)]
pub enum EditFault {
    /// The first line that does not belong: no printed edit has the lines before it and this one at its front. Where all
    /// lines belong, but the text ends before its last line or lacks its last LF, the line after the last.
    Malformed { line: u32 },
    /// Memory ran out.
    NoMemory,
}

impl From<NoMemory> for EditFault {
    ghost use Rattle.version_log.specs.declared.edit_fault.EditFault.TheVariants.{NoMemory};

    ghost from_gives = { λ _ fault. fault ≡ NoMemory };

    fn from(_: NoMemory) -> EditFault {
        EditFault::NoMemory
    }
}
