ghost use Rattle.std.specs.Prelude.{◌≡◌};

use outside::NoMemory;
use policy_table::Limit;

/// Why a text is not read as a policy. Lines are counted from 1, columns in bytes from 1; a number above 2^32 - 1 is
/// given as 2^32 - 1. Of several faults that of the first line is told, and of one line the first that is listed here.
#[derive(Clone, Copy, Debug, PartialEq, Eq)]
pub enum PolicyFault {
    /// The text is not UTF-8.
    NotUtf8,
    /// A quote that is never closed, a byte behind a closing quote that is neither a blank nor a comma, or a CR or LF.
    Quote { line: u32, column: u32 },
    /// The first field names no table of the shapes.
    UnknownTable { line: u32 },
    /// The rule has another number of fields than its table has columns.
    Columns { line: u32 },
    /// A field of the rule has more than 4,096 bytes.
    FieldTooLong { line: u32 },
    /// The tables pass a limit with the rule.
    Full { line: u32, what: Limit },
    /// Memory ran out.
    NoMemory,
}

impl From<NoMemory> for PolicyFault {
    ghost use Rattle.policy_csv.specs.declared.fault.PolicyFault.TheVariants.{NoMemory};

    ghost from_gives = { λ _ fault. fault ≡ NoMemory };

    fn from(_: NoMemory) -> PolicyFault {
        PolicyFault::NoMemory
    }
}
