use outside::NoMemory;
use perm_base::TableId;
use policy_table::Limit;

/// Why a management call is refused. Where several hold, the first of these is told.
#[derive(Clone, Copy, Debug, PartialEq, Eq)]
pub enum CallRefused {
    /// The model has no such table; to delete a user or a role needs g.
    NoTable { table: TableId },
    /// The first rule with another number of fields than its table has columns.
    Columns { want: u32, got: u32 },
    /// The filter's values go past the table's columns.
    FilterPlace,
    /// No value of the filter holds anything.
    EmptyFilter,
    /// A field of a rule to be added has more than 4,096 bytes.
    FieldTooLong,
    /// The tables would pass a limit.
    Full { what: Limit },
    /// Memory ran out.
    NoMemory,
}

impl From<NoMemory> for CallRefused {
    ghost use Rattle.std.specs.Prelude.{◌≡◌};
    ghost use Rattle.edit_calls.specs.declared.refused.CallRefused.TheVariants.{NoMemory};

    ghost from_gives = { λ _ refused. refused ≡ NoMemory };

    fn from(_: NoMemory) -> CallRefused {
        CallRefused::NoMemory
    }
}
