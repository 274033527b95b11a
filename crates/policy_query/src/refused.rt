use outside::NoMemory;
use perm_base::TableId;

/// Why a query is refused.
#[derive(Clone, Copy, Debug, PartialEq, Eq)]
pub enum QueryRefused {
    /// The model has no such table.
    NoTable { table: TableId },
    /// A rule has another number of fields than its table has columns. Of a query for names it counts the name and the
    /// domain: one is given where the relation has none, or none where it has one.
    Columns { want: u32, got: u32 },
    /// The filter's values go past the table's columns.
    FilterPlace,
    /// Memory ran out.
    NoMemory,
    /// There is no edit of this number: they are numbered from 1 to the version of the log.
    NoEdit { version: u32 },
    /// The edit is dropped, as all are up to the start of the log.
    Dropped { start: u32 },
}

impl From<NoMemory> for QueryRefused {
    ghost use Rattle.std.specs.Prelude.{◌≡◌};
    ghost use Rattle.policy_query.specs.declared.refused.QueryRefused.TheVariants.{NoMemory};

    ghost from_gives = { λ _ refused. refused ≡ NoMemory };

    fn from(_: NoMemory) -> QueryRefused {
        QueryRefused::NoMemory
    }
}
