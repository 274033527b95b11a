use outside::NoMemory;

/// Why there is no report.
#[derive(Clone, Copy, Debug, PartialEq, Eq)]
pub enum ReportStop {
    /// The policy has no relation g.
    NoTable,
    /// The report has more bytes than it may.
    TooLong,
    /// Memory ran out.
    NoMemory,
}

impl From<NoMemory> for ReportStop {
    ghost use Rattle.std.specs.Prelude.{◌≡◌};
    ghost use Rattle.rbac_query.specs.declared.stop.ReportStop.TheVariants.{NoMemory};

    ghost from_gives = { λ _ stop. stop ≡ NoMemory };

    fn from(_: NoMemory) -> ReportStop {
        ReportStop::NoMemory
    }
}
