use outside::NoMemory;

/// Why there is no packet of a number.
#[derive(Clone, Copy, Debug, PartialEq, Eq)]
pub enum ShipRefused {
    /// There is no edit of this number: they are numbered from 1 to the version of the log.
    NoEdit { version: u32 },
    /// The edit is dropped, as all are up to the start of the log.
    Dropped { start: u32 },
    /// Memory ran out.
    NoMemory,
}

impl From<NoMemory> for ShipRefused {
    ghost use Rattle.std.specs.Prelude.{◌≡◌};
    ghost use Rattle.log_ship.specs.declared.ship_refused.ShipRefused.TheVariants.{NoMemory};

    ghost from_gives = { λ _ refused. refused ≡ NoMemory };

    fn from(_: NoMemory) -> ShipRefused {
        ShipRefused::NoMemory
    }
}
