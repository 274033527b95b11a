use outside::NoMemory;

/// What became of a packet that was taken.
#[derive(Clone, Copy, Debug, PartialEq, Eq)]
pub enum Taken {
    /// Its edit is applied already, or waits already.
    Repeated,
    /// Its edit waits for those before it.
    Waiting,
    /// Its edit is appended, and with it those that waited behind it without a gap; the policy has this version now.
    Applied { version: u32 },
}

/// Why a packet was not taken.
#[derive(Clone, Copy, Debug, PartialEq, Eq)]
pub enum TakeRefused {
    /// Its number is above the version, which is this one, by more than 1,024.
    TooFar { version: u32 },
    /// Its text is no edit; the line is that of `read_edit`.
    Malformed { line: u32 },
    /// A rule that its edit names cannot stand in its table, no version has its number, or the edit is the next one and the
    /// policy does not admit it.
    Misfit,
    /// Memory ran out.
    NoMemory,
}

impl From<NoMemory> for TakeRefused {
    ghost use Rattle.std.specs.Prelude.{◌≡◌};
    ghost use Rattle.log_ship.specs.declared.taken.TakeRefused.TheVariants.{NoMemory};

    ghost from_gives = { λ _ refused. refused ≡ NoMemory };

    fn from(_: NoMemory) -> TakeRefused {
        TakeRefused::NoMemory
    }
}
