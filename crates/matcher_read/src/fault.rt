use outside::NoMemory;

/// Why a text is no matcher. Places count bytes of the text from 1; of several faults the one that is met first from
/// the left is told, and of those met at one place of the text the one that stands first here.
#[derive(Clone, Copy, Debug, PartialEq, Eq)]
pub enum MatcherFault {
    /// The text has more than 8,192 bytes.
    TooLong,
    /// No matcher goes on so; at the end of the text its place is the length and 1.
    Unexpected { at: u32 },
    /// A quote that is never closed.
    OpenText { at: u32 },
    /// A number above 9,223,372,036,854,775,807.
    NumberTooWide { at: u32 },
    /// A call of what is no function.
    UnknownFunction { at: u32 },
    /// A function with another number of arguments than it takes, or `eval` with another list than one column of the
    /// policy.
    WrongArguments { at: u32 },
    /// More than 64 levels that enclose a place.
    TooDeep { at: u32 },
    /// More than 1,024 nodes.
    TooManyNodes,
    /// Memory ran out.
    NoMemory,
}

impl From<NoMemory> for MatcherFault {
    ghost use Rattle.std.specs.Prelude.{◌≡◌};
    ghost use Rattle.matcher_read.specs.declared.fault.MatcherFault.TheVariants.{NoMemory};

    ghost from_gives = { λ _ fault. fault ≡ NoMemory };

    fn from(_: NoMemory) -> MatcherFault {
        MatcherFault::NoMemory
    }
}
