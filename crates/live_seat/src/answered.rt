use answer_cache::CachedAnswer;
use effect_fold::Verdict;
use outside::NoMemory;

/// The verdict on a request, and the version of the policy by which it was judged.
#[derive(Clone, Copy, Debug, PartialEq, Eq)]
pub struct Answered {
    pub version: u32,
    pub verdict: Verdict,
}

/// The answer to a request by way of a cache, and the version of the policy that it is of.
#[derive(Clone, Copy, Debug, PartialEq, Eq)]
pub struct SeatAnswer {
    pub version: u32,
    pub answer: CachedAnswer,
}

/// Why a request was not decided at a seat.
#[derive(Clone, Copy, Debug, PartialEq, Eq)]
pub enum SeatStop {
    /// The entry was refused, and the seat counted it.
    Shut,
    /// Memory ran out.
    NoMemory,
}

impl From<NoMemory> for SeatStop {
    ghost use Rattle.std.specs.Prelude.{◌≡◌};
    ghost use Rattle.live_seat.specs.declared.answered.SeatStop.TheVariants as stops;

    ghost from_gives = { λ _ stop. stop ≡ stops.NoMemory };

    fn from(_: NoMemory) -> SeatStop {
        SeatStop::NoMemory
    }
}
