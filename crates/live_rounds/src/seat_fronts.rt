ghost use Rattle.std.specs.Prelude.{◌≡◌};
ghost use Rattle.std.specs.List.{AllZip};
ghost use Rattle.live_rounds.specs.Helps.Learned.{HasLearned};

use live_pair::{Front, Naming, Seat};

/// Each seat learns of a front.
pub(crate) fn learn_seats<J: Naming>(seats: &mut Vec<Seat<J>>, front: &Front<J>)
    ensures learned { AllZip (HasLearned front.now) seats.old.items seats.new.items }
{
    learn_all(seats.as_mut_slice(), front);
}

// Each seat of a slice does.
fn learn_all<J: Naming>(seats: &mut [Seat<J>], front: &Front<J>)
    ensures learned { AllZip (HasLearned front.now) seats.old seats.new }
{
    for seat in seats.iter_mut() {
        learn(seat, front);
    }
}

// A seat learns of a front.
fn learn<J: Naming>(seat: &mut Seat<J>, front: &Front<J>)
    ensures { HasLearned front.now seat.old seat.new }
{
    seat.learn(front);
}
