//! What a seat sees.

use live_pair::{Naming, Seat};
use perm_base::TableId;

/// Enters and leaves. It gives the version that is entered, where p has one row for each edit; none where the entry is refused,
/// or shows something else.
pub(crate) fn look<J: Naming>(seat: Seat<J>) -> (Seat<J>, Option<u32>) {
    match seat.enter() {
        Ok(entered) => {
            let tables = entered.state().tables();
            let version = entered.version();
            let is_whole = tables.len(TableId::P) == version;
            let seen = if is_whole { Some(version) } else { None };
            (entered.leave(), seen)
        }
        Err(shut) => (shut.seat, None),
    }
}

/// Enters so many times and learns nothing. It counts the entries that show nothing right, or go back.
pub(crate) fn wander<J: Naming>(seat: Seat<J>, times: u64) -> (Seat<J>, u64) {
    let mut seat = seat;
    let mut wrong = 0u64;
    let mut oldest = seat.version();
    for _ in 0..times {
        let (next, seen) = look(seat);
        seat = next;
        match seen {
            Some(version) if version >= oldest => oldest = version,
            _ => wrong = wrong.saturating_add(1),
        }
    }
    (seat, wrong)
}
