ghost use Rattle.std.specs.Prelude.{◌≡◌, ◌≢◌, ℕ, ◌+◌, ◌<◌, ◌≤◌, ◌==◌, ◌&&◌, ◌^◌, false, get_or, length, nat_eq, vec_capacity};
ghost use Rattle.std.specs.List.{count_by};
ghost use Rattle.policy_index.specs.Helps.Kept.{IsAt, one_if};
ghost use Rattle.policy_index.specs.Lists.{room_at, slots_at};

use crate::slots::Slots;

/// The place that the next slot under a hash comes to.
pub(crate) fn next_place(slots: &Slots, hash: u64) -> u32
    requires { length (slots_at slots.now hash) < 2 ^ 32 }
    ensures { result ≡ length (slots_at slots.now hash) }
{
    slots.of(hash).len() as u32
}

/// Takes a slot out of the list of its hash, where it stands at its place; the last one of that list comes there.
pub(crate) fn unlist(slots: &mut Slots, places: &mut Vec<u32>, hash: u64, slot: u32)
    requires within { slot < length places.old.items }
    requires there { IsAt slots.old hash (get_or places.old.items slot 0) slot }
    requires below { (at held : ℕ) → IsAt slots.old hash at held → held < length places.old.items }
    requires own { (one other first second held : ℕ) → IsAt slots.old one first held
        → IsAt slots.old other second held → one ≡ other }
    ensures slots { (other at : ℕ) → count_by (nat_eq at) (slots_at slots.new other)
        + one_if (hash == other && slot == at)
        ≡ count_by (nat_eq at) (slots_at slots.old other) }
    ensures room { (other : ℕ) → room_at slots.old other + one_if (hash == other)
        ≤ room_at slots.new other }
    ensures shorter { (other : ℕ) → length (slots_at slots.new other)
        ≤ length (slots_at slots.old other) }
    ensures sizes { length places.new.items ≡ length places.old.items }
    ensures capacity { vec_capacity places.new ≡ vec_capacity places.old }
    ensures placed { (other held : ℕ) → held ≢ slot
        → IsAt slots.old other (get_or places.old.items held 0) held
        → IsAt slots.new other (get_or places.new.items held 0) held }
{
    let place = places[slot as usize];
    let moved = slots.take(hash, place);
    places[moved as usize] = place;
}

/// Gives the row in one slot, which stands at a place under its hash, another slot; the two may be the same.
pub(crate) fn rename(slots: &mut Slots, hash: u64, from: u32, to: u32, place: u32)
    requires { (from == to) ≡ false → IsAt slots.old hash place from }
    ensures slots { (other at : ℕ) → count_by (nat_eq at) (slots_at slots.new other)
        + one_if (hash == other && from == at)
        ≡ count_by (nat_eq at) (slots_at slots.old other)
        + one_if (hash == other && to == at) }
    ensures room { (other : ℕ) → room_at slots.old other ≤ room_at slots.new other }
    ensures placed { (other at held : ℕ) → held ≢ from → IsAt slots.old other at held
        → IsAt slots.new other at held }
    ensures there { (from == to) ≡ false → IsAt slots.new hash place to }
{
    if from == to {
        return;
    }
    slots.set(hash, place, to);
}
