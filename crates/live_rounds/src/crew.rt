ghost use Rattle.std.specs.Prelude.{◌≡◌, ◌+◌, ◌<◌, ◌≤◌, ◌++◌, ◌∷◌, [], IfOk, OnErr, length, map, vec_capacity};
ghost use Rattle.live_rounds.specs.Helps.Posts.{AreAll};

use crate::posts::Post;
use crate::stretch::Stretch;
use live_pair::{Naming, Seat};
use outside::NoMemory;
use regex_gate::Finder;
use std::alloc::Global;
use std::mem;
use std::vec::IntoIter;

/// The posts of a round, and the seats and finders that have none.
#[derive(Drop)]
pub(crate) struct Crew<J: Naming, P: Finder> {
    pub posts: Vec<Post<J, P>>,
    pub seats: IntoIter<Seat<J>>,
    pub finders: IntoIter<P>,
}

/// Posts for the parts of a round: each takes the next seat and the next finder behind the first, as
/// far as there are seats. The first finder stays, and there is room for all to come back.
pub(crate) fn muster<J: Naming, P: Finder>(
    alloc: Global,
    seats: &mut Vec<Seat<J>>,
    finders: &mut Vec<P>,
    parts: &[Stretch<'_>],
) -> Result<Crew<J, P>, NoMemory>
    requires enough { length parts.now < length finders.old.items }
    ensures seats { IfOk result (λ crew. seats.old.items
        ≡ map (λ p. p.seat) crew.posts.items ++ crew.seats.rest.items) }
    ensures finders { IfOk result (λ crew. finders.old.items
        ≡ finders.new.items ++ (map (λ p. p.finder) crew.posts.items
        ++ crew.finders.rest.items)) }
    ensures first { IfOk result (λ crew. length finders.new.items ≡ 1) }
    ensures taken { IfOk result (λ crew. seats.new.items ≡ []) }
    ensures all { IfOk result (λ crew. AreAll parts.now
        crew.posts.items crew.seats.rest.items) }
    ensures few { IfOk result (λ crew. length crew.posts.items ≤ length parts.now) }
    ensures seat_room { IfOk result (λ crew.
        length crew.posts.items + length crew.seats.rest.items ≤ vec_capacity seats.new) }
    ensures finder_room { IfOk result (λ crew.
        1 + length crew.posts.items + length crew.finders.rest.items
        ≤ vec_capacity finders.new) }
    ensures same_seats { OnErr result (seats.new.items ≡ seats.old.items) }
    ensures same_finders { OnErr result (finders.new.items ≡ finders.old.items) }
{
    let room = Vec::with_capacity(alloc, parts.len())?;
    let seat_room = Vec::with_capacity(alloc, seats.len())?;
    let finder_room = Vec::with_capacity(alloc, finders.len())?;
    let all_seats = mem::replace(seats, seat_room);
    let all_finders = mem::replace(finders, finder_room);
    let mut left_seats = all_seats.into_iter();
    let mut left_finders = all_finders.into_iter();
    let first = next_of(&mut left_finders);
    finders.push_reserved(first);
    let posts = manned(alloc, room, &mut left_seats, &mut left_finders, parts);
    Ok(Crew {
        posts,
        seats: left_seats,
        finders: left_finders,
    })
}

// Posts with the next seats and finders, put where there is room for them.
fn manned<J: Naming, P: Finder>(
    alloc: Global,
    room: Vec<Post<J, P>>,
    seats: &mut IntoIter<Seat<J>>,
    finders: &mut IntoIter<P>,
    parts: &[Stretch<'_>],
) -> Vec<Post<J, P>>
    requires none { room.items ≡ [] }
    requires room { length parts.now ≤ vec_capacity room }
    requires enough { length parts.now ≤ length finders.old.rest.items }
    ensures seats { seats.old.rest.items
        ≡ map (λ p. p.seat) result.items ++ seats.new.rest.items }
    ensures finders { finders.old.rest.items
        ≡ map (λ p. p.finder) result.items ++ finders.new.rest.items }
    ensures all { AreAll parts.now result.items seats.new.rest.items }
    ensures few { length result.items ≤ length parts.now }
{
    let mut posts = room;
    for _part in parts {
        let Some(seat) = seats.next() else {
            return posts;
        };
        let finder = next_of(finders);
        posts.push_reserved(Post::new(alloc, seat, finder));
    }
    posts
}

// The next value, of which there is one.
fn next_of<T: Drop>(values: &mut IntoIter<T>) -> T
    requires { 0 < length values.old.rest.items }
    ensures { values.old.rest.items ≡ result ∷ values.new.rest.items }
{
    let Some(value) = values.next() else {
        unreachable!()
    };
    value
}
