ghost use Rattle.std.specs.Prelude.{◌≡◌, ◌&&◌, ◌+◌, ◌≤◌, ◌++◌, All, IsTrue, false, length, map, not, vec_capacity, vec_len};
ghost use Rattle.live_rounds.specs.Helps.Posts.{kept_at};

use crate::crew::Crew;
use crate::posts::Post;
use answer_lines::WaitingAnswers;
use live_pair::{Naming, Seat};
use regex_gate::Finder;
use std::alloc::Global;
use std::vec::IntoIter;

/// Puts the seats and finders of a crew back behind others, in their order, and behind others what is kept of each worker's
/// replies: all where its seat's version is not above this one, and else none. It says whether no worker ran out of memory.
pub(crate) fn dismiss<J: Naming, P: Finder>(
    alloc: Global,
    crew: Crew<J, P>,
    version: u32,
    seats: &mut Vec<Seat<J>>,
    finders: &mut Vec<P>,
    kept: &mut Vec<WaitingAnswers>,
) -> bool
    requires seat_room { vec_len seats.old + (length crew.posts.items
        + length crew.seats.rest.items) ≤ vec_capacity seats.old }
    requires finder_room { vec_len finders.old + (length crew.posts.items
        + length crew.finders.rest.items) ≤ vec_capacity finders.old }
    requires kept_room { vec_len kept.old + length crew.posts.items ≤ vec_capacity kept.old }
    ensures seats { seats.new.items ≡ seats.old.items
        ++ (map (λ p. p.seat) crew.posts.items ++ crew.seats.rest.items) }
    ensures finders { finders.new.items ≡ finders.old.items
        ++ (map (λ p. p.finder) crew.posts.items ++ crew.finders.rest.items) }
    ensures kept { kept.new.items ≡ kept.old.items
        ++ map (λ p. kept_at version p.seat p.replies) crew.posts.items }
    ensures whole { IsTrue result → All (λ p. p.ran_out ≡ false) crew.posts.items }
{
    let Crew {
        posts,
        seats: idle_seats,
        finders: idle_finders,
    } = crew;
    let whole = unpost(alloc, posts, version, seats, finders, kept);
    put_back(seats, idle_seats);
    put_back(finders, idle_finders);
    whole
}

// The same for the posts alone.
fn unpost<J: Naming, P: Finder>(
    alloc: Global,
    posts: Vec<Post<J, P>>,
    version: u32,
    seats: &mut Vec<Seat<J>>,
    finders: &mut Vec<P>,
    kept: &mut Vec<WaitingAnswers>,
) -> bool
    requires seat_room { vec_len seats.old + length posts.items ≤ vec_capacity seats.old }
    requires finder_room { vec_len finders.old + length posts.items ≤ vec_capacity finders.old }
    requires kept_room { vec_len kept.old + length posts.items ≤ vec_capacity kept.old }
    ensures seats { seats.new.items ≡ seats.old.items ++ map (λ p. p.seat) posts.items }
    ensures finders { finders.new.items ≡ finders.old.items ++ map (λ p. p.finder) posts.items }
    ensures kept { kept.new.items ≡ kept.old.items
        ++ map (λ p. kept_at version p.seat p.replies) posts.items }
    ensures whole { IsTrue result → All (λ p. p.ran_out ≡ false) posts.items }
    ensures seat_capacity { vec_capacity seats.new ≡ vec_capacity seats.old }
    ensures finder_capacity { vec_capacity finders.new ≡ vec_capacity finders.old }
{
    let mut whole = true;
    for post in posts {
        whole = is_whole(whole, post.ran_out);
        let Post {
            seat,
            finder,
            replies,
            ran_out: _ran_out,
        } = post;
        kept.push_reserved(kept_of(alloc, &seat, replies, version));
        seats.push_reserved(seat);
        finders.push_reserved(finder);
    }
    whole
}

// Whether none of the workers so far ran out of memory, nor this one.
fn is_whole(whole: bool, ran_out: bool) -> bool
    ensures { result ≡ (whole && not ran_out) }
{
    whole && !ran_out
}

// What is kept of the replies at a seat.
fn kept_of<J: Naming>(
    alloc: Global,
    seat: &Seat<J>,
    replies: WaitingAnswers,
    version: u32,
) -> WaitingAnswers
    ensures { result ≡ kept_at version seat.now replies }
{
    let reached = seat.version();
    if reached <= version {
        return replies;
    }
    WaitingAnswers::new(alloc)
}

// Puts values behind others, where there is room for them.
fn put_back<T: Drop>(values: &mut Vec<T>, left: IntoIter<T>)
    requires room { vec_len values.old + length left.rest.items ≤ vec_capacity values.old }
    ensures back { values.new.items ≡ values.old.items ++ left.rest.items }
    ensures capacity { vec_capacity values.new ≡ vec_capacity values.old }
{
    for value in left {
        values.push_reserved(value);
    }
}
