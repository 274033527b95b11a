//! Rounds of a session: requests that workers answer at seats of a pair, beside the administrator that does all other items.
#![tactic(auto)]

mod asks;
mod beside;
mod crew;
mod dismissal;
mod gate;
mod kinds;
mod laws;
mod posts;
mod round;
mod round_lines;
mod round_work;
mod rounds;
mod script;
mod seat_answers;
mod seat_fronts;
mod shares;
mod stretch;
mod taker;
mod together;

pub use gate::{FreeGate, Gate};
pub use laws::{replies_are_the_lines_of_a_round, seats_answer_at_cuts};
pub use round::run_round;
pub use round_lines::RoundLines;
pub use script::run_shared;
pub use stretch::{Stretch, next_round};
pub use taker::{TakeStop, Taker};
