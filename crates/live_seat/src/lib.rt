//! Requests that are decided at a seat of a pair, by one entry each.
#![tactic(auto)]

mod answered;
mod cached;
mod decided;
mod explained;
mod laws;
mod loan;
mod printed;

pub use answered::{Answered, SeatAnswer, SeatStop};
pub use cached::decide_seat_cached;
pub use decided::decide_seat;
pub use explained::explain_seat;
pub use laws::caches_serve_seats;
pub use printed::print_seat;
