//! A cache of answers: verdicts that are kept for requests, each equal to the one that is judged anew.
#![tactic(auto)]

mod answer;
mod cache;
mod laws;
mod lookup;

pub use answer::{CachedAnswer, Kept};
pub use cache::Cache;
pub use laws::caches_serve_their_seats;
pub use lookup::decide_cached;
