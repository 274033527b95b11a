//! Near misses: the rules of p that fit a request in all parts of the matcher's conjunction but one.
#![tactic(auto)]

mod explainer;
mod laws;
mod lines;
mod links;
mod misses;
mod part;
mod parts;
mod row;
mod tree_text;
mod words;

pub use explainer::{Explainer, make_explainer};
pub use laws::{near_misses_are_one, near_misses_are_there, parts_are_one};
pub use lines::push_near_misses;
pub use misses::{NearMiss, near_misses};
