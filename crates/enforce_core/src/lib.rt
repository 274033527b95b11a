//! An enforcer as one value: the program of a model, a policy and a finder, opened from texts; and snapshots of what it has
//! published, which other threads may ask.
#![tactic(auto)]

mod calls;
mod enforcer;
mod lines;
mod options;
mod parts;
mod pieces;
mod place;
mod requests;
mod stops;

pub use enforcer::Enforcer;
pub use lines::line_of_stop;
pub use parts::{open_enforcer, open_parts};
pub use stops::{AskStop, CallStop, Called, Decided};
