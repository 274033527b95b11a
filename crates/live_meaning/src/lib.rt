//! What live edits mean: lists of events, in which one administrator edits and publishes a policy while readers, at their
//! seats, enter what is published. No thread runs here.
#![tactic(auto)]

mod counts;
mod events;
mod laws;
mod runs;
mod worlds;

pub use events::{Event, Reply, StepStop};
pub use laws::{entries_are_cuts, entries_are_legal, entries_follow_notes, versions_never_fall};
pub use runs::run;
pub use worlds::{World, new_world, step};
