//! A policy as a whole: its tables, its index, its role relations and the log of its edits, which change all at once or not at
//! all.
#![tactic(auto)]

mod edits;
mod indexes;
mod laws;
mod prepared;
mod queries;
mod questions;
mod sections;
mod state;

pub use laws::states_stand_for_their_history;
pub use policy_query::QueryRefused;
pub use prepared::{PreparedParts, PreparedState};
pub use state::{PolicyState, make_state};
