//! A role relation over its domains: the rows of each domain as a role graph, kept up by edits, and
//! what is asked of names in a domain.
#![tactic(auto)]

mod domain;
mod domain_steps;
mod domains;
mod moves;
mod own_rows;
mod patterns;
mod prepared;
mod rows;
mod section;
mod tallies;
mod tally;
mod terms;
mod walk;

pub use prepared::PreparedSection;
pub use role_graph::{Reach, Room, Steps};
pub use section::RoleSection;
