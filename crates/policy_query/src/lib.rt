//! What queries on the tables of a policy and on its log answer, or why they are refused.
#![tactic(auto)]

mod edits;
mod named;
mod names;
mod refused;
mod rules;

pub use edits::edit_of;
pub use named::{roles_among, users_at};
pub use names::{names_refusal, roles_of, users_of};
pub use refused::QueryRefused;
pub use rules::{has_rule, rows_of};
