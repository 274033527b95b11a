//! The command `lint`: it fetches a model and a policy, and tells what is wrong with them, and what loads and then surprises.
#![tactic(auto)]

mod files;
mod job;
mod run;

pub use job::asks_for_lint;
pub use run::run_lint;
pub use run_status::Status;
