//! The decision: the verdict of a model on a request over a policy.
#![tactic(auto)]

mod asked_name;
mod asking;
mod by_rows;
mod by_subjects;
mod candidates;
mod depths;
mod found_rows;
mod links;
mod looked;
mod names;
mod outcome;
mod parts;
mod plain_parts;
mod plan;
mod program;
mod scratch;
mod verdicts;

pub use program::{Arity, Program, make_program};
pub use scratch::Scratch;
pub use verdicts::decide;
