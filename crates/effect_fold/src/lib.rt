//! The effects of a policy: the verdict that they give for the outcomes of its rows, and why an evaluation fails.
#![tactic(auto)]

mod effect;
mod fault;
mod fold;
mod outcome;
mod verdict;
mod worked;

pub use effect::Effect;
pub use fault::{Cause, Fault};
pub use fold::Fold;
pub use outcome::Outcome;
pub use verdict::Verdict;
pub use worked::worked_verdicts;
