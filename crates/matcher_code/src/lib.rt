//! The code of a matcher: instructions that are checked once and run over a fixed stack.
#![tactic(auto)]

mod arithmetic;
mod asked;
mod attributes;
mod build_ops;
mod build_walk;
mod builder;
mod calls;
mod code;
mod comparison;
mod eval;
mod faults;
mod frame;
mod halt;
mod height_walk;
mod heights;
mod kept_rules;
mod links;
mod no_truth;
mod op;
mod operators;
mod pause;
mod rule_code;
mod run_on;
mod runs;
mod stack;
mod stack_ops;
mod step;
mod verification;

pub use builder::{build, build_rule};
pub use code::Code;
pub use kept_rules::KeptRules;
pub use links::Links;
pub use no_truth::NoTruth;
pub use op::{Instruction, Op};
pub use runs::run;
pub use stack::{FixedStack, Stack, WideStack};
pub use verification::{Unverified, verify};
