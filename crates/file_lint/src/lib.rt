//! What is wrong with the texts of a model and of a policy, and what loads and then surprises: findings at their places, and the
//! lines that tell them.
#![tactic(auto)]

mod columns;
mod finding;
mod finding_text;
mod hints;
mod judge;
mod laws;
mod limits;
mod lines;
mod mended;
mod model_errors;
mod model_warnings;
mod model_words;
mod names;
mod near;
mod nodes;
mod numbers;
mod order;
mod others;
mod places;
mod policy;
mod policy_words;
mod row;
mod rows;
mod texts;
mod values;
mod wants;

pub use finding::{Finding, Level};
pub use finding_text::{count_of, push_counts, push_findings};
pub use laws::{errors_begin_with_the_fault, policies_without_fault_have_no_errors};
pub use model_errors::{ModelLint, lint_model};
pub use policy::{PolicyLint, lint_policy};
