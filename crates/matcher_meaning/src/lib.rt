//! What a matcher means for a request and a row, and what its truths over a policy come to.
#![tactic(auto)]

mod case_laws;
mod eval_laws;
mod judged_laws;
mod order_laws;
mod worked;

pub use case_laws::{
    case_answer_is_there, case_answer_is_unique, case_verdict_is_there, case_verdict_is_unique,
    pattern_comes_by_refusal_alone, refusal_keeps_or_fails,
};
pub use eval_laws::{eval_comes_to_its_rule, only_searches_are_refused};
pub use judged_laws::judged_is_the_verdict;
pub use order_laws::{links_of_tables_are_decided, order_of_rows_is_one};
pub use worked::worked_cases;
