//! The reader of matchers: expressions over the columns of a request and of a policy, in the language of Casbin's models.
#![tactic(auto)]

mod calls;
mod count;
mod fault;
mod forms;
mod kinds;
mod laws;
mod names;
mod nodes;
mod number;
mod parser;
mod reader;
mod token;
mod tokens;
mod tree;
mod words;

pub use fault::MatcherFault;
pub use kinds::{NodeKind, has_node};
pub use laws::{
    every_text_is_a_matcher_or_at_fault, faulty_text_is_no_matcher, functions_have_names,
    text_has_one_fault, text_says_one_matcher,
};
pub use reader::read_matcher;
pub use tree::{Function, Operator, Tree};
