//! The model of a policy, as a text of Casbin's model syntax.
#![tactic(auto)]

mod columns;
mod effects;
mod entries;
mod fault;
mod joined_lines;
mod key;
mod laws;
mod line_content;
mod model;
mod outline;
mod printer;
mod reader;
mod relations;
mod rule_text;
mod sections;
mod shapes;
mod uses;

pub use fault::ModelFault;
pub use key::Key;
pub use laws::{
    every_text_says_a_rule_or_none, faulty_text_is_no_model, printed_model_is_read,
    text_has_one_model_fault, text_says_one_model, text_says_one_rule,
};
pub use model::Model;
pub use printer::print_model;
pub use reader::read_model;
pub use rule_text::{RuleTextFault, has_eval, read_rule_text};
pub use shapes::{ShapeFault, shapes_of};
