//! The text of a policy: it is read into the tables of given shapes, and tables are printed.
#![tactic(auto)]

mod entry;
mod fault;
mod fill;
mod laws;
mod policy;
mod printer;

pub use entry::{Entry, read_entry};
pub use fault::PolicyFault;
pub use laws::{
    every_text_is_a_policy_or_at_fault, faulty_text_is_no_policy, printed_policy_is_read,
    text_has_one_policy_fault, text_says_one_policy,
};
pub use policy::read_policy;
pub use printer::print_policy;
