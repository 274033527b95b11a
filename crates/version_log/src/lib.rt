//! The log of a policy's edits, one a version; edits as text.
#![tactic(auto)]

mod edit_fault;
mod edit_print;
mod edit_read;
mod item;
mod item_read;
mod laws;
mod log;

pub use edit_fault::EditFault;
pub use edit_print::print_edit;
pub use edit_read::read_edit;
pub use laws::{
    every_text_is_an_edit_or_at_fault, faulty_text_is_no_edit, text_has_one_edit_fault,
    text_says_one_edit,
};
pub use log::{Log, new_log};
