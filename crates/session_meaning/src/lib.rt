//! What the lines of a whole script are, where its items are taken one after the other, and where workers answer its requests:
//! definitions and their laws.
#![tactic(auto)]

mod laws;

pub use laws::{
    edits_stay_given, given_edits_are_admitted, lines_are_one, lines_are_there, lines_stay,
    plain_lines_are_shared, replies_are_printable,
};
