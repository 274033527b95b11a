//! The parts of a text: lines, blanks, identifiers, and what stands before and behind a byte.
#![tactic(auto)]

mod blanks;
mod cuts;
mod full;
mod lines;
mod names;
mod passed;

pub use blanks::{before_blanks, behind_blanks, is_blank, trimmed};
pub use cuts::{behind, cut_at, has_byte};
pub use full::{given_number, next_full_line};
pub use lines::{lines_with_ends, lines_without_last_end, next_line, next_text_line, without_cr};
pub use names::{is_identifier, is_letter, is_word};
pub use passed::{is_passed, is_passed_in_model};
