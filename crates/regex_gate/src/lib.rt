//! Searching for patterns behind a trait, so that a refused pattern is counted and kept.
#![tactic(auto)]

mod finder;
mod list_finder;
mod pattern;
mod regex_finder;
mod search;

pub use finder::{FindStop, Finder, uses_add_up};
pub use list_finder::ListFinder;
pub use regex_finder::RegexFinder;
