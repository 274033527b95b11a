//! What the words behind the program's name ask for: a command, its files, and its options.
#![tactic(auto)]

mod command;
mod described;
mod fits;
mod kind;
mod lists;
mod numbers;
mod operands;
mod options;
mod words;

pub use command::{Command, Files, Options, Subject};
pub use fits::RelationFits;
pub use words::read_words;
