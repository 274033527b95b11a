//! The program's run, from words and bytes to bytes: requests and scripts are answered, models and policies shown.
#![tactic(auto)]

mod demo;
mod input;
mod job;
mod laws;
mod run;
mod shared;
mod shown_files;

pub use laws::{input_is_read_last, one_end, runs_end_as_given, shown_files_are_read};
pub use run::run_casbin;
pub use run_status::Status;
