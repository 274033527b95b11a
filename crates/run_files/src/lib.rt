//! The files of a run: a model and a policy of its shapes are fetched and read.
#![tactic(auto)]

mod files;

pub use files::load_files;
