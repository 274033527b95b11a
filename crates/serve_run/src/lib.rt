//! The run of a stream that is served, from words and files to answers.
#![tactic(auto)]

mod notice;
mod opened;
mod service;
mod words;

pub use service::serve_casbin;
pub use words::asks_to_serve;
