//! The demonstration: a session that is made for it, over a model with roles, and the summary of its lines.
#![tactic(auto)]

mod counts;
mod demo;
mod texts;

pub use demo::summarize;
