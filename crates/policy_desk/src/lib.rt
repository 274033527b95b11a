//! The desk of one administrator: a published policy, the edits that are pending, and drafts of the tables to come.
#![tactic(auto)]

mod calls;
mod desk;
mod drafts;
mod editor;
mod publishes;
mod questions;

pub use desk::{Desk, open_desk};
pub use editor::Editor;
