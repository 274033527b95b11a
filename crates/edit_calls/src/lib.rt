//! The management calls of a policy: what each changes, or why it is refused.
#![tactic(auto)]

mod admitted;
mod call;
mod changes;
mod edits;
mod front;
mod known;
mod laws;
mod listed;
mod named;
mod refusals;
mod refused;
mod resolution;
mod told;

pub use admitted::{admits, may_stand};
pub use call::{Call, Pairs};
pub use front::make_front;
pub use known::Known;
pub use laws::{
    admitted_edits_compose, admitted_edits_keep_sound, edits_apply, edits_are_admitted,
    edits_keep_shapes, edits_keep_sound,
};
pub use refused::CallRefused;
pub use resolution::resolve;
