//! What refused searches for patterns that cannot be read change: nothing. A definition and its law.
#![tactic(auto)]

mod laws;

pub use laws::unreadable_patterns_are_refused_without_effect;
