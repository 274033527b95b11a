//! A box as its pointer, and as a box again: here alone memory is named by an address.
#![tactic(auto)]

mod loose;

pub use loose::Loose;
