//! How deep a subject stands under names that have no roles.
#![tactic(auto)]

mod rank;

pub use rank::depth;
pub use role_domain::Steps;
