//! What a command does over a model and a policy that were loaded by way of a cache: requests are answered, and their hits counted.
#![tactic(auto)]

mod cached;

pub use cached::enforce_cached;
