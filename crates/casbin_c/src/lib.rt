//! The enforcer for C and what calls C: a handle that C gives room for, texts in and codes out. `include/casbin.h` is its header.
#![tactic(auto)]

pub mod calls;
pub mod codes;
pub mod decisions;
pub mod enforcers;
pub mod handle;
pub mod held;
pub mod requests;
pub mod room;
pub mod shown;
#[cfg(test)]
mod tests;
