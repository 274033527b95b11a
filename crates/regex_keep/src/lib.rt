//! A finder that keeps what it built for the patterns that it sought last.
#![tactic(auto)]

mod keeping_finder;
mod kept_search;
mod kept_searches;

pub use keeping_finder::KeepingFinder;
