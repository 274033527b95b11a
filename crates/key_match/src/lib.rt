//! Key patterns and globs: the key functions of Casbin's matchers.
#![tactic(auto)]

mod alike;
mod bytes;
mod fit;
mod fronts;
mod laws;
mod part;
mod patterns;
mod star;
mod token;

pub use alike::key_match4;
pub use fronts::{glob_match_front, key_match_front, key_match2_front, key_match3_front};
pub use laws::{
    covering_is_decided, fitting_key_has_front, named_part_is_one, pattern_reads_one_way,
};
pub use part::{key_get2, key_get3};
pub use patterns::{glob_match, key_match2, key_match3, key_match5};
pub use star::{key_get, key_match};
