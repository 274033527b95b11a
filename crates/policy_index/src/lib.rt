//! Indexes of a policy: which rows of p can have the texts of some columns, and a pattern that a text fits, and which rows of a
//! table fit a filter.
#![tactic(auto)]

mod changes;
mod filter_index;
mod filters;
mod finders;
mod fronts;
mod growth;
mod hashes;
mod index;
mod key;
mod laws;
mod mark;
mod order;
mod places;
mod room;
mod slot_list;
mod slot_search;
mod slots;

pub use finders::Finders;
pub use hashes::{hash_with, start_hash};
pub use index::Index;
pub use key::{FrontColumn, FrontKind, RowKey};
pub use laws::{fitting_text_may_fit, places_are_exact};
pub use mark::Mark;
pub use order::put_in_order;
