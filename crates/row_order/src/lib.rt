//! An order of ids, for rows that keep their slots: the place of an id is read at once, and an edit costs about a block of
//! 512 and the number of blocks.
#![tactic(auto)]

mod cells;
mod compaction;
mod counts;
mod ids;
mod insertion;
mod order;
mod room;

pub use ids::Ids;
pub use order::RowOrder;
