//! A stream of items that is served, at a desk or with a follower: each is answered as soon as its last line is read, and its answer is
//! pushed before more is read.
#![tactic(auto)]

mod cause;
mod clerk;
mod desk_clerk;
mod follower_clerk;
mod laws;
mod pen;
mod piece;
mod query;
mod script;
mod stream;
mod taken;
mod text;

pub use clerk::Clerk;
pub use desk_clerk::DeskClerk;
pub use follower_clerk::FollowerClerk;
pub use laws::{items_are_answered_as_in_a_session, script_is_a_stream_of_its_items};
pub use piece::serve_piece;
pub use stream::serve_stream;
