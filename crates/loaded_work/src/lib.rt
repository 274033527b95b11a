//! What commands do over a model and a policy that were loaded: requests, items and packets are answered, and the answers pushed.
#![tactic(auto)]

mod court;
mod followed;
mod gather;
mod guide;
mod implied;
mod loaded;
mod opened;
mod reports;
mod session;
mod shipped;
mod taken_lines;

pub use court::{Court, ask, enforce, next_number};
pub use followed::follow;
pub use gather::push_full;
pub use guide::explain;
pub use implied::implicit;
pub use loaded::Loaded;
pub use opened::{Opened, open_loaded};
pub use reports::report;
pub use session::{print_lines, serve};
pub use shipped::ship;
