//! How a run of the program ends: its status, why it stopped, and the line that tells it.
#![tactic(auto)]

mod laws;
mod message;
mod part;
mod status;
mod stop;
mod stop_text;

pub use laws::{line_tells_the_status, lines_in_full};
pub use part::Part;
pub use status::Status;
pub use stop::Stop;
pub use stop_text::{push_stop, tell_hits, tell_stop};
