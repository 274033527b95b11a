//! A stream of items as it comes: it is cut into sections, line by line, and no more is held of it than the section that is not
//! ended yet.
#![tactic(auto)]

mod held;
mod kind;
mod laws;
mod line_bytes;
mod packet;
mod section;
mod sections;

pub use laws::front_is_cut_first;
pub use packet::is_packet;
pub use section::Section;
pub use sections::Sections;
