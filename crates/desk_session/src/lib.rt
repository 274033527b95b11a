//! Sessions: scripts that are answered at a desk, each item in its turn.
#![tactic(auto)]

mod asked;
mod calls;
mod item;
mod judged_line;
mod named;
mod other;
mod plain;
mod printed_reply;
mod queries;
mod request;

pub use answer_lines::{Answer, Line, Lines};
pub use asked::asked_in;
pub use item::answer_item;
pub use judged_line::{push_asked, push_request};
pub use named::named_rule;
pub use other::answer_other;
pub use plain::run_plain;
pub use printed_reply::print_asked;
pub use queries::{bytes_of, refusal_answer};
pub use request::{answer_request, answer_text};
