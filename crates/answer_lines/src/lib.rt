//! What one answer of a run is, and the line that tells it.
#![tactic(auto)]

mod answer;
mod front;
mod kept;
mod laws;
mod line;
mod line_text;
mod lines;
mod pieces;
mod printed;
mod printed_lines;
mod refusals;
mod rows;
mod verdicts;
mod waiting;
mod whole_lines;

pub use answer::{Answer, Line};
pub use laws::edits_are_told_line_by_line;
pub use line::{print_line, push_decided, push_line};
pub use lines::Lines;
pub use printed::{Shown, shown_by};
pub use printed_lines::PrintedLines;
pub use waiting::WaitingAnswers;
