//! The program's edge: the real files and streams, the finders, and the run over them.
#![tactic(auto)]

mod file_shelf;
mod program;
mod read_source;
mod write_sink;

pub use file_shelf::FileShelf;
pub use program::{exit_code, run_program};
pub use read_source::ReadSource;
pub use write_sink::WriteSink;
