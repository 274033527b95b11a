//! The outside of the engine: texts, sources, sinks and shelves, and their forms in memory.
#![tactic(auto)]

mod fault;
mod fetch_log;
mod line_text;
mod memory;
mod share;
mod shelf;
mod sink;
mod source;
mod text;

pub use fault::{Failed, NoMemory};
pub use fetch_log::{FetchCall, FetchLog};
pub use line_text::LineText;
pub use memory::{ListShelf, ListSink, ListSource, SureShelf, SureSink, SureSource};
pub use share::Share;
pub use shelf::{Fetch, Shelf};
pub use sink::{Sink, push_all};
pub use source::{ReadStop, Source, ends_after, read_all};
pub use text::Text;
