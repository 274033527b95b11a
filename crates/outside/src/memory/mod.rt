mod calls;
mod entries;
mod list_shelf;
mod list_sink;
mod list_source;
mod sure_shelf;
mod sure_sink;
mod sure_source;
mod unread;

pub use list_shelf::ListShelf;
pub use list_sink::ListSink;
pub use list_source::ListSource;
pub use sure_shelf::SureShelf;
pub use sure_sink::SureSink;
pub use sure_source::SureSource;
