/// A place in a file: the line and the column, in bytes, each counted from 1.
#[derive(Drop)]
pub(crate) struct Place {
    pub(crate) line: u64,
    pub(crate) column: u64,
}
