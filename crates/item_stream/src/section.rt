/// A section of a stream: a line by itself, or a block.
#[derive(Drop)]
pub enum Section {
    /// A line of more than 65,536 bytes, a block that has one, or a block of more than 200,000 rule lines or 16 MiB.
    TooLong,
    /// Its lines, each followed by LF. Blank lines and comments are no part of it.
    Lines(Vec<u8>),
}
