use outside::{Share, Text};

/// How much a finding matters.
#[derive(Clone, Copy, Debug, PartialEq, Eq)]
pub enum Level {
    /// The files are refused for it.
    Error,
    /// The files load, and then surprise.
    Warning,
}

impl Share for Level {}

/// What is found in a file, at its place: the line and the column, in bytes, each counted from 1.
#[derive(Drop)]
pub struct Finding {
    pub line: u64,
    pub column: u64,
    pub level: Level,
    pub text: Text,
}

impl Share for Finding {}
