use crate::fault::Fault;

/// The answer to a request, with the row that decided, counted from 1.
#[derive(Clone, Copy, Debug, PartialEq, Eq)]
pub enum Verdict {
    /// The request is allowed.
    Allow(Option<u32>),
    /// The request is denied.
    Deny(Option<u32>),
    /// The evaluation failed, at this row where there is one.
    Fault { row: Option<u32>, fault: Fault },
}
