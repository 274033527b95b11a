use crate::fault::Fault;

/// What the matcher says of one row, or of the one evaluation that goes with no row.
#[derive(Clone, Copy, Debug, PartialEq, Eq)]
pub enum Outcome {
    /// The row does not match, or its `eft` is neither `allow` nor `deny`.
    Unmatched,
    /// The row matches, with allow where this is true, else with deny.
    Matched(bool),
    /// The evaluation of the matcher failed.
    Failed(Fault),
}
