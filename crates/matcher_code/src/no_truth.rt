use effect_fold::Fault;

/// Why a matcher has no truth.
#[derive(Clone, Copy, Debug, PartialEq, Eq)]
pub enum NoTruth {
    /// The fault at which its evaluation stopped; a search that the finder refused is one of the cause `Pattern`.
    Fault(Fault),
    /// Memory ran out.
    NoMemory,
}
