use effect_fold::Verdict;

/// The answer to a request by way of a cache.
#[derive(Clone, Copy, Debug, PartialEq, Eq)]
pub struct CachedAnswer {
    pub verdict: Verdict,
    /// Whether the request stood in the cache, so that nothing was judged.
    pub hit: bool,
    pub kept: Kept,
}

/// Whether a cache has the verdict now.
#[derive(Clone, Copy, Debug, PartialEq, Eq)]
pub enum Kept {
    Yes,
    /// It is the fault of a pattern, as a finder's refusal is: such a verdict is never kept.
    Refused,
    /// There was no memory to keep it.
    NoMemory,
}
