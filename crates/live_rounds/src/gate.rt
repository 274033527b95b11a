/// What is called where the steps of a round meet: a test may wait there. It tells nothing.
pub trait Gate: Sync {
    /// A worker is about to answer the request of this line, and is outside of any entry. Workers count from 0.
    fn pass(&self, worker: u32, ask: u32);

    /// A publish has returned, with this version.
    fn published(&self, version: u32);
}

/// A gate at which nobody waits.
#[derive(Clone, Copy)]
pub struct FreeGate;

impl Gate for FreeGate {
    fn pass(&self, _worker: u32, _ask: u32) {}

    fn published(&self, _version: u32) {}
}
