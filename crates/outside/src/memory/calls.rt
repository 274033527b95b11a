ghost use Rattle.std.specs.Prelude.{◌≡◌, ◌≤◌};
ghost use Rattle.outside.specs.Listed.{is_listed, after_call, after_fault, fresh};

use crate::fault::Failed;
use std::marker::Model;

/// Which calls of an object in memory fail, and how many were made and failed.
#[derive(Drop)]
pub(crate) struct Calls {
    fails: Vec<u32>,
    calls: u32,
    faults: u64,
}

impl Model for Calls {
    ghost use Rattle.outside.specs.Listed.{Schedule};

    ghost Value = { Schedule };

    ghost view = { λ c. record { fails = c.fails.items; calls = c.calls; faults = c.faults } };
}

impl Calls {
    pub(crate) fn new(fails: Vec<u32>) -> Calls
        ensures { result ≡ fresh fails.items }
    {
        Calls {
            fails,
            calls: 0,
            faults: 0,
        }
    }

    /// Counts a call and answers whether it is one of those that fail.
    pub(crate) fn begin(&mut self) -> bool
        ensures listed { result ≡ is_listed self.old }
        ensures after { self.new ≡ after_call self.old }
    {
        self.calls = self.calls.saturating_add(1);
        self.fails.contains(&self.calls)
    }

    /// Counts a fault.
    pub(crate) fn fail(&mut self) -> Failed
        ensures after { self.new ≡ after_fault self.old }
        ensures counted { self.old.faults ≤ self.new.faults }
    {
        self.faults = self.faults.saturating_add(1);
        Failed
    }
}
