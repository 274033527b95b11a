ghost use Rattle.std.specs.Prelude.{◌≡◌, ◌≤◌, ℕ, IfOk, IsErr, OnErr, OnOk, true};
ghost use Rattle.live_pair.specs.Seats.{raised};
ghost use Rattle.outside.specs.Faults.{Rose};
ghost use Rattle.outside.specs.Listed.{after_call, after_fault, fresh, is_listed};

use crate::entrance::Entrance;
use crate::naming::Naming;
use std::marker::Model;

/// A further way into a pair was refused, and the places counted it.
#[derive(Clone, Copy, Debug, PartialEq, Eq)]
pub struct Refused;

/// What makes further ways into a pair out of the first one.
pub trait Places {
    /// How often they have refused. The count stands still at 2^64 - 1.
    ghost faults: { Self → ℕ };

    /// A further way into the same pair, which knows what the first one does.
    fn more<J: Naming>(&mut self, first: &Entrance<J>) -> Result<Entrance<J>, Refused>
        ensures more { IfOk result (λ more. more
            ≡ record { front = first.now.front; refused = 0 }) }
        ensures counted { faults self.old ≤ faults self.new }
        ensures refused { OnErr result (Rose (faults self.old) (faults self.new)) };
}

/// Places that refuse listed calls, and those for which the pair has no more places or memory runs out. Every call counts,
/// whatever its answer, and the counter stands still at 2^32 - 1. Contracts see the schedule.
#[derive(Drop)]
pub struct ListPlaces {
    fails: Vec<u32>,
    calls: u32,
    faults: u64,
}

impl Model for ListPlaces {
    ghost use Rattle.outside.specs.Listed.{Schedule};

    ghost Value = { Schedule };

    ghost view = { λ p. record { fails = p.fails.items; calls = p.calls; faults = p.faults } };
}

impl ListPlaces {
    /// Places that refuse the calls with these numbers, counted from 1. It takes no memory.
    pub fn new(fails: Vec<u32>) -> ListPlaces
        ensures fresh { result ≡ fresh fails.items }
    {
        ListPlaces {
            fails,
            calls: 0,
            faults: 0,
        }
    }

    // Counts a call and says whether it is a listed one.
    fn begin(&mut self) -> bool
        ensures listed { result ≡ is_listed self.old }
        ensures after { self.new ≡ after_call self.old }
    {
        self.calls = self.calls.saturating_add(1);
        self.fails.contains(&self.calls)
    }

    // Counts a refusal.
    fn refuse(&mut self) -> Refused
        ensures after { self.new ≡ after_fault self.old }
        ensures counted { self.old.faults ≤ self.new.faults }
    {
        self.faults = self.faults.saturating_add(1);
        Refused
    }
}

impl Places for ListPlaces {
    ghost faults = { λ places. places.faults };

    fn more<J: Naming>(&mut self, first: &Entrance<J>) -> Result<Entrance<J>, Refused>
        ensures more { IfOk result (λ more. more
            ≡ record { front = first.now.front; refused = 0 }) }
        ensures counted { self.old.faults ≤ self.new.faults }
        ensures listed { is_listed self.old ≡ true → IsErr result }
        ensures given { OnOk result (self.new ≡ after_call self.old) }
        ensures refused { OnErr result (self.new ≡ after_fault (after_call self.old)) }
    {
        if self.begin() {
            return Err(self.refuse());
        }
        match first.again() {
            Ok(more) => Ok(more),
            Err(_) => Err(self.refuse()),
        }
    }
}

/// Places that a program lends: they refuse where the pair has no more places or memory runs out, and nowhere else. Contracts
/// see how often they have refused.
#[derive(Drop)]
pub struct PairPlaces {
    refusals: u64,
}

impl Model for PairPlaces {
    ghost use Rattle.std.specs.Prelude.{ℕ};

    ghost Value = { ℕ };

    ghost view = { λ p. p.refusals };
}

impl PairPlaces {
    /// Places that have not refused yet. It takes no memory.
    pub fn new() -> PairPlaces
        ensures fresh { result ≡ 0 }
    {
        PairPlaces { refusals: 0 }
    }

    /// How often they have refused. The count stands still at 2^64 - 1.
    pub fn refusals(&self) -> u64
        ensures refusals { result ≡ self.now }
    {
        self.refusals
    }
}

impl Places for PairPlaces {
    ghost faults = { λ places. places };

    fn more<J: Naming>(&mut self, first: &Entrance<J>) -> Result<Entrance<J>, Refused>
        ensures more { IfOk result (λ more. more
            ≡ record { front = first.now.front; refused = 0 }) }
        ensures counted { self.old ≤ self.new }
        ensures given { OnOk result (self.new ≡ self.old) }
        ensures refused { OnErr result (self.new ≡ raised self.old) }
    {
        match first.again() {
            Ok(more) => Ok(more),
            Err(refused) => {
                self.refusals = self.refusals.saturating_add(1);
                Err(refused)
            }
        }
    }
}
