ghost use Rattle.std.specs.Prelude.{◌≡◌, ◌<◌, ◌≤◌, [], MatchOption, drop, length, take};
ghost use Rattle.std.specs.Bool.{beq};
ghost use Rattle.std.specs.List.{prefix_len};
ghost use Rattle.live_rounds.specs.Helps.MergedItems.{BeginsWith};

use std::marker::Model;

/// Of each item of a round that is left, whether it is a request. Contracts see the list of them.
#[derive(Drop)]
pub(crate) struct Kinds {
    all: Vec<bool>,
    // How many items were passed.
    passed: usize,
}

impl Model for Kinds {
    ghost use Rattle.std.specs.Prelude.{◌≤◌, Bool, List, drop, vec_len};

    ghost Value = { List Bool };

    ghost view = { λ k. drop k.passed k.all.items };

    ghost invariant = { λ k. k.passed ≤ vec_len k.all };
}

/// Items one behind the other that are all requests, or of which none is one.
#[derive(Clone, Copy)]
pub(crate) struct Run {
    pub asks: bool,
    pub count: usize,
}

impl Kinds {
    /// Those of all items.
    pub(crate) fn new(all: Vec<bool>) -> Kinds
        ensures { result ≡ all.items }
    {
        Kinds { all, passed: 0 }
    }

    /// The run that stands first, or so many items of a longer one; none where no item is left.
    pub(crate) fn first_run(&self, most: usize) -> Option<Run>
        requires { 0 < most }
        ensures { MatchOption result (self.now ≡ [])
            (λ run. BeginsWith run.asks run.count self.now) }
    {
        let front = self.front(most);
        let Some(asks) = front.first() else {
            return None;
        };
        let asks = *asks;
        let count = run_len(asks, front);
        Some(Run { asks, count })
    }

    /// Passes over so many.
    pub(crate) fn pass(&mut self, count: usize)
        requires { count ≤ length self.old }
        ensures { self.new ≡ drop count self.old }
    {
        self.passed += count;
    }

    // The first ones, at most so many.
    fn front(&self, most: usize) -> &[bool]
        ensures { result.now ≡ take most self.now }
    {
        let count = most.min(self.all.len() - self.passed);
        &self.all[self.passed..self.passed + count]
    }
}

// How many kinds at the front are this one.
fn run_len(asks: bool, kinds: &[bool]) -> usize
    ensures { result ≡ prefix_len (λ kind. beq kind asks) kinds.now }
{
    kinds.iter().take_while(|kind| **kind == asks).count()
}
