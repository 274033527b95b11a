ghost use Rattle.std.specs.Prelude.{◌≡◌, []};
ghost use Rattle.std.specs.Iterator.{YieldsFirst, item_count};
ghost use Rattle.row_order.specs.Helps.Cells.{live};

use std::marker::Model;

/// The ids of an order in turn. Contracts see those that are left. To go over all of them costs about two steps for each slot at most.
#[derive(Drop)]
pub struct Ids<'a> {
    cells: &'a [Option<u32>],
}

impl<'a> Model for Ids<'a> {
    ghost use Rattle.std.specs.Prelude.{ℕ, List};
    ghost use Rattle.row_order.specs.Helps.Cells.{live};

    ghost Value = { List ℕ };

    ghost view = { λ ids. live ids.cells.now };
}

impl<'a> Ids<'a> {
    /// No ids.
    pub fn none() -> Ids<'a>
        ensures { result ≡ [] }
    {
        Ids { cells: &[] }
    }

    pub(crate) fn new(cells: &'a [Option<u32>]) -> Ids<'a>
        ensures { result ≡ live cells.now }
    {
        Ids { cells }
    }
}

impl<'a> Iterator for Ids<'a> {
    type Item = u32;

    ghost next_gives = { YieldsFirst (λ left. left) };

    ghost remaining = { item_count (λ left. left) };

    fn next(&mut self) -> Option<u32> {
        while let Some((cell, others)) = self.cells.split_first() {
            self.cells = others;
            if let Some(id) = *cell {
                return Some(id);
            }
        }
        None
    }
}
