ghost use Rattle.std.specs.Prelude.{◌≤◌, length};

use crate::rank::{is_above_rank, rank};
use outside::NoMemory;
use perm_base::Rule;
use row_order::RowOrder;
use std::alloc::Global;

/// The ranks of rules by their slots, as far as memory was there for them. They say where a rule is looked for first, without
/// a look at the rules; what they say is tested against these, so no contract speaks of them.
#[derive(Drop)]
pub(crate) struct RankHints {
    by_slot: Vec<Option<i64>>,
}

impl RankHints {
    pub(crate) fn new(alloc: Global) -> RankHints {
        RankHints {
            by_slot: Vec::new(alloc),
        }
    }

    /// Keeps the rank of the rule in a slot, the next one or one of those before it.
    pub(crate) fn keep(&mut self, slot: u32, rank: Option<i64>) {
        let at = slot as usize;
        if at < self.by_slot.len() {
            self.by_slot[at] = rank;
        } else if at == self.by_slot.len() {
            let _kept = self.by_slot.push(rank);
        }
    }

    /// Drops the rank of the rule in a slot, into which the one of the last slot comes.
    pub(crate) fn remove(&mut self, slot: u32, last: u32) {
        let at = slot as usize;
        if at >= self.by_slot.len() {
            return;
        }
        if last as usize == self.by_slot.len() - 1 {
            let _gone = self.by_slot.swap_remove(at);
        } else {
            self.by_slot.truncate(at);
        }
    }

    /// Keeps the ranks of the rules, and of no others.
    pub(crate) fn keep_all(&mut self, rules: &[Rule]) {
        self.by_slot.clear();
        for rule in rules {
            let _kept = self.by_slot.push(rank(rule));
        }
    }

    pub(crate) fn copy(&self, alloc: Global) -> Result<RankHints, NoMemory> {
        Ok(RankHints {
            by_slot: Vec::from_slice(alloc, &self.by_slot)?,
        })
    }

    /// How many rules of an order are not above a rank, by the ranks that are kept.
    pub(crate) fn count_up_to(&self, order: &RowOrder, limit: Option<i64>) -> u32
        ensures { result ≤ length order.now.ids }
    {
        let mut low = 0;
        let mut high = order.len();
        while low < high {
            let middle = low + (high - low) / 2;
            if is_above_rank(self.rank_at(order, middle), limit) {
                high = middle;
            } else {
                low = middle + 1;
            }
        }
        low
    }

    // The rank that is kept of the rule at a place.
    fn rank_at(&self, order: &RowOrder, place: u32) -> Option<i64> {
        let slot = order.at(place)?;
        *self.by_slot.get(slot as usize)?
    }
}
