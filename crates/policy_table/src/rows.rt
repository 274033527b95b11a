ghost use Rattle.std.specs.Prelude.{◌≡◌, [], length};
ghost use Rattle.std.specs.Iterator.{YieldsFirstRef, item_count};
ghost use Rattle.policy_table.specs.Helps.Orders.{AreBelow, in_order};

use perm_base::Rule;
use row_order::Ids;
use std::marker::Model;

/// The rules of a table in their order, one after the other. Contracts see those that are left.
#[derive(Drop)]
pub struct Rows<'a> {
    by_slot: &'a [Rule],
    ids: Ids<'a>,
}

impl<'a> Model for Rows<'a> {
    ghost use Rattle.std.specs.Prelude.{List, length};
    ghost use Rattle.policy_table.specs.Helps.Orders.{AreBelow, in_order};
    ghost use Rattle.policy_table.specs.Tables.{Fields};

    ghost Value = { List Fields };

    ghost view = { λ r. in_order r.by_slot.now r.ids };

    ghost invariant = { λ r. AreBelow (length r.by_slot.now) r.ids };
}

impl<'a> Rows<'a> {
    /// No rules.
    pub(crate) fn none() -> Rows<'a>
        ensures { result ≡ [] }
    {
        Rows {
            by_slot: &[],
            ids: Ids::none(),
        }
    }

    /// The rules of these slots.
    pub(crate) fn new(by_slot: &'a [Rule], ids: Ids<'a>) -> Rows<'a>
        requires { AreBelow (length by_slot.now) ids }
        ensures { result ≡ in_order by_slot.now ids.entry }
    {
        Rows { by_slot, ids }
    }
}

impl<'a> Iterator for Rows<'a> {
    type Item = &'a Rule;

    ghost next_gives = { YieldsFirstRef (λ left. left) };

    ghost remaining = { item_count (λ left. left) };

    fn next(&mut self) -> Option<&'a Rule> {
        let Some(id) = self.ids.next() else {
            return None;
        };
        Some(&self.by_slot[id as usize])
    }
}
