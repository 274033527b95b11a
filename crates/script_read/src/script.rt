ghost use Rattle.std.specs.Prelude.{◌≡◌, length};

use crate::item::Item;
use outside::Share;
use std::marker::Model;

/// The items of a text in their order. Contracts see the list of its items.
#[derive(Drop)]
pub struct Script {
    items: Vec<Item>,
}

impl Model for Script {
    ghost use Rattle.std.specs.Prelude.{List};
    ghost use Rattle.std.specs.Coded.{codes};
    ghost use Rattle.script_read.specs.declared.item.Item as item;
    ghost use Rattle.script_read.specs.contracts.item.Item as item_row;

    ghost Value = { List item.Item };

    ghost coded = { Prim.hlevel (codes, item_row.the_row.coded) };

    ghost view = { λ s. s.items.items };
}

impl Script {
    /// The script of these items. It takes no memory.
    pub fn from_vec(items: Vec<Item>) -> Script
        ensures { result ≡ items.items }
    {
        Script { items }
    }

    /// The items in their order.
    pub fn as_slice(&self) -> &[Item]
        ensures { result.now ≡ self.now }
    {
        &self.items
    }

    /// How many items there are.
    pub fn len(&self) -> usize
        ensures { result ≡ length self.now }
    {
        self.items.len()
    }
}

impl Share for Script {}
