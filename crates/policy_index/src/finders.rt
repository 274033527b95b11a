//! What finds the rows of tables by filters.

ghost use Rattle.std.specs.Prelude.{◌≡◌, [], IfSome, true};
ghost use Rattle.policy_table.specs.Changes.{is_possible};
ghost use Rattle.policy_table.specs.Filters.{fits_filter};
ghost use Rattle.policy_table.specs.Held.{Held};
ghost use Rattle.policy_table.specs.Slots.{slots_changed};
ghost use Rattle.policy_table.specs.Tables.{rows};
ghost use Rattle.policy_index.specs.Finders.{AreFindersIn, IsFinderIn};
ghost use Rattle.policy_index.specs.Found.{FindRows};

use crate::filter_index::FilterIndex;
use crate::filters::{sought_columns, values_hash};
use outside::{Share, Text};
use perm_base::TableId;
use policy_table::{Change, Tables};
use std::alloc::Global;
use std::marker::Model;

// So many kinds of filters are followed, since each costs memory for all rows of its table, and time at each change.
const MOST_FINDERS: usize = 8;

/// Finds the rows of tables that fit filters, by indexes that are made for the columns of the filters which are asked first, and
/// follow each change. Where memory runs out they find nothing, and are made anew when they are asked again. Contracts see a
/// table and an index for each.
pub struct Finders {
    finders: Vec<FilterIndex>,
}

// Written out, so that a caller's proof sees one call and not the drop of each field.
impl Drop for Finders {
    fn drop(self) {
        let Finders { finders: _finders } = self;
    }
}

impl Model for Finders {
    ghost use Rattle.std.specs.Prelude.{List};
    ghost use Rattle.policy_index.specs.Finders.{Sought};

    ghost Value = { List Sought };

    ghost view = { λ f. f.finders.items };
}

impl Finders {
    /// No finders yet.
    pub fn new(alloc: Global) -> Finders
        ensures { result ≡ [] }
    {
        Finders {
            finders: Vec::new(alloc),
        }
    }

    /// Makes what finds the rows of a table that fit filters with values in the same columns as this one, from the column `at` on,
    /// unless it is there, eight others are, or memory runs out. Its time is linear in the rows where it makes one.
    pub fn seek(&mut self, alloc: Global, tables: &Tables, table: TableId, at: u32, values: &[Text])
        ensures { AreFindersIn tables.now self.old → AreFindersIn tables.now self.new }
    {
        if self.finders.len() >= MOST_FINDERS {
            return;
        }
        let Some(columns) = sought_columns(alloc, at, values) else {
            return;
        };
        if self.finder_by(table, columns.as_slice()).is_some() {
            return;
        }
        let Ok(()) = self.finders.reserve(1) else {
            return;
        };
        let Some(finder) = FilterIndex::make(alloc, tables, table, columns) else {
            return;
        };
        self.finders.push_reserved(finder);
    }

    /// The places, counted from 0 and rising, of all rows of a table that fit a filter, where they are known; others may be among
    /// them. Its time grows with these rows, and with the logarithm of the table.
    pub fn find(
        &self,
        alloc: Global,
        tables: &Tables,
        table: TableId,
        at: u32,
        values: &[Text],
    ) -> Option<Vec<u32>>
        requires finders { AreFindersIn tables.now self.now }
        ensures { IfSome result (λ places. FindRows (λ rule. fits_filter rule at values.now)
            (rows tables.now.policy table) places.items) }
    {
        let Some(columns) = sought_columns(alloc, at, values) else {
            return None;
        };
        let Some(finder) = self.finder_by(table, columns.as_slice()) else {
            return None;
        };
        let Ok(places) = finder.find(alloc, tables, values_hash(values)) else {
            return None;
        };
        Some(places)
    }

    // The finder of a table by these columns, where there is one.
    fn finder_by(&self, table: TableId, columns: &[u32]) -> Option<&FilterIndex>
        ensures own { IfSome result (λ finder. (held : Held) → AreFindersIn held self.now
            → IsFinderIn held finder.now) }
        ensures table { IfSome result (λ finder. finder.now.table ≡ table) }
        ensures columns { IfSome result (λ finder.
            finder.now.index.key.columns ≡ columns.now) }
    {
        for finder in &self.finders {
            if finder.is_by(table, columns) {
                return Some(finder);
            }
        }
        None
    }

    /// Follows a change of tables, before it is made in these. Where memory runs out, nothing is found any more. Its time does not
    /// grow with the rows.
    pub fn follow(&mut self, alloc: Global, change: &Change, tables: &Tables)
        requires finders { AreFindersIn tables.now self.old }
        requires possible { is_possible change.now tables.now.policy ≡ true }
        ensures { (after : Held) → after.slots ≡ slots_changed change.now tables.now.slots
            → AreFindersIn after self.new }
    {
        if follow_each(&mut self.finders, alloc, change, tables) {
            return;
        }
        self.finders.clear();
    }
}

impl Share for Finders {}

// Follows a change of tables in each finder; whether all could.
fn follow_each(
    finders: &mut Vec<FilterIndex>,
    alloc: Global,
    change: &Change,
    tables: &Tables,
) -> bool
    requires finders { AreFindersIn tables.now finders.old.items }
    requires possible { is_possible change.now tables.now.policy ≡ true }
    ensures { result ≡ true → (after : Held)
        → after.slots ≡ slots_changed change.now tables.now.slots
        → AreFindersIn after finders.new.items }
{
    for at in 0..finders.len() {
        if !finders[at].follow(alloc, change, tables) {
            return false;
        }
    }
    true
}
