ghost use Rattle.std.specs.Prelude.{◌≡◌, ◌<◌, All, OnOk, filter, length};
ghost use Rattle.perm_base.specs.declared.shapes.TableId.TheVariants.{P};
ghost use Rattle.policy_table.specs.Slots.{slots};
ghost use Rattle.policy_table.specs.Tables.{rows};
ghost use Rattle.policy_index.specs.Found.{ArePlacesOf};
ghost use Rattle.policy_index.specs.Helps.FoundSlots.{ArePlacesOfEach};
ghost use Rattle.policy_index.specs.Indexed.{IsIndexIn};
ghost use Rattle.policy_index.specs.Keys.{of_column};
ghost use Rattle.policy_index.specs.Places.{has_text_at, places_of};

use crate::hashes::{hash_with, start_hash};
use crate::index::Index;
use outside::NoMemory;
use perm_base::TableId;
use policy_table::Tables;

/// Puts in the place of slots of p the places of their rows, counted from 0, each once and rising. It takes no memory.
pub fn put_in_order(tables: &Tables, found: &mut Vec<u32>)
    requires { All (λ slot. slot < length (slots tables.now P)) found.old.items }
    ensures { ArePlacesOf (slots tables.now P) (rows tables.now.policy P)
        found.old.items found.new.items }
{
    put_rows_in_order(tables, TableId::P, found);
}

/// The same for slots of any table.
#[inline(always)]
pub(crate) fn put_rows_in_order(tables: &Tables, table: TableId, found: &mut Vec<u32>)
    requires { All (λ slot. slot < length (slots tables.now table)) found.old.items }
    ensures { ArePlacesOf (slots tables.now table) (rows tables.now.policy table)
        found.old.items found.new.items }
{
    tables.kept();
    put_places(tables, table, found);
    if found.len() < 2 {
        return;
    }
    found.sort_unstable();
    found.dedup();
}

// Puts in the place of each slot that of its row.
fn put_places(tables: &Tables, table: TableId, found: &mut Vec<u32>)
    requires { All (λ slot. slot < length (slots tables.now table)) found.old.items }
    ensures { ArePlacesOfEach (slots tables.now table) (rows tables.now.policy table)
        found.old.items found.new.items }
{
    for at in 0..found.len() {
        found[at] = tables.place_of_slot(table, found[at]);
    }
}

impl Index {
    /// The places, counted from 0 and rising, of exactly the rows of p whose column equals a text, where the index is by this
    /// column alone; they take the place of what `places` held.
    pub fn rows_of(
        &self,
        tables: &Tables,
        column: u32,
        text: &[u8],
        places: &mut Vec<u32>,
    ) -> Result<(), NoMemory>
        requires key { self.now.key ≡ of_column column }
        requires index { IsIndexIn self.now tables.now }
        ensures { OnOk result (places.new.items
            ≡ places_of column text.now (rows tables.now.policy P)) }
    {
        let _by_slot = tables.by_slot(TableId::P);
        places.clear();
        self.gather(hash_with(start_hash(), text), &[], places)?;
        put_in_order(tables, places);
        keep_exact(tables, column, text, places);
        Ok(())
    }
}

// Keeps the places of the rows whose column equals a text.
fn keep_exact(tables: &Tables, column: u32, text: &[u8], places: &mut Vec<u32>)
    requires within { All (λ place. place < length (rows tables.now.policy P)) places.old.items }
    requires columns { All (λ rule. column < length rule) (rows tables.now.policy P) }
    ensures { places.new.items ≡ filter (has_text_at column text.now (rows tables.now.policy P))
        places.old.items }
{
    let mut kept = 0;
    for at in 0..places.len() {
        let place = places[at];
        if row_has(tables, column, text, place) {
            places[kept] = place;
            kept += 1;
        }
    }
    places.truncate(kept);
}

// Whether the row at a place has a text in a column.
fn row_has(tables: &Tables, column: u32, text: &[u8], place: u32) -> bool
    requires within { place < length (rows tables.now.policy P) }
    requires columns { All (λ rule. column < length rule) (rows tables.now.policy P) }
    ensures { result ≡ has_text_at column text.now (rows tables.now.policy P) place }
{
    let rule = tables.row(TableId::P, place);
    text == rule.field(column)
}
