//! The columns and the texts of filters.

ghost use Rattle.std.specs.Prelude.{◌≡◌, ℕ, ◌<◌, [], ◌∷◌, ◌++◌, IfOk, IfSome, List, OnOk, get_or, length, true};
ghost use Rattle.policy_index.specs.Hashes.{IsKeyOf};
ghost use Rattle.policy_index.specs.Helps.Filters.{columns_from, texts_of};

use crate::hashes::{hash_with, start_hash};
use outside::{NoMemory, Text};
use std::alloc::Global;

// A rule has fewer columns.
const MOST_COLUMNS: usize = 64;

/// The columns of the values of a filter that are not empty, the first of which stands at a column; none where all are empty, where
/// no rule has so many columns, or where memory runs out.
pub(crate) fn sought_columns(alloc: Global, at: u32, values: &[Text]) -> Option<Vec<u32>>
    ensures { IfSome result (λ columns. columns.items ≡ columns_from at values.now) }
{
    if !is_column(at as usize) {
        return None;
    }
    if !is_column(values.len()) {
        return None;
    }
    let Ok(columns) = columns_of(alloc, at, values) else {
        return None;
    };
    if columns.is_empty() {
        return None;
    }
    Some(columns)
}

// Whether a rule may have a column.
fn is_column(column: usize) -> bool
    ensures { result ≡ true → column < 64 }
{
    column < MOST_COLUMNS
}

// The columns of the values that are not empty.
fn columns_of(alloc: Global, at: u32, values: &[Text]) -> Result<Vec<u32>, NoMemory>
    requires first { at < 64 }
    requires few { length values.now < 64 }
    ensures { IfOk result (λ columns. columns.items ≡ columns_from at values.now) }
{
    let mut columns = Vec::new(alloc);
    for place in 0..values.len() {
        push_column(&mut columns, at + place as u32, value_at(values, place))?;
    }
    Ok(columns)
}

// Puts a column behind others, unless its value is empty.
fn push_column(columns: &mut Vec<u32>, column: u32, value: &[u8]) -> Result<(), NoMemory>
    ensures { OnOk result (columns.new.items
        ≡ columns.old.items ++ columns_from column (value.now ∷ [])) }
{
    if value.is_empty() {
        return Ok(());
    }
    columns.push(column)?;
    Ok(())
}

// The value at a place.
fn value_at(values: &[Text], place: usize) -> &[u8]
    requires { place < length values.now }
    ensures { result.now ≡ get_or values.now place [] }
{
    values[place].bytes()
}

/// The hash of the values of a filter that are not empty.
pub(crate) fn values_hash(values: &[Text]) -> u64
    ensures { IsKeyOf result (texts_of values.now) }
{
    let mut hash = start_hash();
    for place in 0..values.len() {
        hash = hash_value(hash, value_at(values, place));
    }
    hash
}

// A hash with one value more, unless that is empty.
fn hash_value(hash: u64, value: &[u8]) -> u64
    ensures { (texts : List (List ℕ)) → IsKeyOf hash texts
        → IsKeyOf result (texts ++ texts_of (value.now ∷ [])) }
{
    if value.is_empty() {
        return hash;
    }
    hash_with(hash, value)
}
