ghost use Rattle.std.specs.Prelude.{◌≡◌, ℕ, ◌+◌, ◌≤◌, IfNone, IfOk, IfSome, List, OnOk, false, length, true};
ghost use Rattle.perm_base.specs.declared.shapes.TableId.TheVariants.{P};
ghost use Rattle.policy_table.specs.Changes.{flat, is_table, table_of};
ghost use Rattle.policy_index.specs.Hashes.{mark_of};
ghost use Rattle.policy_index.specs.Helps.Kept.{has_hash, one_if};
ghost use Rattle.policy_index.specs.Indexed.{all_fit, fits_key, puts, puts_hash, slots_taken, takes_slot};
ghost use Rattle.policy_index.specs.Keys.{KeyParts, is_below};
ghost use Rattle.policy_index.specs.Lists.{room_at, slots_at};

use crate::key::RowKey;
use crate::mark::mark_of;
use crate::slots::Slots;
use outside::NoMemory;
use perm_base::{Rule, TableId};
use policy_table::{Change, Edit};
use std::alloc::Global;

/// Makes room for the slots of the rules that edits put into p, under their hashes.
pub(crate) fn reserve(
    slots: &mut Slots,
    alloc: Global,
    key: &RowKey,
    edits: &[Edit],
) -> Result<(), NoMemory>
    requires { all_fit key.now (flat edits.now) ≡ true }
    ensures slots { (hash : ℕ) → slots_at slots.new hash ≡ slots_at slots.old hash }
    ensures more { (hash : ℕ) → room_at slots.old hash ≤ room_at slots.new hash }
    ensures room { OnOk result ((hash : ℕ) → puts key.now hash (flat edits.now)
        ≤ room_at slots.new hash) }
{
    // As many slots for each hash as the changes so far put rules under it into p.
    let mut counts = Slots::new(alloc);
    for edit in edits {
        reserve_edit(slots, &mut counts, alloc, key, edit.as_slice())?;
    }
    Ok(())
}

// Makes room for the slots of the changes of one edit more.
fn reserve_edit(
    slots: &mut Slots,
    counts: &mut Slots,
    alloc: Global,
    key: &RowKey,
    changes: &[Change],
) -> Result<(), NoMemory>
    requires { all_fit key.now changes.now ≡ true }
    ensures slots { (hash : ℕ) → slots_at slots.new hash ≡ slots_at slots.old hash }
    ensures more { (hash : ℕ) → room_at slots.old hash ≤ room_at slots.new hash }
    ensures counted { OnOk result ((hash : ℕ) → length (slots_at counts.new hash)
        ≡ length (slots_at counts.old hash) + puts key.now hash changes.now) }
    ensures room { OnOk result ((hash : ℕ)
        → length (slots_at counts.old hash) ≤ room_at slots.old hash
        → length (slots_at counts.new hash) ≤ room_at slots.new hash) }
{
    for change in changes {
        reserve_one(slots, counts, alloc, key, change)?;
    }
    Ok(())
}

// Makes room for the slot of one change more.
fn reserve_one(
    slots: &mut Slots,
    counts: &mut Slots,
    alloc: Global,
    key: &RowKey,
    change: &Change,
) -> Result<(), NoMemory>
    requires { fits_key key.now change.now ≡ true }
    ensures slots { (hash : ℕ) → slots_at slots.new hash ≡ slots_at slots.old hash }
    ensures more { (hash : ℕ) → room_at slots.old hash ≤ room_at slots.new hash }
    ensures counted { OnOk result ((hash : ℕ) → length (slots_at counts.new hash)
        ≡ length (slots_at counts.old hash) + one_if (puts_hash key.now hash change.now)) }
    ensures room { OnOk result ((hash : ℕ)
        → length (slots_at counts.old hash) ≤ room_at slots.old hash
        → length (slots_at counts.new hash) ≤ room_at slots.new hash) }
{
    let Some(rule) = put_in(change) else {
        return Ok(());
    };
    let hash = mark_of(key, rule).hash;
    counts.add(alloc, hash, 0)?;
    slots.reserve(alloc, hash, counts.of(hash).len())
}

// The rule that a change puts into p.
fn put_in(change: &Change) -> Option<&Rule>
    ensures hash { IfSome result (λ rule. (key : KeyParts) (hash : ℕ)
        → puts_hash key hash change.now ≡ has_hash hash (mark_of key rule.now)) }
    ensures fits { IfSome result (λ rule. (key : KeyParts)
        → fits_key key change.now ≡ is_below (length rule.now) key) }
    ensures none { IfNone result ((key : KeyParts) (hash : ℕ)
        → puts_hash key hash change.now ≡ false) }
{
    if !is_of_p(change) {
        return None;
    }
    match change {
        Change::Insert { rule, .. } => Some(rule),
        Change::Remove { .. } => None,
        Change::Replace { new, .. } => Some(new),
    }
}

/// How many further slots of p edits take; more than 2^32 of them count as want of memory.
pub(crate) fn count_taken(edits: &[Edit]) -> Result<u32, NoMemory>
    ensures { IfOk result (λ count. count ≡ slots_taken (flat edits.now)) }
{
    let mut count = 0;
    for edit in edits {
        count = count_in(edit.as_slice(), count)?;
    }
    Ok(count)
}

// How many those of one edit take, and so many before them.
fn count_in(changes: &[Change], before: u32) -> Result<u32, NoMemory>
    ensures { IfOk result (λ count. count ≡ before + slots_taken changes.now) }
{
    let mut count = before;
    for change in changes {
        if takes_slot(change) {
            if count == u32::MAX {
                return Err(NoMemory);
            }
            count += 1;
        }
    }
    Ok(count)
}

fn takes_slot(change: &Change) -> bool
    ensures { result ≡ takes_slot change.now }
{
    match change {
        Change::Insert { .. } => is_of_p(change),
        Change::Remove { .. } | Change::Replace { .. } => false,
    }
}

/// Whether it is a change of p.
pub(crate) fn is_of_p(change: &Change) -> bool
    ensures { result ≡ is_table P (table_of change.now) }
{
    match change.table() {
        TableId::P => true,
        TableId::G(_) => false,
    }
}
