ghost use Rattle.std.specs.Prelude.{◌≡◌, ◌∷◌, IfOk, IfSome, List, OnOk, true};
ghost use Rattle.perm_base.specs.declared.shapes.TableId.TheVariants.{P};
ghost use Rattle.policy_index.specs.Indexed.{all_fit, slots_behind};
ghost use Rattle.policy_index.specs.Keys.{HaveColumns};
ghost use Rattle.policy_state.specs.Helps.Kept.{AreIndexed, key_of};
ghost use Rattle.policy_state.specs.Ready.{CanIndex};
ghost use Rattle.policy_table.specs.Changes.{changed, edited, flat, is_possible};
ghost use Rattle.policy_table.specs.Held.{IsPreparedFor};
ghost use Rattle.policy_table.specs.Slots.{slots};
ghost use Rattle.policy_table.specs.Tables.{Fields, rows};
ghost use Rattle.policy_table.specs.declared.change.Change.{Change};

use outside::NoMemory;
use perm_base::TableId;
use policy_index::{Index, RowKey};
use policy_table::{Change, Edit, PreparedTables, TableStep, Tables};
use std::alloc::Global;

/// The index of p of tables by a key, where one is wanted.
pub(crate) fn make_index(
    alloc: Global,
    key: Option<RowKey>,
    tables: &Tables,
) -> Result<Option<Index>, NoMemory>
    requires { IfSome key (λ key. HaveColumns key (rows tables.now.policy P)) }
    ensures key { IfOk result (λ index. key_of index ≡ key) }
    ensures rows { IfOk result (λ index. AreIndexed index (slots tables.now P)) }
{
    let Some(key) = key else {
        return Ok(None);
    };
    Ok(Some(Index::make(alloc, tables, key)?))
}

/// The same index once more, where there is one.
pub(crate) fn copy_index(alloc: Global, index: &Option<Index>) -> Result<Option<Index>, NoMemory>
    ensures key { IfOk result (λ copy. key_of copy ≡ key_of index.now) }
    ensures rows { IfOk result (λ copy. (by_slot : List Fields)
        → AreIndexed index.now by_slot → AreIndexed copy by_slot) }
{
    match index {
        Some(index) => Ok(Some(index.copy(alloc)?)),
        None => Ok(None),
    }
}

/// Makes room for edits in the index, where there is one.
pub(crate) fn prepare_index(
    index: &mut Option<Index>,
    alloc: Global,
    edits: &[Edit],
) -> Result<(), NoMemory>
    requires { IfSome index.old (λ index. all_fit index.key (flat edits.now) ≡ true) }
    ensures key { key_of index.new ≡ key_of index.old }
    ensures stays { (by_slot : List Fields)
        → AreIndexed index.old by_slot → AreIndexed index.new by_slot }
    ensures ready { OnOk result (CanIndex (flat edits.now) index.new) }
{
    match index {
        Some(index) => index.prepare(alloc, edits),
        None => Ok(()),
    }
}

/// Makes in tables, and in their index where there is one, what was prepared for both. It takes no memory.
pub(crate) fn make_all(tables: &mut Tables, index: &mut Option<Index>, prepared: PreparedTables)
    requires tables { IsPreparedFor tables.old prepared }
    requires index { AreIndexed index.old (slots tables.old P) }
    requires ready { CanIndex prepared index.old }
    ensures policy { tables.new.policy ≡ edited prepared tables.old.policy }
    ensures key { key_of index.new ≡ key_of index.old }
    ensures index { AreIndexed index.new (slots tables.new P) }
{
    for step in prepared.into_steps() {
        make_one(tables, index, step);
    }
    forget_emptied(index);
}

// Makes one step, the first of those that were prepared.
fn make_one(tables: &mut Tables, index: &mut Option<Index>, step: TableStep)
    requires tables { (changes : List Change) × IsPreparedFor tables.old (step ∷ changes) }
    requires index { AreIndexed index.old (slots tables.old P) }
    requires ready { (changes : List Change) × CanIndex (step ∷ changes) index.old }
    ensures policy { tables.new.policy ≡ changed step tables.old.policy }
    ensures tables { (changes : List Change)
        → IsPreparedFor tables.old (step ∷ changes) → IsPreparedFor tables.new changes }
    ensures key { key_of index.new ≡ key_of index.old }
    ensures index { AreIndexed index.new (slots tables.new P) }
    ensures ready { (changes : List Change)
        → CanIndex (step ∷ changes) index.old → CanIndex changes index.new }
{
    let _by_slot = tables.by_slot(TableId::P);
    follow(index, step.change(), tables);
    tables.make(step);
}

// Follows a change of tables in their index, where there is one, before it is made in the tables.
fn follow(index: &mut Option<Index>, change: &Change, tables: &Tables)
    requires index { AreIndexed index.old (slots tables.now P) }
    requires ready { (changes : List Change) × CanIndex (change.now ∷ changes) index.old }
    requires possible { is_possible change.now tables.now.policy ≡ true }
    ensures key { key_of index.new ≡ key_of index.old }
    ensures index { AreIndexed index.new (slots_behind change.now (slots tables.now P)) }
    ensures ready { (changes : List Change)
        → CanIndex (change.now ∷ changes) index.old → CanIndex changes index.new }
{
    let Some(index) = index else {
        return;
    };
    index.follow(change, tables);
}

// Lets go of what no row is found by any more.
fn forget_emptied(index: &mut Option<Index>)
    ensures key { key_of index.new ≡ key_of index.old }
    ensures stays { (by_slot : List Fields)
        → AreIndexed index.old by_slot → AreIndexed index.new by_slot }
{
    if let Some(index) = index {
        index.forget_emptied();
    }
}
