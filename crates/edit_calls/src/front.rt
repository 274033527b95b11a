ghost use Rattle.std.specs.Prelude.{◌≡◌, ◌≤◌, ℕ, IfOk, List, OnErr, Some, false, length, slice_get, take, true};
ghost use Rattle.policy_table.specs.Changes.{edited, replay};
ghost use Rattle.policy_table.specs.Limits.{AreSound};
ghost use Rattle.policy_table.specs.declared.change.Change.{Change};
ghost use Rattle.edit_calls.specs.Admitted.{AreAdmitted, admits};

use crate::admitted::admits;
use outside::NoMemory;
use perm_base::Shapes;
use policy_table::{Edit, Tables};
use std::alloc::Global;

/// Makes edits in tables one after the other, up to the first that these do not admit as they then stand; how many it made:
/// the greatest number such that the first so many are admitted, limits being asked after each. Each edit is looked at once,
/// so the time is that of making them. Where memory runs out some of them are made, each whole.
pub fn make_front(
    alloc: Global,
    edits: &[Edit],
    tables: &mut Tables,
    shapes: &Shapes,
) -> Result<usize, NoMemory>
    requires { AreSound shapes.now tables.old.policy }
    ensures few { IfOk result (λ count. count ≤ length edits.now) }
    // The first so many edits are admitted.
    ensures front { IfOk result (λ count.
        AreAdmitted shapes.now tables.old.policy (take count edits.now)) }
    // No longer front is.
    ensures most { IfOk result (λ count. (other : ℕ) → other ≤ length edits.now
        → AreAdmitted shapes.now tables.old.policy (take other edits.now) → other ≤ count) }
    // Where it ends before the last edit, the next one is not admitted.
    ensures next { IfOk result (λ count. (edit : List Change)
        → slice_get edits.now count ≡ Some edit
        → admits shapes.now (replay (take count edits.now) tables.old.policy) edit ≡ false) }
    ensures made { IfOk result (λ count.
        tables.new.policy ≡ replay (take count edits.now) tables.old.policy) }
    ensures refused { OnErr result ((count : ℕ)
        × AreAdmitted shapes.now tables.old.policy (take count edits.now)
        × (tables.new.policy ≡ replay (take count edits.now) tables.old.policy)) }
    ensures sound { AreSound shapes.now tables.new.policy }
{
    for at in 0..edits.len() {
        if !make_admitted(alloc, tables, &edits[at], shapes)? {
            return Ok(at);
        }
    }
    Ok(edits.len())
}

// Makes an edit in tables, where these admit it; whether it did so.
fn make_admitted(
    alloc: Global,
    tables: &mut Tables,
    edit: &Edit,
    shapes: &Shapes,
) -> Result<bool, NoMemory>
    requires { AreSound shapes.now tables.old.policy }
    ensures admitted { IfOk result (λ made.
        made ≡ admits shapes.now tables.old.policy edit.now) }
    ensures made { IfOk result (λ made. made ≡ true
        → tables.new.policy ≡ edited edit.now tables.old.policy) }
    ensures kept { IfOk result (λ made. made ≡ false
        → tables.new.policy ≡ tables.old.policy) }
    ensures refused { OnErr result (tables.new.policy ≡ tables.old.policy) }
    ensures sound { AreSound shapes.now tables.new.policy }
{
    let edits = std::slice::from_ref(edit);
    if !admits(alloc, edits, tables, shapes)? {
        return Ok(false);
    }
    tables.kept();
    let prepared = tables.prepare(alloc, edits)?;
    tables.commit(prepared);
    Ok(true)
}
