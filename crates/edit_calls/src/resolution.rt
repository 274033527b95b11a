ghost use Rattle.std.specs.Prelude.{◌≡◌, IfOk, IfSome, MatchResult, Ok, true};
ghost use Rattle.perm_base.specs.Shapes.{AreValid};
ghost use Rattle.policy_table.specs.Changes.{applies, edited};
ghost use Rattle.policy_table.specs.Limits.{AreSound};
ghost use Rattle.edit_calls.specs.Answers.{answer};
ghost use Rattle.edit_calls.specs.Found.{AreKnown};
ghost use Rattle.edit_calls.specs.Told.{IsTold};

use crate::call::Call;
use crate::edits::edit_by;
use crate::known::Known;
use crate::laws::{edits_keep_shapes, edits_keep_sound};
use crate::refusals::refusal;
use crate::refused::CallRefused;
use perm_base::Shapes;
use policy_table::{Edit, Tables};
use std::alloc::Global;

/// What a management call changes in these tables: the edit, or none where it changes nothing (Casbin, policy and role
/// management API). The tables stay as they are. It goes over a table for rules that a filter or a name asks for, unless the places
/// of these are known; else its time grows with what the call says and changes, and with the logarithm of the table.
pub fn resolve(
    alloc: Global,
    call: &Call,
    tables: &Tables,
    shapes: &Shapes,
    known: &Known,
) -> Result<Option<Edit>, CallRefused>
    requires valid { AreValid shapes.now }
    requires sound { AreSound shapes.now tables.now.policy }
    requires known { AreKnown shapes.now tables.now.policy known.now call.now }
    ensures answered { MatchResult result
        (λ edit. answer shapes.now tables.now.policy call.now ≡ Ok edit)
        (IsTold (answer shapes.now tables.now.policy call.now)) }
    ensures applies { IfOk result (λ found. IfSome found (λ edit.
        applies edit tables.now.policy ≡ true)) }
    ensures sound { IfOk result (λ found. IfSome found (λ edit.
        AreSound shapes.now (edited edit tables.now.policy))) }
{
    edits_keep_shapes();
    edits_keep_sound();
    if let Some(refused) = refusal(call, shapes) {
        return Err(refused);
    }
    tables.kept();
    let Some(edit) = edit_by(alloc, call, tables, shapes, known)? else {
        return Ok(None);
    };
    match tables.passed_after(alloc, &edit, shapes)? {
        Some(what) => Err(CallRefused::Full { what }),
        None => Ok(Some(edit)),
    }
}
