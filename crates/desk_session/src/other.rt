ghost use Rattle.std.specs.Prelude.{◌≡◌, IfOk, OnErr, OnOk, false};
ghost use Rattle.desk_session.specs.Steps.{IsPlainStep, IsStopped, LeavesBeside, is_request};
ghost use Rattle.script_read.specs.Said.{seen};

use crate::calls::{answer_call, answer_keep, answer_publish};
use crate::queries::{
    answer_has, answer_history, answer_roles, answer_rows, answer_sync, answer_users,
};
use answer_lines::Answer;
use outside::NoMemory;
use policy_desk::Editor;
use script_read::Item;
use std::alloc::Global;

/// Answers an item of a script that is no request, and does what it says: queries are answered by the published policy, and calls
/// by the drafts (Casbin, management API). Refused is want of memory alone: then nothing is done, but that a publish may have
/// raised the version before which edits may be let go. By `R` a publish may wait.
pub fn answer_other<R, E: Editor<R>>(
    rt: &R,
    alloc: Global,
    editor: &mut E,
    item: &Item,
) -> Result<Answer, NoMemory>
    requires other { is_request (seen item.now) ≡ false }
    ensures step { IfOk result
        (IsPlainStep (seen item.now) (E.work editor.old) (E.work editor.new)) }
    ensures shapes { (E.work editor.new).state.shapes ≡ (E.work editor.old).state.shapes }
    ensures stopped { OnErr result (IsStopped (E.work editor.old) (E.work editor.new)) }
    ensures beside { OnOk result (LeavesBeside
        (E.stays editor.old editor.new) (E.grows editor.old editor.new) (seen item.now)) }
    ensures stays { OnErr result (E.stays editor.old editor.new) }
{
    match item {
        Item::Ask(_) => unreachable!(),
        Item::Edit(call) => answer_call::<R, E>(alloc, editor, call),
        Item::Publish => answer_publish(rt, alloc, editor),
        Item::Keep(count) => Ok(answer_keep::<R, E>(editor, *count)),
        Item::Sync => Ok(answer_sync(editor.desk())),
        Item::Has { table, rule } => answer_has(editor.desk(), *table, rule),
        Item::Rows { table, at, values } => {
            answer_rows(alloc, editor.desk(), *table, *at, values)
        }
        Item::Roles {
            relation,
            name,
            domain,
        } => answer_roles(alloc, editor.desk(), *relation, name, domain),
        Item::Users {
            relation,
            name,
            domain,
        } => answer_users::<R, E>(alloc, editor, *relation, name, domain),
        Item::History(number) => answer_history(alloc, editor.desk(), *number),
    }
}
