ghost use Rattle.std.specs.Prelude.{◌≡◌, ◌≢◌, IfOk, OnErr, OnOk};
ghost use Rattle.answer_lines.specs.declared.answer.Answer.TheVariants as answer;
ghost use Rattle.edit_calls.specs.declared.refused.CallRefused.TheVariants as call;
ghost use Rattle.script_read.specs.Said.{edits, keeps, publishes};
ghost use Rattle.desk_session.specs.Steps.{IsPlainStep, IsStopped};

use answer_lines::Answer;
use edit_calls::{Call, CallRefused};
use outside::NoMemory;
use policy_desk::Editor;
use std::alloc::Global;

/// Makes a call in the drafts.
pub(crate) fn answer_call<R, E: Editor<R>>(
    alloc: Global,
    editor: &mut E,
    call: &Call,
) -> Result<Answer, NoMemory>
    ensures step { IfOk result
        (IsPlainStep (edits call.now) (E.work editor.old) (E.work editor.new)) }
    ensures shapes { (E.work editor.new).state.shapes ≡ (E.work editor.old).state.shapes }
    ensures stopped { OnErr result (IsStopped (E.work editor.old) (E.work editor.new)) }
    ensures stays { E.stays editor.old editor.new }
{
    editor.desk().holds();
    match editor.call(alloc, call) {
        Ok(changed) => Ok(Answer::Truth(changed)),
        Err(refused) => told(refused),
    }
}

/// Publishes the pending edits.
pub(crate) fn answer_publish<R, E: Editor<R>>(
    rt: &R,
    alloc: Global,
    editor: &mut E,
) -> Result<Answer, NoMemory>
    ensures step { IfOk result
        (IsPlainStep publishes (E.work editor.old) (E.work editor.new)) }
    ensures shapes { (E.work editor.new).state.shapes ≡ (E.work editor.old).state.shapes }
    ensures stopped { OnErr result (IsStopped (E.work editor.old) (E.work editor.new)) }
    ensures grows { OnOk result (E.grows editor.old editor.new) }
    ensures stays { OnErr result (E.stays editor.old editor.new) }
{
    let version = editor.publish(rt, alloc)?;
    Ok(Answer::Published(version))
}

/// Says how many edits are to be kept from now on.
pub(crate) fn answer_keep<R, E: Editor<R>>(editor: &mut E, count: u32) -> Answer
    ensures step { IsPlainStep (keeps count) (E.work editor.old) (E.work editor.new) result }
    ensures shapes { (E.work editor.new).state.shapes ≡ (E.work editor.old).state.shapes }
    ensures stays { E.stays editor.old editor.new }
{
    editor.keep(count);
    Answer::Kept(count)
}

// Why a call is refused, as its answer; want of memory is handed on.
fn told(refused: CallRefused) -> Result<Answer, NoMemory>
    ensures { IfOk result (λ reply. (reply ≡ answer.Call refused)
        × (refused ≢ call.NoMemory)) }
{
    match refused {
        CallRefused::NoMemory => Err(NoMemory),
        CallRefused::NoTable { .. }
        | CallRefused::Columns { .. }
        | CallRefused::FilterPlace
        | CallRefused::EmptyFilter
        | CallRefused::FieldTooLong
        | CallRefused::Full { .. } => Ok(Answer::Call(refused)),
    }
}
