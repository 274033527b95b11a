ghost use Rattle.std.specs.Prelude.{◌≡◌, ◌∷◌, [], IfSome, MatchOption, false, map};
ghost use Rattle.answer_lines.specs.LineText.{line_text};
ghost use Rattle.desk_session.specs.Steps.{is_request};
ghost use Rattle.script_read.specs.Said.{seen};
ghost use Rattle.enforce_core.specs.Called.{CallsAt, PublishesAt, are_one, is_refused};
ghost use Rattle.enforce_core.specs.Helps.Items.{DoesItem};

use crate::stops::{CallStop, Called};
use answer_lines::{Answer, Line, print_line};
use desk_session::{answer_other, asked_in};
use outside::Text;
use policy_desk::Desk;
use script_read::{Item, Script, read_script};
use std::alloc::Global;

/// Does the one item that a text says, at a desk.
pub(crate) fn call_at(alloc: Global, desk: &mut Desk, text: &[u8]) -> Result<Called, CallStop>
    ensures ends { CallsAt desk.old desk.new text.now result }
    ensures shapes { desk.new.state.shapes ≡ desk.old.state.shapes }
{
    let script = read_script(alloc, text, false)?;
    let Some(item) = only_item(&script) else {
        return Err(CallStop::NoItem);
    };
    do_item(alloc, desk, item)
}

// The one item of a script, where it is no request.
fn only_item(script: &Script) -> Option<&Item>
    ensures { MatchOption result (are_one (map seen script.now) ≡ false)
        (λ item. (script.now ≡ item.now ∷ []) × (is_request (seen item.now) ≡ false)) }
{
    let Some((item, others)) = script.as_slice().split_first() else {
        return None;
    };
    if !others.is_empty() {
        return None;
    }
    let None = asked_in(item) else {
        return None;
    };
    Some(item)
}

// Does an item that is no request, and tells it.
fn do_item(alloc: Global, desk: &mut Desk, item: &Item) -> Result<Called, CallStop>
    requires other { is_request (seen item.now) ≡ false }
    ensures does { DoesItem (seen item.now) desk.old desk.new result }
    ensures shapes { desk.new.state.shapes ≡ desk.old.state.shapes }
{
    let answer = answer_other(&(), alloc, desk, item)?;
    let refused = is_refused(&answer);
    let Some(line) = line_of(alloc, answer) else {
        return Err(CallStop::Untold);
    };
    Ok(Called { refused, line })
}

// Whether an answer is a refusal.
fn is_refused(answer: &Answer) -> bool
    ensures { result ≡ is_refused answer.now }
{
    match answer {
        Answer::Arity { .. } | Answer::Request(_) | Answer::Call(_) | Answer::Query(_) => true,
        Answer::Decided { .. }
        | Answer::Truth(_)
        | Answer::Published(_)
        | Answer::Synced(_)
        | Answer::Has { .. }
        | Answer::Rows { .. }
        | Answer::Roles { .. }
        | Answer::Users { .. }
        | Answer::Kept(_)
        | Answer::Recorded { .. } => false,
    }
}

// The line that tells an answer, where memory lasts. What no item of a script is answered has none.
fn line_of(alloc: Global, reply: Answer) -> Option<Text>
    ensures { IfSome result (λ line.
        line ≡ line_text (record { number = 1; answer = reply })) }
{
    if !reply.is_printable() {
        return None;
    }
    let line = Line {
        number: 1,
        answer: reply,
    };
    let Ok(text) = print_line(alloc, &line) else {
        return None;
    };
    Some(text)
}

/// Publishes the pending edits of a desk, and says the new version.
pub(crate) fn publish_at(alloc: Global, desk: &mut Desk) -> Result<u32, CallStop>
    ensures ends { PublishesAt desk.old desk.new result }
    ensures shapes { desk.new.state.shapes ≡ desk.old.state.shapes }
{
    let version = desk.publish(alloc)?;
    Ok(version)
}
