ghost use Rattle.std.specs.Prelude.{◌≡◌, ◌++◌, ◌∷◌, [], IfOk, List, OnErr, OnOk, false};
ghost use Rattle.answer_lines.specs.Printed.{printed_answer};
ghost use Rattle.live_rounds.specs.Administrators.{IsAdminAmid, IsAdminBehind, IsAdminStep, IsAdminStopped};
ghost use Rattle.desk_session.specs.Steps.{is_request};
ghost use Rattle.live_rounds.specs.Helps.Turns.{AreOthersDone, ArePassedOver, IsTurnDone, IsTurnStopped, is_built_asked};
ghost use Rattle.script_read.specs.ItemLines.{IsBuiltAs, said};
ghost use Rattle.script_read.specs.Said.{Said, seen};

use crate::gate::Gate;
use answer_lines::WaitingAnswers;
use desk_session::{Answer, answer_other};
use live_pair::{Admin, Naming};
use outside::NoMemory;
use script_read::{BuiltItem, Item, ItemLines};
use std::alloc::Global;
use std::sync::Wait;

/// What is answered to those items of a round that are no requests, and of each of its items whether it is a request.
#[derive(Drop)]
pub(crate) struct OthersDone {
    pub replies: WaitingAnswers,
    pub kinds: Vec<bool>,
}

/// Answers and does those items of a round that are no requests, in their order, at the pair's administrator. So many items stand
/// before the round, by which the numbers of its lines are expected.
pub(crate) fn answer_others<J: Naming, R: Wait, G: Gate>(
    rt: &R,
    alloc: Global,
    items: &ItemLines<'_>,
    before: u32,
    gate: &G,
    admin: &mut Admin<J>,
) -> Result<OthersDone, NoMemory>
    ensures done { IfOk result (AreOthersDone J.shapes J.opening (said items.now)
        admin.old admin.new) }
    ensures stopped { OnErr result ((before : List Said)
        → IsAdminBehind J.shapes J.opening before admin.old
        → IsAdminAmid J.shapes J.opening before (said items.now) admin.new) }
{
    let mut kinds = Vec::new(alloc);
    let mut replies = WaitingAnswers::new(alloc);
    let mut left = items.again();
    pass_requests(&mut left, &mut kinds)?;
    while let Some(built) = left.next_built(alloc)? {
        let asks = is_built_asked(&built);
        let number = number_behind(before, kinds.len());
        answer_built(rt, alloc, built, number, gate, admin, &mut replies)?;
        kinds.push(asks)?;
        pass_requests(&mut left, &mut kinds)?;
    }
    Ok(OthersDone { replies, kinds })
}

// Passes over the requests that stand first, as far as they are told by how their lines begin, and puts their kinds behind others.
fn pass_requests(left: &mut ItemLines<'_>, kinds: &mut Vec<bool>) -> Result<(), NoMemory>
    ensures { OnOk result (ArePassedOver (said left.old) (said left.new)
        kinds.old.items kinds.new.items) }
{
    let before = kinds.len();
    let count = left.pass_asked(usize::MAX - before);
    kinds.resize(before + count, true)?;
    Ok(())
}

// The number of the item behind so many of the script and so many of the round, as far as numbers go.
fn number_behind(before: u32, count: usize) -> u32 {
    let count = u32::try_from(count).unwrap_or(u32::MAX);
    before.saturating_add(count).saturating_add(1)
}

// Whether an item is a request.
fn is_built_asked(built: &BuiltItem<'_>) -> bool
    ensures { result ≡ is_built_asked built.now }
{
    matches!(built, BuiltItem::Request(_))
}

// Answers and does an item that is no request, and puts its reply in behind others, whose line has most likely this number; nothing for
// one that is.
fn answer_built<J: Naming, R: Wait, G: Gate>(
    rt: &R,
    alloc: Global,
    built: BuiltItem<'_>,
    number: u32,
    gate: &G,
    admin: &mut Admin<J>,
    replies: &mut WaitingAnswers,
) -> Result<(), NoMemory>
    requires kind { (item : Said) × IsBuiltAs built item }
    ensures done { OnOk result ((item : Said) → IsBuiltAs built.entry item
        → IsTurnDone item admin.old admin.new replies.old replies.new) }
    ensures stopped { OnErr result ((item : Said) → IsBuiltAs built.entry item
        → IsTurnStopped item admin.old admin.new) }
{
    let BuiltItem::Other(item) = built else {
        return Ok(());
    };
    replies.expect(number);
    let done = answer_item(rt, alloc, &item, gate, admin, replies);
    drop(item);
    done
}

// The same for an item that is no request.
fn answer_item<J: Naming, R: Wait, G: Gate>(
    rt: &R,
    alloc: Global,
    item: &Item,
    gate: &G,
    admin: &mut Admin<J>,
    replies: &mut WaitingAnswers,
) -> Result<(), NoMemory>
    requires other { is_request (seen item.now) ≡ false }
    ensures done { OnOk result (IsTurnDone (seen item.now) admin.old admin.new
        replies.old replies.new) }
    ensures stopped { OnErr result (IsTurnStopped (seen item.now) admin.old admin.new) }
{
    let reply = answer_at(rt, alloc, admin, item, gate)?;
    let told = push_told(&reply, replies);
    drop(reply);
    told
}

// Puts a reply in behind others. The items of a script that was read name tables that have names, so that all answers can be printed.
fn push_told(reply: &Answer, replies: &mut WaitingAnswers) -> Result<(), NoMemory>
    ensures pushed { OnOk result (replies.new ≡ replies.old ++ printed_answer reply.now ∷ []) }
{
    if !reply.is_printable() {
        return Err(NoMemory);
    }
    replies.push_answer(reply)
}

// Answers an item that is no request, and does what it says.
fn answer_at<J: Naming, R: Wait, G: Gate>(
    rt: &R,
    alloc: Global,
    admin: &mut Admin<J>,
    item: &Item,
    gate: &G,
) -> Result<Answer, NoMemory>
    requires other { is_request (seen item.now) ≡ false }
    ensures step { IfOk result (IsAdminStep (seen item.now) admin.old admin.new) }
    ensures stopped { OnErr result (IsAdminStopped admin.old admin.new) }
{
    let reply = answer_other(rt, alloc, admin, item)?;
    tell(gate, &reply);
    Ok(reply)
}

// Tells the gate of a publish.
fn tell<G: Gate>(gate: &G, reply: &Answer) {
    if let Answer::Published(version) = reply {
        gate.published(*version);
    }
}
