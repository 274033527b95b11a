//! Publishes that are tried again where they fail: at a desk, and by an administrator beside a seat that enters often.

use crate::desks::{desk, program};
use crate::entries::{look, wander};
use crate::trial::{Trial, tried};
use edit_calls::Call;
use live_pair::{Admin, Naming, Seat};
use outside::{NoMemory, Text};
use perm_base::{Rule, TableId};
use policy_desk::Editor;
use std::alloc::Global;
use std::process::Abort;
use std::sync::Wait;
use std::test::Fail;
use std::thread::{Threads, join};

// How often the seat enters.
const ENTRIES: u64 = 1000;

// How many publishes there are.
const PUBLISHES: u64 = 12;

#[test]
fn refused_publish_is_tried_again(rt: HostRuntime) -> Result<(), Fail> {
    tried(&rt, rt.alloc(), Trial::Published)
}

#[test]
fn refused_publish_at_a_desk_is_tried_again(rt: HostRuntime) -> Result<(), Fail> {
    desk_publishes_again(&rt, rt.alloc())
}

// Each publish at a desk is made in the end, and each of their rules stands then. One allocation may be refused.
fn desk_publishes_again<R: Abort>(rt: &R, alloc: Global) -> Result<(), Fail> {
    let (_program, shapes) = program(alloc)?;
    let mut desk = desk(alloc, shapes)?;
    let failed = publishes(rt, alloc, &mut desk);
    assert!(rt; failed <= 1);
    assert_eq!(rt; desk.state().version(), 12);
    assert_eq!(rt; desk.state().tables().len(TableId::P), 12);
    Ok(())
}

// No entry beside the publishes is wrong, each publish is made in the end, and a seat that learned of them enters the last one.
// One allocation may be refused.
pub(crate) fn publishes_again<J: Naming + Send + Sync, R: Threads + Wait + Abort + Sync>(
    rt: &R,
    alloc: Global,
    admin: &mut Admin<J>,
    seat: Seat<J>,
) -> Result<(), Fail> {
    let ((seat, wrong), failed) = join(
        rt,
        move || wander(seat, ENTRIES),
        || publishes(rt, alloc, admin),
    );
    assert_eq!(rt; wrong, 0);
    assert!(rt; failed <= 1);
    let mut seat = seat;
    seat.learn(&admin.front());
    let (_seat, seen) = look(seat);
    assert_eq!(rt; seen, Some(12));
    Ok(())
}

// Publishes one rule after the other, lets the edits before go, and says how often a call or a publish failed.
fn publishes<R, E: Editor<R>>(rt: &R, alloc: Global, editor: &mut E) -> u64 {
    editor.keep(0);
    let mut failed = 0u64;
    for number in 0..PUBLISHES {
        failed = failed.saturating_add(publish_at_last(rt, alloc, editor, number));
    }
    failed
}

/// Tries to add the rule with this number and to publish it, each at most three times, and says how often that failed.
pub(crate) fn publish_at_last<R, E: Editor<R>>(
    rt: &R,
    alloc: Global,
    editor: &mut E,
    number: u64,
) -> u64 {
    let failed = add_at_last::<R, E>(alloc, editor, number);
    for attempt in 0..3u64 {
        if editor.publish(rt, alloc).is_ok() {
            return failed.saturating_add(attempt);
        }
    }
    failed.saturating_add(3)
}

// Tries to add the rule with this number, at most three times, and says how often that failed.
fn add_at_last<R, E: Editor<R>>(alloc: Global, editor: &mut E, number: u64) -> u64 {
    for attempt in 0..3u64 {
        if adds::<R, E>(alloc, editor, number) {
            return attempt;
        }
    }
    3
}

fn adds<R, E: Editor<R>>(alloc: Global, editor: &mut E, number: u64) -> bool {
    let Ok(rule) = numbered(alloc, number) else {
        return false;
    };
    let table = TableId::P;
    editor.call(alloc, &Call::Add { table, rule }).is_ok()
}

// The rule that the user with this number may read data1.
fn numbered(alloc: Global, number: u64) -> Result<Rule, NoMemory> {
    let user = format!(in alloc; "user{number}")?;
    let fields = vec![in alloc;
        Text::from_str(alloc, user.as_str())?,
        Text::from_str(alloc, "data1")?,
        Text::from_str(alloc, "read")?,
    ]?;
    let Ok(rule) = Rule::from_fields(fields) else {
        return Err(NoMemory);
    };
    Ok(rule)
}
