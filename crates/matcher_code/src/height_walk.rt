ghost use Rattle.std.specs.Prelude.{◌≡◌, ◌+◌, ◌<◌, ◌≤◌, ◌^◌, IfErr, IfNone, IfOk, IfSome, Some, length, slice_get};
ghost use Rattle.matcher_code.specs.Rules.{IsFirstBreak, IsVerified, KeepsRules, greatest_height, height_at, jump};
ghost use Rattle.matcher_code.specs.Helps.Checks.{IsKnown, IsWalked, clash_with, earlier_of};

use crate::heights::{height_behind, height_landing, jump, names_rightly};
use crate::op::Op;
use crate::verification::Unverified;

/// How many values are left behind the last instruction.
const VALUES_AT_END: u32 = 1;

/// A place, and the height there by going on to it; none where operands lack before it.
#[derive(Clone, Copy)]
pub(crate) struct Known {
    place: usize,
    height: Option<u32>,
}

/// What is known on the way along the code: the height at a place, the greatest so far, the first place that is reached
/// with two heights, of those that jumps were seen to come to, and the height at the last of them.
#[derive(Clone, Copy)]
pub(crate) struct Walk {
    height: u32,
    greatest: u32,
    clash: Option<usize>,
    known: Known,
}

/// The greatest height of instructions that keep the rules, or the first place that breaks one. Each jump is followed
/// once, but for jumps one after another that come to one place. It takes no memory.
pub(crate) fn checked_height(
    ops: &[Op],
    columns: u32,
    policy_columns: u32,
) -> Result<u32, Unverified>
    requires { length ops.now < 2 ^ 32 }
    ensures verified { IfOk result (λ _. IsVerified ops.now columns policy_columns) }
    ensures height { IfOk result (λ greatest. greatest ≡ greatest_height ops.now) }
    ensures first { IfErr result
        (λ unverified. IsFirstBreak ops.now columns policy_columns unverified.at) }
{
    let mut walk = Walk {
        height: 0,
        greatest: 0,
        clash: None,
        known: Known {
            place: 0,
            height: Some(0),
        },
    };
    for (at, op) in ops.iter().enumerate() {
        let Some(next) = walked_past(ops, columns, policy_columns, at, op, walk) else {
            return Err(Unverified { at: at as u32 });
        };
        walk = next;
    }
    if walk.clash == Some(ops.len()) || walk.height != VALUES_AT_END {
        return Err(Unverified {
            at: ops.len() as u32,
        });
    }
    Ok(walk.greatest)
}

// On past a place, or none where it breaks a rule.
fn walked_past(
    ops: &[Op],
    columns: u32,
    policy_columns: u32,
    at: usize,
    op: &Op,
    walk: Walk,
) -> Option<Walk>
    requires few { length ops.now < 2 ^ 32 }
    requires there { slice_get ops.now at ≡ Some op.now }
    requires walked { IsWalked ops.now columns policy_columns at walk }
    ensures next { IfSome result (IsWalked ops.now columns policy_columns (at + 1)) }
    ensures broken { IfNone result (¬ (KeepsRules ops.now columns policy_columns at)) }
{
    if walk.clash == Some(at) {
        return None;
    }
    let size = ops.len() as u32;
    if !names_rightly(columns, policy_columns, at as u32, size, &op.instruction) {
        return None;
    }
    let Some(height) = height_behind(&op.instruction, walk.height) else {
        return None;
    };
    let greatest = walk.greatest.max(height);
    let Some(to) = jump(&op.instruction) else {
        return Some(Walk {
            height,
            greatest,
            ..walk
        });
    };
    let known = known_at(ops, at, to as usize, walk.height, walk.known);
    let landing = height_landing(&op.instruction, walk.height);
    Some(Walk {
        height,
        greatest,
        clash: clash_with(walk.clash, known, landing),
        known,
    })
}

// The height at a place: it is known, or is found by going on to it.
fn known_at(ops: &[Op], at: usize, to: usize, height: u32, known: Known) -> Known
    requires few { length ops.now < 2 ^ 32 }
    requires behind { at ≤ to }
    requires within { to ≤ length ops.now }
    requires height { height_at ops.now at ≡ Some height }
    requires known { IsKnown ops.now known }
    ensures place { result.place ≡ to }
    ensures known { IsKnown ops.now result }
{
    if known.place == to {
        return known;
    }
    Known {
        place: to,
        height: height_on(ops, at, to, height),
    }
}

// The height at a place by going on to it from an earlier one.
fn height_on(ops: &[Op], from: usize, to: usize, height: u32) -> Option<u32>
    requires few { length ops.now < 2 ^ 32 }
    requires behind { from ≤ to }
    requires within { to ≤ length ops.now }
    requires height { height_at ops.now from ≡ Some height }
    ensures { result ≡ height_at ops.now to }
{
    let mut reached = height;
    for at in from..to {
        let Some(next) = height_behind(&ops[at].instruction, reached) else {
            return None;
        };
        reached = next;
    }
    Some(reached)
}

// The first place that is reached with two heights, where a jump comes to this one with another height, too.
fn clash_with(clash: Option<usize>, known: Known, landing: u32) -> Option<usize>
    ensures { result ≡ clash_with clash known.place known.height landing }
{
    match known.height {
        Some(reached) if reached != landing => Some(earlier_of(clash, known.place)),
        _ => clash,
    }
}

fn earlier_of(clash: Option<usize>, place: usize) -> usize
    ensures { result ≡ earlier_of clash place }
{
    match clash {
        Some(clash) if clash < place => clash,
        _ => place,
    }
}
