ghost use Rattle.std.specs.Prelude.{◌≡◌, ◌+◌, ◌≤◌, ◌++◌, OnErr, OnOk, length, option_copied, true};
ghost use Rattle.answer_lines.specs.LineText.{Appends, IsKept, cause_text, fault_text, place_text, verdict_text};
ghost use Rattle.answer_lines.specs.Helps.Heads.{failed_text, head_text, judged_text};
ghost use Rattle.answer_lines.specs.Told.{comes_with_rule, row_has_rule};

use crate::front::Front;
use crate::pieces::{push_at, push_text};
use effect_fold::{Cause, Fault, Verdict};
use outside::NoMemory;
use perm_base::{Rule, push_fields};

/// Appends a front and a verdict.
#[inline(always)]
pub(crate) fn push_verdict(
    text: &mut String,
    front: &mut Front,
    version: u32,
    verdict: Verdict,
    rule: Option<&Rule>,
) -> Result<(), NoMemory>
    requires front { length front.old ≤ 11 }
    requires rule { comes_with_rule verdict (option_copied rule) ≡ true }
    ensures appended { OnOk result (Appends text.old text.new
        (front.old ++ verdict_text version verdict (option_copied rule.entry))) }
    ensures kept { OnErr result (IsKept text.old text.new) }
{
    match verdict {
        Verdict::Allow(row) => push_judged(text, front, "allow @", version, row, rule),
        Verdict::Deny(row) => push_judged(text, front, "deny @", version, row, rule),
        Verdict::Fault { row, fault } => push_failed(text, front, version, row, fault),
    }
}

/// Appends a verdict without a front.
pub(crate) fn push_verdict_alone(
    text: &mut String,
    version: u32,
    verdict: Verdict,
    rule: Option<&Rule>,
) -> Result<(), NoMemory>
    requires { comes_with_rule verdict (option_copied rule) ≡ true }
    ensures appended { OnOk result (Appends text.old text.new
        (verdict_text version verdict (option_copied rule.entry))) }
    ensures kept { OnErr result (IsKept text.old text.new) }
{
    let mut front = Front::new();
    push_verdict(text, &mut front, version, verdict, rule)
}

// Appends a front, a word, a version, and the place of a row with its rule, or that there is none.
#[inline(always)]
fn push_judged(
    text: &mut String,
    front: &mut Front,
    word: &str,
    version: u32,
    row: Option<u32>,
    rule: Option<&Rule>,
) -> Result<(), NoMemory>
    requires front { length front.old ≤ 11 }
    requires word { length word.now ≤ 8 }
    requires rule { row_has_rule row (option_copied rule) ≡ true }
    ensures appended { OnOk result (Appends text.old text.new
        (front.old ++ judged_text word.now version row (option_copied rule.entry))) }
    ensures kept { OnErr result (IsKept text.old text.new) }
{
    push_head(front, word, version, row);
    if row.is_none() {
        return push_text(text, front.as_str());
    }
    let Some(rule) = rule else { unreachable!() };
    front.push(" ");
    text.push_str(front.as_str())?;
    push_fields(text, rule)
}

// Appends a front and a failed evaluation.
fn push_failed(
    text: &mut String,
    front: &mut Front,
    version: u32,
    row: Option<u32>,
    fault: Fault,
) -> Result<(), NoMemory>
    requires { length front.old ≤ 11 }
    ensures appended { OnOk result (Appends text.old text.new
        (front.old ++ failed_text version row fault)) }
    ensures kept { OnErr result (IsKept text.old text.new) }
{
    push_head(front, "fault @", version, row);
    front.push(" ");
    text.push_str(front.as_str())?;
    push_fault(text, fault)
}

// Puts a word, a version, and the place of a row or that there is none behind a front.
fn push_head(front: &mut Front, word: &str, version: u32, row: Option<u32>)
    requires front { length front.old ≤ 11 }
    requires word { length word.now ≤ 8 }
    ensures text { front.new ≡ front.old ++ head_text word.now version row }
    ensures few { length front.new ≤ 43 }
{
    front.push(word);
    front.push_number(version);
    front.push(" ");
    push_place(front, row);
}

// Appends the place of a row, or that there is none.
fn push_place(head: &mut Front, row: Option<u32>)
    requires { length head.old ≤ 30 }
    ensures text { head.new ≡ head.old ++ place_text row }
    ensures few { length head.new ≤ length head.old + 12 }
{
    match row {
        None => head.push("-"),
        Some(row) => {
            head.push("p#");
            head.push_number(row);
        }
    }
}

// Appends a fault and where it stands.
fn push_fault(text: &mut String, fault: Fault) -> Result<(), NoMemory>
    ensures appended { OnOk result (Appends text.old text.new (fault_text fault)) }
    ensures kept { OnErr result (IsKept text.old text.new) }
{
    text.push_str(cause_text(fault.cause))?;
    push_at(text, " at ", fault.at)
}

fn cause_text(cause: Cause) -> &'static str
    ensures { result.now ≡ cause_text cause }
{
    match cause {
        Cause::Kind => "kind",
        Cause::NoAttribute => "no-attribute",
        Cause::Overflow => "overflow",
        Cause::ZeroDivisor => "zero-divisor",
        Cause::BadAddress => "bad-address",
        Cause::BadBlock => "bad-block",
        Cause::Pattern => "pattern",
        Cause::RuleText => "rule-text",
    }
}
