ghost use Rattle.std.specs.Prelude.{◌≡◌};
ghost use Rattle.casbin_c.specs.Codes.{code_of_ask, code_of_ask_stop, no_request};
ghost use Rattle.casbin_c.specs.Decisions.{cause_number, decision_of, decision_with};
ghost use Rattle.casbin_c.specs.Decisions.{fault_decision, none_asked, stop_decision};
ghost use Rattle.casbin_c.specs.Decisions.{verdict_decision};

use crate::codes::{NO_MEMORY, NO_REQUEST, OK};
use effect_fold::{Cause, Fault, Verdict};
use enforce_core::{AskStop, Decided};
use perm_value::RequestFault;

/// What a request was answered, as C reads it.
#[repr(C)]
#[derive(Clone, Copy)]
pub struct Decision {
    /// 0 is deny, 1 allow, 2 a fault of the evaluation, and 3 no request.
    pub kind: u32,
    /// The version of the policy by which it was judged.
    pub version: u32,
    /// The rule of p that decided, or at which the evaluation failed, counted from 1; 0 where there is none.
    pub row: u32,
    /// Why the evaluation failed, or why there is no request; 0 without a fault.
    pub cause: u32,
    /// Where: the byte of the matcher, the column of the line, or the number of the text, counted from 1.
    pub at: u32,
}

/// Tells what a request was answered, and gives its code.
pub(crate) fn tell(answered: Result<Decided, AskStop>, decision: &mut Decision) -> u32
    ensures code { result ≡ code_of_ask answered }
    ensures told { decision.new ≡ decision_of decision.old answered }
{
    match answered {
        Ok(decided) => {
            *decision = verdict_decision(decided.version, decided.verdict);
            OK
        }
        Err(stop) => tell_stop(stop, decision),
    }
}

// Tells why a request was not judged; want of memory by its code alone.
fn tell_stop(stop: AskStop, decision: &mut Decision) -> u32
    ensures code { result ≡ code_of_ask_stop stop }
    ensures told { decision.new ≡ stop_decision decision.old stop }
{
    match stop {
        AskStop::Ends => refuse(decision, 1, 0),
        AskStop::NotUtf8 { field } => refuse(decision, 2, field),
        AskStop::Request(fault) => refuse_line(fault, decision),
        AskStop::Arity { got, .. } => refuse(decision, 9, got),
        AskStop::NoMemory => NO_MEMORY,
    }
}

// Tells why a line is no request.
fn refuse_line(fault: RequestFault, decision: &mut Decision) -> u32
    ensures code { result ≡ no_request }
    ensures told { decision.new ≡ fault_decision fault }
{
    match fault {
        RequestFault::Quote { column } => refuse(decision, 3, column),
        RequestFault::TooMany => refuse(decision, 4, 0),
        RequestFault::Syntax => refuse(decision, 5, 0),
        RequestFault::NotAnArray => refuse(decision, 6, 0),
        RequestFault::TooDeep { field } => refuse(decision, 7, field),
        RequestFault::NotWhole { field } => refuse(decision, 8, field),
        RequestFault::NoMemory => refuse(decision, 0, 0),
    }
}

// Tells that there is no request.
fn refuse(decision: &mut Decision, cause: u32, at: u32) -> u32
    ensures code { result ≡ no_request }
    ensures told { decision.new ≡ none_asked cause at }
{
    *decision = Decision {
        kind: 3,
        version: 0,
        row: 0,
        cause,
        at,
    };
    NO_REQUEST
}

// The decision of a verdict.
fn verdict_decision(version: u32, verdict: Verdict) -> Decision
    ensures { result ≡ verdict_decision version verdict }
{
    match verdict {
        Verdict::Deny(row) => judged(0, version, row),
        Verdict::Allow(row) => judged(1, version, row),
        Verdict::Fault { row, fault } => failed(version, row, fault),
    }
}

// One without a fault.
fn judged(kind: u32, version: u32, row: Option<u32>) -> Decision
    ensures { result ≡ decision_with kind version row 0 0 }
{
    Decision {
        kind,
        version,
        row: row.unwrap_or(0),
        cause: 0,
        at: 0,
    }
}

// One with the fault of the evaluation.
fn failed(version: u32, row: Option<u32>, fault: Fault) -> Decision
    ensures { result ≡ decision_with 2 version row (cause_number fault.cause) fault.at }
{
    Decision {
        kind: 2,
        version,
        row: row.unwrap_or(0),
        cause: cause_number(fault.cause),
        at: fault.at,
    }
}

// The number of the cause of a failed evaluation.
fn cause_number(cause: Cause) -> u32
    ensures { result ≡ cause_number cause }
{
    match cause {
        Cause::Kind => 1,
        Cause::NoAttribute => 2,
        Cause::Overflow => 3,
        Cause::ZeroDivisor => 4,
        Cause::BadAddress => 5,
        Cause::BadBlock => 6,
        Cause::Pattern => 7,
        Cause::RuleText => 8,
    }
}
