use crate::case::Case;
use crate::code::push_code;
use crate::events::push_events;
use crate::runs::push_runs;
use crate::sure::push_sure;
use crate::truth::push_truth;
use anyhow::Result;
use std::alloc::Global;
use std::sync::Wait;
use std::thread::Threads;

// The fields of a case of a run. Those that end in `-fails` have the numbers of the calls that fail, counted from 1, and those that end
// in `-most` how many bytes a call takes at most.
const KEYS: [&str; 13] = [
    "words",
    "sure",
    "rule",
    "request",
    "shelf-fails",
    "input-fails",
    "input-most",
    "out-fails",
    "out-most",
    "err-fails",
    "err-most",
    "finder-fails",
    "places-fails",
];

const KEYS_OF_TEXTS: [&str; 3] = ["file", "input", "matchers"];

/// Says what a case comes to. Its keys tell what is asked: with `code` instructions are checked, with `run` and `steps` events
/// are done, and with any other the program is run over the files of the case. A case with `matchers` is run for each of these
/// lines, with the line as the matcher at the end of its model; one with `sure` over objects that never fail, and keep nothing.
/// A case with a `request` asks for the truth of its model's matcher alone, with a `rule` or without.
pub(crate) fn push_report<R: Threads + Wait + Sync>(
    rt: &R,
    alloc: Global,
    report: &mut Vec<u8>,
    case: &Case,
) -> Result<()> {
    if case.has_field("code") {
        return push_code(alloc, report, case);
    }
    if case.has_field("run") || case.has_field("steps") {
        return push_events(alloc, report, case);
    }
    case.check_keys(&KEYS, &KEYS_OF_TEXTS)?;
    if case.has_field("request") {
        return push_truth(alloc, report, case);
    }
    if case.has_field("sure") {
        return push_sure(rt, alloc, report, case);
    }
    push_runs(rt, alloc, report, case)
}
