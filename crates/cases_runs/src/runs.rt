use crate::case::Case;
use crate::objects::{finders, input, put_files, sink};
use crate::pieces::Pieces;
use crate::told::push_told;
use anyhow::{Result, ensure};
use casbin_run::run_casbin;
use lint_run::{asks_for_lint, run_lint};
use live_pair::ListPlaces;
use live_rounds::FreeGate;
use outside::{ListShelf, ListSink};
use regex_gate::ListFinder;
use serve_run::{asks_to_serve, serve_casbin};
use std::alloc::Global;
use std::sync::Wait;
use std::thread::Threads;

/// Runs a case, once for each of its matchers where it has such, and says what each run came to.
pub(crate) fn push_runs<R: Threads + Wait + Sync>(
    rt: &R,
    alloc: Global,
    report: &mut Vec<u8>,
    case: &Case,
) -> Result<()> {
    let matchers = case.text(alloc, "matchers")?;
    if matchers.is_empty() {
        push_run(rt, alloc, report, case, b"")?;
    }
    for matcher in matchers.split_inclusive(|byte| *byte == b'\n') {
        push_run(rt, alloc, report, case, matcher)?;
    }
    Ok(())
}

// Runs a case with this matcher, and says what it came to. From here on each function owns one large value, since all that one owns is
// let go wherever it stops.
fn push_run<R: Threads + Wait + Sync>(
    rt: &R,
    alloc: Global,
    report: &mut Vec<u8>,
    case: &Case,
    matcher: &[u8],
) -> Result<()> {
    let mut out = sink(alloc, case, "out-most", "out-fails")?;
    push_run_to(rt, alloc, report, case, matcher, &mut out)
}

// Runs it with this sink as `out`.
fn push_run_to<R: Threads + Wait + Sync>(
    rt: &R,
    alloc: Global,
    report: &mut Vec<u8>,
    case: &Case,
    matcher: &[u8],
    out: &mut ListSink,
) -> Result<()> {
    let mut err = sink(alloc, case, "err-most", "err-fails")?;
    let code = run(rt, alloc, case, matcher, out, &mut err)?;
    push_told(report, case, matcher, code, out.bytes(), err.bytes())
}

// Runs a case with this matcher and these sinks, and gives its exit status.
fn run<R: Threads + Wait + Sync>(
    rt: &R,
    alloc: Global,
    case: &Case,
    matcher: &[u8],
    out: &mut ListSink,
    err: &mut ListSink,
) -> Result<u8> {
    let mut shelf = ListShelf::new(alloc, case.numbers(alloc, "shelf-fails")?);
    put_files(alloc, &mut shelf, case, matcher)?;
    run_files(rt, alloc, case, &mut shelf, out, err)
}

// Runs it with these files, which are linted where the words ask for that.
fn run_files<R: Threads + Wait + Sync>(
    rt: &R,
    alloc: Global,
    case: &Case,
    shelf: &mut ListShelf,
    out: &mut ListSink,
    err: &mut ListSink,
) -> Result<u8> {
    let words = case.words(alloc, "words")?;
    if asks_for_lint(&words) {
        return Ok(lint(alloc, &words, shelf, out, err));
    }
    run_words(rt, alloc, case, &words, shelf, out, err)
}

// Lints these files. What the contract says is of no use here, so this function keeps it from the others.
fn lint(
    alloc: Global,
    words: &[String],
    shelf: &mut ListShelf,
    out: &mut ListSink,
    err: &mut ListSink,
) -> u8 {
    run_lint(alloc, words, shelf, out, err).code()
}

// Runs a case with these words and files.
fn run_words<R: Threads + Wait + Sync>(
    rt: &R,
    alloc: Global,
    case: &Case,
    words: &[String],
    shelf: &mut ListShelf,
    out: &mut ListSink,
    err: &mut ListSink,
) -> Result<u8> {
    let mut input = input(alloc, case)?;
    run_input(rt, alloc, case, words, shelf, &mut input, out, err)
}

// Runs it with these words and files, and this input.
fn run_input<R: Threads + Wait + Sync>(
    rt: &R,
    alloc: Global,
    case: &Case,
    words: &[String],
    shelf: &mut ListShelf,
    input: &mut Pieces,
    out: &mut ListSink,
    err: &mut ListSink,
) -> Result<u8> {
    let mut finders = finders(alloc, case)?;
    let mut places = ListPlaces::new(case.numbers(alloc, "places-fails")?);
    run_over(
        rt,
        alloc,
        words,
        shelf,
        input,
        out,
        err,
        &mut finders,
        &mut places,
    )
}

// Runs the program, or serves the input where the words ask for it. What its contract says is of no use here, so this function keeps it from the others.
fn run_over<R: Threads + Wait + Sync>(
    rt: &R,
    alloc: Global,
    words: &[String],
    shelf: &mut ListShelf,
    input: &mut Pieces,
    out: &mut ListSink,
    err: &mut ListSink,
    finders: &mut Vec<ListFinder>,
    places: &mut ListPlaces,
) -> Result<u8> {
    ensure!(finders.len() == 9, "a run has nine finders");
    if asks_to_serve(words) {
        let finder = &mut finders[0];
        return Ok(serve_casbin(alloc, words, shelf, input, out, err, finder).code());
    }
    let status = run_casbin(
        rt, alloc, words, shelf, input, out, err, finders, &FreeGate, places,
    );
    Ok(status.code())
}
