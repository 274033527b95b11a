use crate::case::Case;
use crate::objects::{file_of, finders};
use anyhow::{Context, Result, ensure};
use casbin_run::run_casbin;
use live_pair::PairPlaces;
use live_rounds::FreeGate;
use outside::{SureShelf, SureSink, SureSource};
use regex_gate::ListFinder;
use std::alloc::Global;
use std::io::Write;
use std::sync::Wait;
use std::thread::Threads;

/// Runs a case over objects that never fail, and says how it ended.
pub(crate) fn push_sure<R: Threads + Wait + Sync>(
    rt: &R,
    alloc: Global,
    report: &mut Vec<u8>,
    case: &Case,
) -> Result<()> {
    let code = run_sure(rt, alloc, case)?;
    writeln!(report, "case {}: status {code}", case.name)?;
    Ok(())
}

// Runs a case over such objects, and gives its exit status.
fn run_sure<R: Threads + Wait + Sync>(rt: &R, alloc: Global, case: &Case) -> Result<u8> {
    let words = case.words(alloc, "words")?;
    let mut shelf = shelf(alloc, case)?;
    let mut input = SureSource::new(case.text(alloc, "input")?);
    let mut finders = finders(alloc, case)?;
    run_over(rt, alloc, &words, &mut shelf, &mut input, &mut finders)
}

// Runs the program. What its contract says is of no use here, so this function keeps it from the others.
fn run_over<R: Threads + Wait + Sync>(
    rt: &R,
    alloc: Global,
    words: &[String],
    shelf: &mut SureShelf,
    input: &mut SureSource,
    finders: &mut Vec<ListFinder>,
) -> Result<u8> {
    ensure!(finders.len() == 9, "a run has nine finders");
    let mut out = SureSink::new();
    let mut err = SureSink::new();
    let mut places = PairPlaces::new();
    let status = run_casbin(
        rt,
        alloc,
        words,
        shelf,
        input,
        &mut out,
        &mut err,
        finders,
        &FreeGate,
        &mut places,
    );
    Ok(status.code())
}

// A shelf with the files of a case.
fn shelf(alloc: Global, case: &Case) -> Result<SureShelf> {
    let mut shelf = SureShelf::new(alloc);
    for field in &case.fields {
        if field.key.as_str() == "file" {
            let (name, bytes) = file_of(alloc, field, b"")?;
            shelf.put(name, bytes).ok().context("memory ran out")?;
        }
    }
    Ok(shelf)
}
