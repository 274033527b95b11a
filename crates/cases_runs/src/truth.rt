use crate::case::Case;
use anyhow::{Context, Result, bail, ensure};
use matcher_code::{KeptRules, Links, NoTruth, Stack, WideStack, build, run};
use matcher_meaning::links_of_tables_are_decided;
use model_conf::{Model, read_model};
use perm_base::{Rule, read_fields};
use perm_value::{Request, View, request_of_fields};
use regex_gate::ListFinder;
use std::alloc::Global;
use std::io::Write;

/// Says what the matcher of a case's model comes to, for the case's request and rule, or without a rule.
pub(crate) fn push_truth(alloc: Global, report: &mut Vec<u8>, case: &Case) -> Result<()> {
    let truth = truth(alloc, case)?;
    writeln!(report, "case {}: {truth}", case.name)?;
    Ok(())
}

fn truth(alloc: Global, case: &Case) -> Result<String> {
    let model = model_of(alloc, case)?;
    truth_of(alloc, case, &model)
}

// The same of a matcher of this model. Each of these functions owns one large value, since all of them are let go wherever one stops.
fn truth_of(alloc: Global, case: &Case, model: &Model) -> Result<String> {
    let request = request_of(alloc, case)?;
    truth_for(alloc, case, model, &request)
}

// The same for this request.
fn truth_for(alloc: Global, case: &Case, model: &Model, request: &Request) -> Result<String> {
    let rule = rule_of(alloc, case)?;
    let mut finder = ListFinder::new(alloc, case.numbers(alloc, "finder-fails")?);
    asked(alloc, model, request, rule.as_ref(), &mut finder)
}

fn model_of(alloc: Global, case: &Case) -> Result<Model> {
    let text = case.text(alloc, "file")?;
    read_model(alloc, &text)
        .ok()
        .context("the file is no model")
}

fn request_of(alloc: Global, case: &Case) -> Result<Request> {
    let line = line_of(case, "request").context("no request")?;
    request_of_fields(alloc, line)
        .ok()
        .context("the line is no request")
}

// The rule of a case, where it has one.
fn rule_of(alloc: Global, case: &Case) -> Result<Option<Rule>> {
    let Some(line) = line_of(case, "rule") else {
        return Ok(None);
    };
    let fields = read_fields(alloc, line)
        .ok()
        .context("the line is no fields")?;
    ensure!(fields.len() <= 34, "a case has at most 34 fields");
    let rule = Rule::from_fields(fields)
        .ok()
        .context("the fields are no rule")?;
    Ok(Some(rule))
}

// What stands behind a key.
fn line_of<'a>(case: &'a Case, key: &str) -> Option<&'a str> {
    let field = case.fields.iter().find(|field| field.key.as_str() == key)?;
    Some(field.rest.as_str())
}

// No role relation, so that no name is linked to another.
struct NoLinks;

impl Links for NoLinks {
    ghost use Rattle.policy_table.specs.Tables.{without_rules};
    ghost use Rattle.std.specs.Prelude.{false};
    ghost use Rattle.cases_runs.specs.Shapes.{without_roles};

    ghost shapes = { λ _. without_roles };

    ghost policy = { λ _. without_rules false };

    fn linked(&self, _relation: u8, _x: &[u8], _y: &[u8], _domain: Option<&[u8]>) -> bool {
        links_of_tables_are_decided();
        false
    }
}

// Asks for the truth. What the contract says is of no use here, so this function keeps it from the others.
fn asked(
    alloc: Global,
    model: &Model,
    request: &Request,
    rule: Option<&Rule>,
    finder: &mut ListFinder,
) -> Result<String> {
    let code = build(alloc, model).ok().context("memory ran out")?;
    let mut kept = KeptRules::new();
    let mut stack: WideStack = Stack::new();
    match run(
        alloc, &code, model, request, rule, &NoLinks, finder, &mut kept, &mut stack,
    ) {
        Ok(View::Truth(truth)) => Ok(format!(in alloc; "truth {truth}")?),
        Ok(_) => bail!("the matcher has a value that is no truth"),
        Err(NoTruth::Fault(fault)) => Ok(format!(in alloc; "{:?} at {}", fault.cause, fault.at)?),
        Err(NoTruth::NoMemory) => bail!("memory ran out"),
    }
}
