ghost use Rattle.std.specs.Prelude.{◌≡◌, ◌+◌, ◌<◌, ◌≤◌, [], IfErr, IfOk, string_bytes};
ghost use Rattle.command_words.specs.Items.{texts};
ghost use Rattle.file_lint.specs.Findings.{count_of};
ghost use Rattle.outside.specs.Faults.{Rose};
ghost use Rattle.run_status.specs.Statuses.{status_of};
ghost use Rattle.run_status.specs.declared.stop.Stop.TheVariants.{NoModel};
ghost use Rattle.lint_run.specs.Ends.{LintEnds, LintStops};
ghost use Rattle.lint_run.specs.Lints.{lint_text, policy_end};
ghost use Rattle.lint_run.specs.Helps.{AreLinted, FilesStop, HasLinted, IsPolicyLinted, IsPolicyTold, PolicyFileStops};

use crate::files::{fetch, policy_shapes};
use crate::job::{LintJob, read_lint};
use file_lint::{
    Finding, Level, ModelLint, PolicyLint, count_of, lint_model, lint_policy, push_counts,
    push_findings,
};
use model_conf::{Model, ModelFault};
use outside::{NoMemory, Shelf, Sink, push_all};
use policy_csv::PolicyFault;
use run_status::{Part, Status, Stop, tell_stop};
use std::alloc::Global;

// What was found in both files, and the status that tells it.
#[derive(Drop)]
pub(crate) struct Linted {
    model: Vec<Finding>,
    policy: Vec<Finding>,
    status: Status,
}

/// Tells on `out` what is wrong with the files that the words name, and what loads and then surprises: a line for each finding, those of
/// the model first, and how many there are. Without errors it ends with Done, and else with the status that `enforce` ends with for these
/// files; where a file is not read, or an option names what the model lacks, it stops as `enforce` does, and `out` takes nothing.
pub fn run_lint<F: Shelf, K: Sink, E: Sink>(
    alloc: Global,
    words: &[String],
    shelf: &mut F,
    out: &mut K,
    err: &mut E,
) -> Status
    ensures ends { LintEnds (texts words.now) (F.files shelf.old)
        (Rose (F.faults shelf.old) (F.faults shelf.new))
        (Rose (K.faults out.old) (K.faults out.new))
        (K.taken out.old) (K.taken out.new)
        (E.taken err.old) (E.taken err.new) (E.faults err.old) (E.faults err.new) result }
    ensures same_files { F.files shelf.new ≡ F.files shelf.old }
    ensures out_counted { K.faults out.old ≤ K.faults out.new }
{
    match lint(alloc, words, shelf, out) {
        Ok(status) => status,
        Err(stop) => tell_stop(err, stop),
    }
}

// Lints the files that the words name, or stops at the first cause.
fn lint<F: Shelf, K: Sink>(
    alloc: Global,
    words: &[String],
    shelf: &mut F,
    out: &mut K,
) -> Result<Status, Stop>
    ensures done { IfOk result (HasLinted (texts words.now) (F.files shelf.old)
        (K.taken out.old) (K.taken out.new)) }
    ensures stopped { IfErr result (LintStops (texts words.now) (F.files shelf.old)
        (Rose (F.faults shelf.old) (F.faults shelf.new))
        (Rose (K.faults out.old) (K.faults out.new)) (K.taken out.old) (K.taken out.new)) }
    ensures same_files { F.files shelf.new ≡ F.files shelf.old }
    ensures counted { K.faults out.old ≤ K.faults out.new }
{
    let Some(job) = read_lint(alloc, words)? else {
        return Err(Stop::Words);
    };
    let linted = lint_files(alloc, shelf, &job)?;
    let text = lint_text(alloc, &job, &linted)?;
    push_all(out, text.as_bytes())?;
    Ok(linted.status)
}

// Fetches the model and lints it, and where it is one the policy.
fn lint_files<F: Shelf>(alloc: Global, shelf: &mut F, job: &LintJob<'_>) -> Result<Linted, Stop>
    requires { (0 < job.now.options.limit) × (job.now.options.limit ≤ 250) }
    ensures linted { IfOk result (AreLinted (F.files shelf.old) job.now) }
    ensures stopped { IfErr result (FilesStop (F.files shelf.old) job.now
        (Rose (F.faults shelf.old) (F.faults shelf.new))) }
    ensures same_files { F.files shelf.new ≡ F.files shelf.old }
{
    let bytes = fetch(alloc, shelf, job.files.model, Part::Model)?;
    let lint = lint_model(alloc, &bytes)?;
    let ModelLint { read, findings } = lint;
    match read {
        Ok(model) => lint_both(alloc, shelf, job, findings, &model),
        Err(first) => Ok(model_alone(alloc, findings, first)),
    }
}

// The findings of a model that is at fault.
fn model_alone(alloc: Global, found: Vec<Finding>, first: ModelFault) -> Linted
    ensures kept { result.model.items ≡ found.items }
    ensures none { result.policy.items ≡ [] }
    ensures ends { result.status ≡ status_of (NoModel first) }
{
    Linted {
        model: found,
        policy: Vec::new(alloc),
        status: Stop::NoModel(first).status(),
    }
}

// The findings of a model, and of its policy.
fn lint_both<F: Shelf>(
    alloc: Global,
    shelf: &mut F,
    job: &LintJob<'_>,
    found: Vec<Finding>,
    model: &Model,
) -> Result<Linted, Stop>
    requires { (0 < job.now.options.limit) × (job.now.options.limit ≤ 250) }
    ensures kept { IfOk result (λ linted. linted.model.items ≡ found.items) }
    ensures told { IfOk result (IsPolicyTold (F.files shelf.old) job.now model.now) }
    ensures stopped { IfErr result (PolicyFileStops (F.files shelf.old) job.now model.now
        (Rose (F.faults shelf.old) (F.faults shelf.new))) }
    ensures same_files { F.files shelf.new ≡ F.files shelf.old }
{
    let policy = lint_policy_file(alloc, shelf, job, model)?;
    Ok(Linted {
        model: found,
        status: policy_end(policy.fault),
        policy: policy.findings,
    })
}

// Fetches the policy and lints it, where the model has what the options name.
fn lint_policy_file<F: Shelf>(
    alloc: Global,
    shelf: &mut F,
    job: &LintJob<'_>,
    model: &Model,
) -> Result<PolicyLint, Stop>
    requires { (0 < job.now.options.limit) × (job.now.options.limit ≤ 250) }
    ensures linted { IfOk result (λ lint. IsPolicyLinted (F.files shelf.old) job.now model.now
        lint.fault lint.findings.items) }
    ensures stopped { IfErr result (PolicyFileStops (F.files shelf.old) job.now model.now
        (Rose (F.faults shelf.old) (F.faults shelf.new))) }
    ensures same_files { F.files shelf.new ≡ F.files shelf.old }
{
    let shapes = policy_shapes(alloc, model, &job.options)?;
    let bytes = fetch(alloc, shelf, job.files.policy, Part::Policy)?;
    let lint = lint_policy(alloc, &bytes, model, &shapes)?;
    Ok(lint)
}

// The status by the first fault of a policy.
fn policy_end(fault: Option<PolicyFault>) -> Status
    ensures { result ≡ policy_end fault }
{
    match fault {
        None => Status::Done,
        Some(first) => Stop::NoPolicy(first).status(),
    }
}

// The line of each finding, those of the model first, and how many there are.
fn lint_text(alloc: Global, job: &LintJob<'_>, linted: &Linted) -> Result<String, NoMemory>
    ensures { IfOk result (λ text. string_bytes text
        ≡ lint_text job.now linted.now.model.items linted.now.policy.items) }
{
    let mut text = String::new(alloc);
    push_findings(&mut text, job.files.model, &linted.model)?;
    push_findings(&mut text, job.files.policy, &linted.policy)?;
    let errors = count(linted, Level::Error);
    let warnings = count(linted, Level::Warning);
    push_counts(&mut text, errors, warnings)?;
    Ok(text)
}

// How many findings of both files are of a level.
fn count(linted: &Linted, level: Level) -> u64
    ensures { result ≡ count_of level linted.now.model.items
        + count_of level linted.now.policy.items }
{
    count_of(&linted.model, level) + count_of(&linted.policy, level)
}
