ghost use Rattle.std.specs.Prelude.{◌≡◌, ◌≢◌, ◌||◌, ℕ, IfOk, List, MatchOption, false, string_bytes};
ghost use Rattle.model_conf.specs.Faults.{IsModelFault};
ghost use Rattle.model_conf.specs.ModelText.{IsModel, ModelParts};
ghost use Rattle.file_lint.specs.ModelErrors.{HasErrors, LintsModel, is_hidden, is_of_names, most_errors};
ghost use Rattle.file_lint.specs.Helps.Rounds.{IsOfBytes};

use crate::finding::Finding;
use crate::mended::{Mended, mend};
use crate::model_warnings::model_warnings;
use crate::model_words::error_of;
use crate::order::in_order;
use crate::wants::unless_model_want;
use model_conf::{Model, ModelFault, read_model};
use outside::NoMemory;
use std::alloc::Global;

// The greatest number of errors that are told.
const MOST_ERRORS: u32 = 1_000;

/// What is found in a model's text.
#[derive(Drop)]
pub struct ModelLint {
    /// The warnings of the model, or the errors of the text, in the order of their places.
    pub findings: Vec<Finding>,
    /// The model, or the first fault of the text.
    pub read: Result<Model, ModelFault>,
}

/// The findings of a model's text. Where it is a model, they are its warnings. Else they are its errors: the fault that `read_model`
/// tells, and those that are met once it is taken away, 1,000 at most. A line at fault is emptied, a key that is missing is written, a value
/// that is none is replaced, and a name that is not declared is declared; where columns or the shape of a relation were guessed so,
/// nothing more is told of names in the matcher. Of a text that is no matcher the first fault alone is told.
pub fn lint_model(alloc: Global, bytes: &[u8]) -> Result<ModelLint, NoMemory>
    ensures { IfOk result (λ lint. LintsModel bytes.now lint.read lint.findings.items) }
{
    match read_model(alloc, bytes) {
        Ok(model) => lint_of_model(alloc, bytes, model),
        Err(fault) => lint_of_fault(alloc, bytes, fault),
    }
}

// The warnings of a model, which these bytes say.
fn lint_of_model(alloc: Global, bytes: &[u8], model: Model) -> Result<ModelLint, NoMemory>
    requires { IsModel bytes.now model }
    ensures { IfOk result (λ lint. LintsModel bytes.now lint.read lint.findings.items) }
{
    let warnings = model_warnings(alloc, bytes, &model)?;
    let findings = in_order(alloc, warnings)?;
    Ok(ModelLint {
        findings,
        read: Ok(model),
    })
}

// The errors of bytes that are no model, unless they were not read for want of memory.
fn lint_of_fault(alloc: Global, bytes: &[u8], first: ModelFault) -> Result<ModelLint, NoMemory>
    requires { first ≢ ModelFault.NoMemory → IsModelFault bytes.now first }
    ensures { IfOk result (λ lint. LintsModel bytes.now lint.read lint.findings.items) }
{
    unless_model_want(first)?;
    let errors = errors_of(alloc, bytes, first)?;
    let findings = in_order(alloc, errors)?;
    Ok(ModelLint {
        findings,
        read: Err(first),
    })
}

// The errors of a text from its first fault on.
fn errors_of(alloc: Global, bytes: &[u8], first: ModelFault) -> Result<Vec<Finding>, NoMemory>
    requires { IsModelFault bytes.now first }
    ensures { IfOk result (λ errors. HasErrors most_errors false bytes.now first errors.items) }
{
    let Ok(text) = str::from_utf8(bytes) else {
        let only = only_error(alloc, first)?;
        return Ok(only);
    };
    let owned = String::from_str(alloc, text)?;
    let errors = further_errors(alloc, owned, first)?;
    Ok(errors)
}

// The error of a text that is not UTF-8, or too long.
fn only_error(alloc: Global, first: ModelFault) -> Result<Vec<Finding>, NoMemory>
    requires { IsOfBytes first }
    ensures { IfOk result (λ errors. (bytes : List ℕ)
        → HasErrors most_errors false bytes first errors.items) }
{
    let mut errors = Vec::new(alloc);
    let error = error_of(alloc, "", first)?;
    errors.push(error)?;
    Ok(errors)
}

// One round after the other.
fn further_errors(alloc: Global, bytes: String, first: ModelFault) -> Result<Vec<Finding>, NoMemory>
    ensures { IfOk result (λ errors.
        HasErrors most_errors false (string_bytes bytes) first errors.items) }
{
    let mut errors = Vec::new(alloc);
    let mut text = bytes;
    let mut fault = first;
    let mut guessed = false;
    let mut left = MOST_ERRORS;
    while left > 0 {
        if is_hidden(guessed, fault) {
            return Ok(errors);
        }
        let shown = text.as_str();
        let error = error_of(alloc, shown, fault)?;
        errors.push(error)?;
        let Some(after) = mend(alloc, shown, fault)? else {
            return Ok(errors);
        };
        let Some(next) = fault_in(alloc, &after)? else {
            return Ok(errors);
        };
        guessed = has_guessed(guessed, after.guessed);
        text = after.text;
        fault = next;
        left -= 1;
    }
    Ok(errors)
}

// Something was guessed, now or before.
fn has_guessed(before: bool, now: bool) -> bool
    ensures { result ≡ (before || now) }
{
    before || now
}

// The first fault of a mended text, unless it is a model.
fn fault_in(alloc: Global, after: &Mended) -> Result<Option<ModelFault>, NoMemory>
    ensures { IfOk result (λ found. MatchOption found
        ((model : ModelParts) × IsModel (string_bytes after.now.text) model)
        (IsModelFault (string_bytes after.now.text))) }
{
    let Err(next) = read_model(alloc, after.text.as_bytes()) else {
        return Ok(None);
    };
    unless_model_want(next)?;
    Ok(Some(next))
}

// Columns or shapes were guessed, and the fault is one of names.
fn is_hidden(guessed: bool, fault: ModelFault) -> bool
    ensures { result ≡ is_hidden guessed fault }
{
    guessed && is_of_names(fault)
}

fn is_of_names(fault: ModelFault) -> bool
    ensures { result ≡ is_of_names fault }
{
    match fault {
        ModelFault::UnknownColumn { .. } | ModelFault::RoleUse { .. } => true,
        _ => false,
    }
}
