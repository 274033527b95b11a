ghost use Rattle.std.specs.Prelude.{◌≡◌, ◌-◌, ◌<◌, ◌^◌, ◌∷◌, [], IfOk, false, length};
ghost use Rattle.perm_base.specs.Shapes.{AreValid};
ghost use Rattle.text_parts.specs.Numbered.{line};
ghost use Rattle.policy_csv.specs.Lines.{policy_lines};
ghost use Rattle.policy_table.specs.Tables.{without_rules};
ghost use Rattle.file_lint.specs.PolicyWords.{policy_error};
ghost use Rattle.file_lint.specs.PolicyErrors.{HasFirst, LintsLines, LintsPolicy};

use crate::finding::Finding;
use crate::judge::Judge;
use crate::nodes::looked_in;
use crate::policy_words::policy_error;
use crate::row::Row;
use crate::wants::unless_policy_want;
use model_conf::Model;
use outside::NoMemory;
use perm_base::Shapes;
use policy_csv::{PolicyFault, read_policy};
use policy_table::no_tables;
use std::alloc::Global;
use text_parts::next_full_line;

/// What is found in a policy's text.
#[derive(Drop)]
pub struct PolicyLint {
    /// The findings in the order of their places.
    pub findings: Vec<Finding>,
    /// The first fault of the text, where it is no policy.
    pub fault: Option<PolicyFault>,
}

/// The findings of a policy's text, for a model and the shapes that it gives its policies. The first error is the fault that
/// `read_policy` tells; each line behind it is judged by itself, without the limits of tables. Each line that says a rule has the warnings of
/// this rule. It reads the text, and then each line once more.
pub fn lint_policy(
    alloc: Global,
    bytes: &[u8],
    model: &Model,
    shapes: &Shapes,
) -> Result<PolicyLint, NoMemory>
    requires valid { AreValid shapes.now }
    requires short { length bytes.now < 2 ^ 32 - 1 }
    ensures { IfOk result (λ lint.
        LintsPolicy model.now shapes.now bytes.now lint.fault lint.findings.items) }
{
    let fault = first_fault(alloc, bytes, shapes)?;
    let Ok(text) = str::from_utf8(bytes) else {
        let only = only_error(alloc, model)?;
        return Ok(PolicyLint {
            findings: only,
            fault,
        });
    };
    let findings = lines_found(alloc, text, model, shapes, fault)?;
    Ok(PolicyLint { findings, fault })
}

// The first fault of a text, unless it is a policy.
fn first_fault(
    alloc: Global,
    bytes: &[u8],
    shapes: &Shapes,
) -> Result<Option<PolicyFault>, NoMemory>
    requires { AreValid shapes.now }
    ensures { IfOk result (HasFirst shapes.now bytes.now) }
{
    let Err(first) = read_policy(alloc, bytes, shapes) else {
        return Ok(None);
    };
    unless_policy_want(first)?;
    Ok(Some(first))
}

// The error of a text that is not UTF-8.
fn only_error(alloc: Global, model: &Model) -> Result<Vec<Finding>, NoMemory>
    ensures { IfOk result (λ found. found.items
        ≡ policy_error model.now PolicyFault.NotUtf8 (line 1 []) ∷ []) }
{
    let mut findings = Vec::new(alloc);
    let error = policy_error(alloc, model, PolicyFault::NotUtf8, 1, "")?;
    findings.push(error)?;
    Ok(findings)
}

// The findings of all lines.
fn lines_found(
    alloc: Global,
    text: &str,
    model: &Model,
    shapes: &Shapes,
    first: Option<PolicyFault>,
) -> Result<Vec<Finding>, NoMemory>
    requires valid { AreValid shapes.now }
    requires short { length text.now < 2 ^ 32 - 1 }
    ensures { IfOk result (λ found. LintsLines model.now shapes.now first
        (without_rules false) (policy_lines text.now) found.items) }
{
    let columns = looked_in(alloc, model)?;
    let looked = columns.as_slice();
    let judge = Judge {
        model,
        shapes,
        looked,
    };
    let mut seen = no_tables(alloc);
    let mut findings = Vec::new(alloc);
    let mut number = 1;
    let mut rest = text;
    while let Some((at, line, after)) = next_full_line(rest, number) {
        let row = Row {
            number: at,
            text: line,
        };
        judge.push_findings(alloc, first, &row, &mut seen, &mut findings)?;
        number = at + 1;
        rest = after;
    }
    Ok(findings)
}
