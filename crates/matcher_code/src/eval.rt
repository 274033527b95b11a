//! Rules that a row holds in a column.

ghost use Rattle.std.specs.Prelude.{◌≡◌, ◌<◌, [], get_or, IfErr, IfOk, length, option_copied};
ghost use Rattle.perm_value.specs.Datum as datum;
ghost use Rattle.regex_gate.specs.Refusals.{RefusedOnly};
ghost use Rattle.matcher_meaning.specs.Cases.{where_refused};
ghost use Rattle.matcher_meaning.specs.Comes.{Evaluates};
ghost use Rattle.matcher_code.specs.Helps.Ends.{case_for};
ghost use Rattle.matcher_code.specs.Helps.Kept.{HasNoCode, IsCodeOf, TextComesTo};
ghost use Rattle.matcher_code.specs.Machine.{field_at};
ghost use Rattle.matcher_code.specs.RunEnds.{IsAnswer};

use crate::asked::Asked;
use crate::builder::build_rule;
use crate::faults::fault;
use crate::kept_rules::KeptRules;
use crate::links::Links;
use crate::no_truth::NoTruth;
use crate::rule_code::RuleCode;
use effect_fold::Cause;
use model_conf::{Model, RuleTextFault, read_rule_text};
use perm_base::Rule;
use regex_gate::Finder;
use std::alloc::Global;

/// What an `eval` comes to, which serves the node at a place of the matcher: what the rule does that the row's field in
/// the column says. The code of the rule that is kept is run; where none is, the rule is read and made code, run for this
/// row, and kept.
pub(crate) fn evaluated<K: Links, P: Finder>(
    alloc: Global,
    model: &Model,
    asked: Asked<'_>,
    column: u32,
    at: u32,
    links: &K,
    finder: &mut P,
    kept: &mut KeptRules,
) -> Result<bool, NoTruth>
    requires { column < length model.now.policy }
    ensures { IsAnswer (λ refused answer. Evaluates (where_refused
        (case_for model.now asked.entry (K.shapes links.now) (K.policy links.now)) refused)
        at (get_or model.now.policy column []) answer) datum.truth
        (RefusedOnly (P.refusals finder.old) (P.refusals finder.new)) result }
{
    // The columns of a policy are distinct.
    let _columns = model.policy_columns();
    text_truth(
        alloc,
        model,
        text_of(asked.row, column),
        asked,
        at,
        links,
        finder,
        kept,
    )
}

// What an `eval` at a place comes to that reads a text.
fn text_truth<K: Links, P: Finder>(
    alloc: Global,
    model: &Model,
    text: &str,
    asked: Asked<'_>,
    at: u32,
    links: &K,
    finder: &mut P,
    kept: &mut KeptRules,
) -> Result<bool, NoTruth>
    ensures { IsAnswer (λ refused answer. TextComesTo (where_refused
        (case_for model.now asked.entry (K.shapes links.now) (K.policy links.now)) refused)
        at text.now answer) datum.truth
        (RefusedOnly (P.refusals finder.old) (P.refusals finder.new)) result }
{
    if let Some(truth) = kept.truth_of(model, text, asked, at, links, finder) {
        return truth;
    }
    truth_anew(alloc, model, text, asked, at, links, finder, kept)
}

// The same where the code of the text is not kept: it is read and made code, run, and then kept. No other call is to pay for its
// locals.
#[inline(never)]
fn truth_anew<K: Links, P: Finder>(
    alloc: Global,
    model: &Model,
    text: &str,
    asked: Asked<'_>,
    at: u32,
    links: &K,
    finder: &mut P,
    kept: &mut KeptRules,
) -> Result<bool, NoTruth>
    ensures { IsAnswer (λ refused answer. TextComesTo (where_refused
        (case_for model.now asked.entry (K.shapes links.now) (K.policy links.now)) refused)
        at text.now answer) datum.truth
        (RefusedOnly (P.refusals finder.old) (P.refusals finder.new)) result }
{
    let rule = match code_of_text(alloc, model, text, at) {
        Ok(rule) => rule,
        Err(stop) => return Err(stop),
    };
    let truth = rule.truth(asked, links, finder);
    kept.keep(alloc, model, text, rule);
    truth
}

// The code of the rule that a text says, for an `eval` at a place.
fn code_of_text(alloc: Global, model: &Model, text: &str, at: u32) -> Result<RuleCode, NoTruth>
    ensures at { IfOk result (λ rule. rule.at ≡ at) }
    ensures code { IfOk result (λ rule. IsCodeOf model.now text.now rule) }
    ensures none { IfErr result (HasNoCode model.now text.now at) }
{
    let rule = match read_rule_text(alloc, model, text) {
        Ok(rule) => rule,
        Err(RuleTextFault::NoRule) => return Err(NoTruth::Fault(fault(Cause::RuleText, at))),
        Err(RuleTextFault::NoMemory) => return Err(NoTruth::NoMemory),
    };
    let Ok(code) = build_rule(alloc, model, &rule, at) else {
        return Err(NoTruth::NoMemory);
    };
    Ok(RuleCode { at, code })
}

// The row's field in a column as a text; without a row, or such a field, it is the empty text.
fn text_of<'a>(row: Option<&'a Rule>, column: u32) -> &'a str
    ensures { result.now ≡ field_at (option_copied row.entry) column }
{
    match row {
        Some(row) if column < row.len() => row.text(column),
        _ => "",
    }
}
