//! The code of a rule, and what it comes to.

ghost use Rattle.std.specs.Prelude.{◌≡◌, ◌≤◌, ℕ, [], false, List};
ghost use Rattle.model_conf.specs.ModelText.{ModelParts};
ghost use Rattle.perm_value.specs.Datum as datum;
ghost use Rattle.perm_value.specs.Seen.{datum_of_view};
ghost use Rattle.regex_gate.specs.Refusals.{RefusedOnly};
ghost use Rattle.matcher_meaning.specs.Cases.{where_refused};
ghost use Rattle.matcher_code.specs.Compiled.{has_eval_op};
ghost use Rattle.matcher_code.specs.Helps.Ends.{case_for};
ghost use Rattle.matcher_code.specs.Helps.Kept.{IsCodeOf, TextComesTo};
ghost use Rattle.matcher_code.specs.RunEnds.{IsAnswer, IsValueOf};

use crate::asked::Asked;
use crate::code::Code;
use crate::links::Links;
use crate::no_truth::NoTruth;
use crate::pause::Pause;
use crate::run_on::{run_on, stop_of};
use crate::stack::{FixedStack, Stack, WideStack};
use perm_value::View;
use regex_gate::Finder;

/// The code of a rule, and the place of the `eval` that it serves.
pub(crate) struct RuleCode {
    pub(crate) at: u32,
    pub(crate) code: Code,
}

// Written out, so that a caller's proof sees one call and not the drop of each field.
impl Drop for RuleCode {
    fn drop(self) {
        let RuleCode {
            at: _at,
            code: _code,
        } = self;
    }
}

impl RuleCode {
    /// What the rule comes to, whichever text of whichever model it is the code of.
    pub(crate) fn truth<K: Links, P: Finder>(
        &self,
        asked: Asked<'_>,
        links: &K,
        finder: &mut P,
    ) -> Result<bool, NoTruth>
        requires { (model : ModelParts) × (text : List ℕ) × IsCodeOf model text self.now }
        ensures { (model : ModelParts) (text : List ℕ) → IsCodeOf model text self.now
            → IsAnswer (λ refused answer. TextComesTo (where_refused
            (case_for model asked.entry (K.shapes links.now) (K.policy links.now)) refused)
            self.now.at text answer) datum.truth
            (RefusedOnly (P.refusals finder.old) (P.refusals finder.new)) result }
    {
        let value = match rule_value(&self.code, asked, links, finder) {
            Ok(value) => value,
            Err(stop) => return Err(stop),
        };
        let View::Truth(truth) = value else {
            unreachable!();
        };
        Ok(truth)
    }
}

// What the code of a rule comes to, over a stack of its own.
fn rule_value<'a, K: Links, P: Finder>(
    code: &'a Code,
    asked: Asked<'a>,
    links: &K,
    finder: &mut P,
) -> Result<View<'a>, NoTruth>
    requires height { code.now.height ≤ 1024 }
    requires evals { has_eval_op code.now.ops ≡ false }
    ensures { (model : ModelParts) → IsValueOf
        (case_for model asked.entry (K.shapes links.now) (K.policy links.now)) code.now.ops
        (RefusedOnly (P.refusals finder.old) (P.refusals finder.new)) result }
{
    if code.height() <= 16 {
        let mut stack: Stack<'a, 16> = FixedStack::new();
        return value_over(code, asked, links, finder, &mut stack);
    }
    value_on_wide_stack(code, asked, links, finder)
}

// The same over a stack with room for each rule, which no other call is to pay for.
#[inline(never)]
fn value_on_wide_stack<'a, K: Links, P: Finder>(
    code: &'a Code,
    asked: Asked<'a>,
    links: &K,
    finder: &mut P,
) -> Result<View<'a>, NoTruth>
    requires height { code.now.height ≤ 1024 }
    requires evals { has_eval_op code.now.ops ≡ false }
    ensures { (model : ModelParts) → IsValueOf
        (case_for model asked.entry (K.shapes links.now) (K.policy links.now)) code.now.ops
        (RefusedOnly (P.refusals finder.old) (P.refusals finder.new)) result }
{
    let mut stack: WideStack<'a> = FixedStack::new();
    value_over(code, asked, links, finder, &mut stack)
}

// What code without an `eval` comes to, over an empty stack.
fn value_over<'a, K: Links, P: Finder, const N: usize>(
    code: &'a Code,
    asked: Asked<'a>,
    links: &K,
    finder: &mut P,
    stack: &mut Stack<'a, N>,
) -> Result<View<'a>, NoTruth>
    requires room { code.now.height ≤ N }
    requires empty { stack.old ≡ [] }
    requires evals { has_eval_op code.now.ops ≡ false }
    ensures { (model : ModelParts) → IsValueOf
        (case_for model asked.entry (K.shapes links.now) (K.policy links.now)) code.now.ops
        (RefusedOnly (P.refusals finder.old) (P.refusals finder.new)) result }
{
    match run_on(code, 0, asked, links, finder, stack) {
        Ok(Pause::Value(value)) => Ok(value),
        Ok(Pause::Eval { .. }) => unreachable!(),
        Err(halt) => Err(stop_of(halt)),
    }
}
