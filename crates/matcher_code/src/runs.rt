ghost use Rattle.std.specs.Prelude.{◌≡◌, ◌≤◌, IfErr, IsTrue, length, map, option_copied};
ghost use Rattle.perm_value.specs.Seen.{datum};
ghost use Rattle.regex_gate.specs.Refusals.{RefusedOnly};
ghost use Rattle.matcher_code.specs.RunEnds.{IsValueOf, IsWantOfMemory, case_of, some_takes_memory};

use crate::asked::Asked;
use crate::code::Code;
use crate::eval::evaluated;
use crate::kept_rules::KeptRules;
use crate::links::Links;
use crate::no_truth::NoTruth;
use crate::pause::Pause;
use crate::run_on::{run_on, stop_of};
use crate::stack::Stack;
use model_conf::Model;
use perm_base::Rule;
use perm_value::{Request, View};
use regex_gate::Finder;
use std::alloc::Global;

/// The value that code of a model comes to for a request and a row, or none, over a stack that is emptied first. A search
/// that the finder refuses is a fault. It copies nothing, and memory is taken by `regexMatch` and `eval` alone: an `eval`
/// reads the rule that the row holds, unless its code is kept already, keeps the code, and runs it over a stack of its
/// own.
pub fn run<'a, K: Links, P: Finder, const N: usize>(
    alloc: Global,
    code: &'a Code,
    model: &Model,
    request: &'a Request,
    row: Option<&'a Rule>,
    links: &K,
    finder: &mut P,
    kept: &mut KeptRules,
    stack: &mut Stack<'a, N>,
) -> Result<View<'a>, NoTruth>
    // The stack has room for the code, and the model has the columns of a policy that it names.
    requires room { code.now.height ≤ N }
    requires policy_columns { code.now.policy_columns ≡ length model.now.policy }
    ensures value { IsValueOf (case_of model.now (map datum request.now) (option_copied row.entry)
        (K.shapes links.now) (K.policy links.now)) code.now.ops
        (RefusedOnly (P.refusals finder.old) (P.refusals finder.new)) result }
    ensures no_memory { IfErr result
        (λ stop. IsWantOfMemory stop → IsTrue (some_takes_memory code.now.ops)) }
{
    // The instructions keep the rules.
    let _ops = code.ops();
    let asked = Asked { request, row };
    let mut place = 0;
    stack.clear();
    loop {
        let pause = match run_on(code, place, asked, links, finder, stack) {
            Ok(pause) => pause,
            Err(halt) => return Err(stop_of(halt)),
        };
        match pause {
            Pause::Value(value) => return Ok(value),
            Pause::Eval {
                standing,
                at,
                column,
            } => {
                let truth = evaluated(alloc, model, asked, column, at, links, finder, kept)?;
                stack.push(View::Truth(truth));
                place = standing + 1;
            }
        }
    }
}
