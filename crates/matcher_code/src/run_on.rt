ghost use Rattle.std.specs.Prelude.{◌≡◌, ◌≤◌, length};
ghost use Rattle.model_conf.specs.ModelText.{ModelParts};
ghost use Rattle.regex_gate.specs.Refusals.{RefusedOnly};
ghost use Rattle.matcher_code.specs.Helps.Ends.{case_for, refused_by, stop_of};
ghost use Rattle.matcher_code.specs.Helps.Runs.{IsAt, RunEnds};

use crate::asked::Asked;
use crate::code::Code;
use crate::comparison::advance;
use crate::faults::fault;
use crate::halt::Halt;
use crate::links::Links;
use crate::no_truth::NoTruth;
use crate::pause::Pause;
use crate::stack::Stack;
use crate::step::Step;
use effect_fold::Cause;
use regex_gate::Finder;

/// Runs code from a place on, to its end or to an `eval`. It copies nothing.
pub(crate) fn run_on<'a, K: Links, P: Finder, const N: usize>(
    code: &'a Code,
    place: usize,
    asked: Asked<'a>,
    links: &K,
    finder: &mut P,
    stack: &mut Stack<'a, N>,
) -> Result<Pause<'a>, Halt<'a>>
    requires room { code.now.height ≤ N }
    requires at { IsAt code.now.ops place (length stack.old) }
    ensures run { (model : ModelParts)
        → RunEnds (case_for model asked.entry (K.shapes links.now) (K.policy links.now)) code.now.ops
        place stack.old stack.new result }
    ensures refused { RefusedOnly (P.refusals finder.old) (P.refusals finder.new)
        (refused_by result) }
{
    let ops = code.ops();
    let mut reached = place;
    while reached < ops.len() {
        let op = &ops[reached];
        match advance(ops, reached, op, asked, links, finder, stack)? {
            Step::Goes(to) => reached = to,
            Step::Eval(column) => {
                return Ok(Pause::Eval {
                    standing: reached,
                    at: op.at,
                    column,
                });
            }
        }
    }
    Ok(Pause::Value(stack.pop()))
}

/// Why a run stopped: a search that was refused is a fault of its place.
pub(crate) fn stop_of(halt: Halt<'_>) -> NoTruth
    ensures { result ≡ stop_of halt.entry }
{
    match halt {
        Halt::Fault(failed) => NoTruth::Fault(failed),
        Halt::Refused { at, .. } => NoTruth::Fault(fault(Cause::Pattern, at)),
        Halt::NoMemory => NoTruth::NoMemory,
    }
}
