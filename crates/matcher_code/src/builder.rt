//! The code of a model's matcher, and that of a rule.

ghost use Rattle.std.specs.Prelude.{◌≡◌, ◌≤◌, None, false, true, length, unwrap_or, Bool, IfOk, Result};
ghost use Rattle.effect_fold.specs.declared.fault.Fault.{Fault};
ghost use Rattle.matcher_read.specs.Expression.{Expression, expression, nodes};
ghost use Rattle.matcher_read.specs.Matcher.{is_sound};
ghost use Rattle.model_conf.specs.Kept.{IsKept};
ghost use Rattle.model_conf.specs.Uses.{first_undeclared, uses};
ghost use Rattle.matcher_meaning.specs.Answers.{Evaluation};
ghost use Rattle.matcher_meaning.specs.Cases.{Case};
ghost use Rattle.matcher_meaning.specs.Comes.{RuleComesTo, TruthIs, all_at, takes_memory};
ghost use Rattle.matcher_meaning.specs.Meaning.{searches};
ghost use Rattle.matcher_code.specs.Compiled.{IsRule, as_answer, code_of, has_eval_op, has_search_op};
ghost use Rattle.matcher_code.specs.Helps.NodePlaces.{placed};
ghost use Rattle.matcher_code.specs.Machine.{CodeComesTo};
ghost use Rattle.matcher_code.specs.RunEnds.{some_takes_memory};

use crate::build_ops::push;
use crate::build_walk::{Source, push_tree};
use crate::code::Code;
use crate::op::Instruction;
use crate::verification::verify;
use matcher_read::Tree;
use model_conf::Model;
use outside::NoMemory;
use std::alloc::Global;

/// Makes the code of a model's matcher, whose value has to be a truth: it is checked, and its stack never holds more
/// than 1,024 values.
pub fn build(alloc: Global, model: &Model) -> Result<Code, NoMemory>
    // It is code for the columns of the model.
    ensures columns { IfOk result (λ code. code.columns ≡ length model.now.request) }
    ensures policy_columns { IfOk result
        (λ code. code.policy_columns ≡ length model.now.policy) }
    ensures height { IfOk result (λ code. code.height ≤ 1024) }

    // Whatever it comes to in a case of the model is a truth or a fault,
    ensures truth { IfOk result (λ code. (case : Case) (r : Evaluation) → case.model ≡ model.now
        → CodeComesTo case code.ops r
        → (t : Result Bool Fault) × (r ≡ as_answer t) × TruthIs case model.now.matcher t) }
    // and that of the matcher.
    ensures means { IfOk result (λ code. (case : Case) (t : Result Bool Fault)
        → case.model ≡ model.now → CodeComesTo case code.ops (as_answer t)
        → TruthIs case model.now.matcher t) }

    // It takes memory to run it where the matcher has a `regexMatch` or an `eval`.
    ensures takes { IfOk result
        (λ code. some_takes_memory code.ops ≡ takes_memory model.now.matcher) }
{
    // What a model keeps: its matcher is sound, and has at most 1,024 nodes.
    let _kept = model.matcher_text();
    code_from(alloc, model, model.matcher(), None)
}

/// Makes the code of a rule of a model, which a text says, with each instruction at one place of the matcher.
pub fn build_rule(alloc: Global, model: &Model, rule: &Tree, at: u32) -> Result<Code, NoMemory>
    requires { IsRule model.now (expression rule.now) }
    // It has the instructions of the rule.
    ensures ops { IfOk result
        (λ code. code.ops ≡ code_of model.now (all_at at (expression rule.now))) }
    // It is code for the columns of the model.
    ensures columns { IfOk result (λ code. code.columns ≡ length model.now.request) }
    ensures policy_columns { IfOk result
        (λ code. code.policy_columns ≡ length model.now.policy) }
    ensures height { IfOk result (λ code. code.height ≤ 1024) }

    // Whatever it comes to in a case of the model is what the rule comes to.
    ensures means { IfOk result (λ code. (case : Case) (r : Evaluation) → case.model ≡ model.now
        → CodeComesTo case code.ops r → RuleComesTo case at (expression rule.now) r) }

    // It has no `eval`, and a `regexMatch` where the rule has one.
    ensures evals { IfOk result (λ code. has_eval_op code.ops ≡ false) }
    ensures searches { IfOk result
        (λ code. has_search_op code.ops ≡ searches (expression rule.now)) }
{
    let _kept = model.matcher_text();
    code_from(alloc, model, rule, Some(at))
}

// The code of a whole matcher that names what the model declares, at its own places or at one.
fn code_from(
    alloc: Global,
    model: &Model,
    tree: &Tree,
    place: Option<u32>,
) -> Result<Code, NoMemory>
    requires kept { IsKept model.now }
    requires sound { is_sound (expression tree.now) ≡ true }
    requires declared { first_undeclared
        model.now.request model.now.policy model.now.relations
        (uses (expression tree.now)) ≡ None }
    ensures ops { IfOk result
        (λ code. code.ops ≡ code_of model.now (placed place (expression tree.now))) }
    ensures columns { IfOk result (λ code. code.columns ≡ length model.now.request) }
    ensures policy_columns { IfOk result
        (λ code. code.policy_columns ≡ length model.now.policy) }
    ensures height { IfOk result (λ code. code.height ≤ nodes (expression tree.now)) }
{
    let mut ops = Vec::new(alloc);
    push_tree(alloc, Source { model, place }, tree, &mut ops)?;
    push(
        &mut ops,
        place.unwrap_or(tree.place()),
        Instruction::NeedTruth,
    )?;
    let columns = model.request_columns().len();
    match verify(ops, columns, model.policy_columns().len()) {
        Ok(code) => Ok(code),
        Err(_) => unreachable!(),
    }
}
