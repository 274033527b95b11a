ghost use Rattle.std.specs.Prelude.{◌≡◌, ◌≢◌, IfOk, IsErrOf, MatchResult};
ghost use Rattle.matcher_read.specs.Expression.{Expression, expression};
ghost use Rattle.model_conf.specs.Helps.RuleTexts.{is_rule};
ghost use Rattle.model_conf.specs.RuleText.{IsNoRuleText, IsRuleText, has_eval};

use crate::model::Model;
use crate::uses::Declared;
use matcher_read::{MatcherFault, NodeKind, Tree, has_node, read_matcher};
use std::alloc::Global;

/// Why a text is not read as a rule.
#[derive(Clone, Copy, Debug, PartialEq, Eq)]
pub enum RuleTextFault {
    /// It is no matcher, or one with `eval`, or it names a column that the model does not declare, or asks a relation
    /// that it does not declare, or with another number of names.
    NoRule,
    /// Memory ran out.
    NoMemory,
}

impl From<MatcherFault> for RuleTextFault {
    ghost use Rattle.std.specs.Prelude.{◌≡◌};
    ghost use Rattle.model_conf.specs.Helps.RuleTexts.{fault_of_matcher};

    ghost from_gives = { λ stop fault. fault ≡ fault_of_matcher stop };

    fn from(stop: MatcherFault) -> RuleTextFault {
        match stop {
            MatcherFault::NoMemory => RuleTextFault::NoMemory,
            _ => RuleTextFault::NoRule,
        }
    }
}

/// Reads a rule that is held in a column: a matcher without `eval`, whose columns and relations the model declares, and
/// which asks each relation with its number of names.
pub fn read_rule_text(alloc: Global, model: &Model, text: &str) -> Result<Tree, RuleTextFault>
    // What is read is the rule that the text says.
    ensures found { IfOk result (λ tree. IsRuleText model.now text.now (expression tree)) }
    // The rule that the text says is read, unless memory runs out.
    ensures only { (e : Expression) → IsRuleText model.now text.now e
        → MatchResult result (λ tree. expression tree ≡ e)
        (λ fault. fault ≡ RuleTextFault.NoMemory) }

    // NoRule comes where the text says none, and always there, unless memory runs out.
    ensures no_rule { IsErrOf result RuleTextFault.NoRule → IsNoRuleText model.now text.now }
    ensures only_no_rule { IsNoRuleText model.now text.now
        → MatchResult result (λ tree. ⊥)
        (λ fault. fault ≢ RuleTextFault.NoMemory → fault ≡ RuleTextFault.NoRule) }
{
    let tree = read_matcher(alloc, text)?;
    if !is_rule(model, &tree) {
        return Err(RuleTextFault::NoRule);
    }
    Ok(tree)
}

// A matcher without `eval`, whose columns and relations the model declares.
fn is_rule(model: &Model, tree: &Tree) -> bool
    ensures { result ≡ is_rule model.now (expression tree.now) }
{
    let declared = Declared {
        request: model.request_columns(),
        policy: model.policy_columns(),
        relations: model.relations(),
    };
    !has_eval(tree) && declared.first_misuse(tree).is_none()
}

/// An `eval` stands in the matcher. It takes no memory.
pub fn has_eval(tree: &Tree) -> bool
    ensures { result ≡ has_eval (expression tree.now) }
{
    has_node(tree, NodeKind::Eval)
}
