//! Laws of what a matcher comes to without searches, and of the rules that an `eval` reads.

ghost use Rattle.std.specs.Prelude.{◌≡◌, ℕ, Bool, false, List, Option, Result};
ghost use Rattle.matcher_read.specs.Expression.{Expression, evaluated, nodes, place};
ghost use Rattle.model_conf.specs.RuleText.{IsRuleText, has_eval};
ghost use Rattle.matcher_meaning.specs.Answers.{Evaluation, then};
ghost use Rattle.matcher_meaning.specs.Cases.{Case, row_text, where_refused};
ghost use Rattle.matcher_meaning.specs.Comes.{ComesTo, all_at, takes_memory};
ghost use Rattle.matcher_meaning.specs.Operators.{as_truth};

use model_conf::text_says_one_rule;

/// The law that an expression that takes no memory, having no `regexMatch` and no `eval`, comes to
/// the same whatever search is refused.
pub fn only_searches_are_refused()
    ensures { (case : Case) (e : Expression) (refused other : Option (ℕ × List ℕ)) (r : Evaluation)
        → takes_memory e ≡ false
        → ComesTo (where_refused case refused) e r
        → ComesTo (where_refused case other) e r }
{}

/// The law that an `eval` whose column says a rule comes to what this rule comes to with each node
/// at the place of the `eval`, as a truth; and that moving the nodes changes their places alone.
pub fn eval_comes_to_its_rule()
    ensures of_rule { (case : Case) (at : ℕ) (column : List ℕ) (rule : Expression) (x : Evaluation)
        → IsRuleText case.model (row_text case column) rule
        → ComesTo case (all_at at rule) x
        → ComesTo case (evaluated at column) (then x (as_truth at)) }
    ensures rule_of { (case : Case) (at : ℕ) (column : List ℕ) (rule : Expression) (r : Evaluation)
        → IsRuleText case.model (row_text case column) rule
        → ComesTo case (evaluated at column) r
        → (x : Evaluation) × ComesTo case (all_at at rule) x × (r ≡ then x (as_truth at)) }
    ensures place { (at : ℕ) (e : Expression) → place (all_at at e) ≡ at }
    ensures nodes { (at : ℕ) (e : Expression) → nodes (all_at at e) ≡ nodes e }
    ensures evals { (at : ℕ) (e : Expression) → has_eval (all_at at e) ≡ has_eval e }
{
    text_says_one_rule();
}
