ghost use Rattle.std.specs.Prelude.{◌≡◌, ◌≤◌, ◌⊎◌, ℕ, List, length};
ghost use Rattle.matcher_read.specs.Expression.{Expression};
ghost use Rattle.model_conf.specs.Faults.{IsModelFault};
ghost use Rattle.model_conf.specs.Kept.{IsKept};
ghost use Rattle.model_conf.specs.ModelText.{IsModel, ModelParts, most_bytes};
ghost use Rattle.model_conf.specs.Printed.{printed};
ghost use Rattle.model_conf.specs.RuleText.{IsNoRuleText, IsRuleText};
ghost use Rattle.model_conf.specs.declared.fault.ModelFault.{ModelFault};

use matcher_read::{
    every_text_is_a_matcher_or_at_fault, faulty_text_is_no_matcher, text_has_one_fault,
    text_says_one_matcher,
};

/// The law that a text says one model at most.
pub fn text_says_one_model()
    ensures { (bytes : List ℕ) (first second : ModelParts)
        → IsModel bytes first → IsModel bytes second → first ≡ second }
{
    text_says_one_matcher();
    text_has_one_fault();
    faulty_text_is_no_matcher();
}

/// The law that a text has one first fault at most.
pub fn text_has_one_model_fault()
    ensures { (bytes : List ℕ) (first second : ModelFault)
        → IsModelFault bytes first → IsModelFault bytes second → first ≡ second }
{
    text_says_one_matcher();
    text_has_one_fault();
    faulty_text_is_no_matcher();
}

/// The law that a text with a fault is no model.
pub fn faulty_text_is_no_model()
    ensures { (bytes : List ℕ) (fault : ModelFault) (model : ModelParts)
        → IsModelFault bytes fault → ¬ (IsModel bytes model) }
{
    text_says_one_matcher();
    text_has_one_fault();
    faulty_text_is_no_matcher();
}

/// The law that a text says one rule at most.
pub fn text_says_one_rule()
    ensures { (model : ModelParts) (text : List ℕ) (first second : Expression)
        → IsRuleText model text first → IsRuleText model text second → first ≡ second }
{
    text_says_one_matcher();
}

/// The law that every text says a rule of a model, or says none.
pub fn every_text_says_a_rule_or_none()
    ensures { (model : ModelParts) (text : List ℕ)
        → ((rule : Expression) × IsRuleText model text rule) ⊎ IsNoRuleText model text }
{
    every_text_is_a_matcher_or_at_fault();
    text_says_one_matcher();
    faulty_text_is_no_matcher();
}

/// The law that the printed text of a model says this model, where it has no more bytes than a model may have.
pub fn printed_model_is_read()
    ensures { (model : ModelParts) → IsKept model → length (printed model) ≤ most_bytes
        → IsModel (printed model) model }
{}
