//! Laws of what a matcher and a model come to over tables.

ghost use Rattle.std.specs.Prelude.{◌≡◌, ◌⊎◌, ℕ, Bool, false, true, List, Option, Some, None};
ghost use Rattle.std.specs.Prelude.{Result, Err};
ghost use Rattle.effect_fold.specs.declared.fault.Cause.TheVariants.{Pattern};
ghost use Rattle.effect_fold.specs.declared.fault.Fault.{Fault};
ghost use Rattle.effect_fold.specs.declared.verdict.Verdict.{Verdict};
ghost use Rattle.perm_base.specs.declared.shapes.Shapes.{Shapes};
ghost use Rattle.perm_value.specs.Datum.{Datum};
ghost use Rattle.policy_table.specs.Tables.{Fields, Policy};
ghost use Rattle.matcher_read.specs.Expression.{Expression};
ghost use Rattle.model_conf.specs.ModelText.{ModelParts};
ghost use Rattle.matcher_meaning.specs.Answers.{Evaluation, fails};
ghost use Rattle.matcher_meaning.specs.Cases.{Case, at_row, where_refused};
ghost use Rattle.matcher_meaning.specs.Comes.{ComesTo, TruthIs};
ghost use Rattle.matcher_meaning.specs.Perm.{Refusal, is_pattern, is_refusal, refusal_fault};
ghost use Rattle.matcher_meaning.specs.Searches.{Asks};
ghost use Rattle.matcher_meaning.specs.Verdicts.{IsVerdict, case_of};
ghost use Rattle.regex_gate.specs.Found.{is_readable};

use ip_match::{address_is_unique, addresses_are_decided, block_is_unique};
use key_match::{covering_is_decided, named_part_is_one};
use model_conf::{every_text_says_a_rule_or_none, text_says_one_rule};
use role_meaning::{depth_is_one, links_are_decided};

/// The law that an expression comes to one answer at most in a case, and a whole matcher to one
/// truth.
pub fn case_answer_is_unique()
    ensures value { (case : Case) (e : Expression) (first second : Evaluation)
        → ComesTo case e first → ComesTo case e second → first ≡ second }
    ensures truth { (case : Case) (e : Expression) (first second : Result Bool Fault)
        → TruthIs case e first → TruthIs case e second → first ≡ second }
{
    named_part_is_one();
    address_is_unique();
    block_is_unique();
    text_says_one_rule();
}

/// The law that an expression comes to an answer in each case, and a whole matcher to a truth.
pub fn case_answer_is_there()
    ensures value { (case : Case) (e : Expression) → (r : Evaluation) × ComesTo case e r }
    ensures truth { (case : Case) (e : Expression)
        → (r : Result Bool Fault) × TruthIs case e r }
{
    covering_is_decided();
    named_part_is_one();
    addresses_are_decided();
    links_are_decided();
    every_text_says_a_rule_or_none();
}

/// The law that a search which is refused leaves an answer, a truth or a verdict as it is, or that
/// this is its fault.
pub fn refusal_keeps_or_fails()
    ensures value { (case : Case) (e : Expression) (at : ℕ) (pattern : List ℕ) (r : Evaluation)
        → ComesTo (where_refused case None) e r
        → ComesTo (where_refused case (Some (at, pattern))) e r
        ⊎ ComesTo (where_refused case (Some (at, pattern))) e (fails Pattern at) }
    ensures truth { (case : Case) (e : Expression) (at : ℕ) (pattern : List ℕ)
        (r : Result Bool Fault)
        → TruthIs (where_refused case None) e r
        → TruthIs (where_refused case (Some (at, pattern))) e r
        ⊎ TruthIs (where_refused case (Some (at, pattern))) e (fails Pattern at) }
    ensures verdict { (model : ModelParts) (shapes : Shapes) (policy : Policy)
        (request : List Datum) (refusal : Refusal) (v : Verdict)
        → IsVerdict model shapes policy request None v
        → IsVerdict model shapes policy request (Some refusal) v
        ⊎ IsVerdict model shapes policy request (Some refusal) (refusal_fault refusal) }
{}

/// The law that in a case where no search is refused a fault, or a verdict, is that of a pattern only
/// where the matcher asks at its place for a pattern that cannot be read.
pub fn pattern_comes_by_refusal_alone()
    ensures value { (case : Case) (e : Expression) (failed : Fault)
        → ComesTo (where_refused case None) e (Err failed)
        → is_pattern failed.cause ≡ true
        → (pattern : List ℕ) × (is_readable pattern ≡ false)
        × Asks (where_refused case None) e failed.at pattern }
    ensures truth { (case : Case) (e : Expression) (failed : Fault)
        → TruthIs (where_refused case None) e (Err failed)
        → is_pattern failed.cause ≡ true
        → (pattern : List ℕ) × (is_readable pattern ≡ false)
        × Asks (where_refused case None) e failed.at pattern }
    ensures verdict { (model : ModelParts) (shapes : Shapes) (policy : Policy)
        (request : List Datum) (v : Verdict)
        → IsVerdict model shapes policy request None v
        → is_refusal v ≡ true
        → (refusal : Refusal) × (v ≡ refusal_fault refusal)
        × (is_readable refusal.pattern ≡ false)
        × ((row : Option Fields) × Asks (at_row (case_of model shapes policy request) row)
        model.matcher refusal.at refusal.pattern) }
{}

/// The law that a model comes to one verdict at most for a request over its tables, where one
/// search is refused or none.
pub fn case_verdict_is_unique()
    ensures { (model : ModelParts) (shapes : Shapes) (policy : Policy) (request : List Datum)
        (refused : Option Refusal) (first second : Verdict)
        → IsVerdict model shapes policy request refused first
        → IsVerdict model shapes policy request refused second
        → first ≡ second }
{
    case_answer_is_unique();
    depth_is_one();
}

/// The law that a model comes to a verdict for each request over all tables.
pub fn case_verdict_is_there()
    ensures { (model : ModelParts) (shapes : Shapes) (policy : Policy) (request : List Datum)
        (refused : Option Refusal)
        → (v : Verdict) × IsVerdict model shapes policy request refused v }
{
    case_answer_is_there();
    depth_is_one();
}
