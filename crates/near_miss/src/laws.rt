//! Laws of near misses and of the parts that tell them.

ghost use Rattle.std.specs.Prelude.{◌≡◌, ℕ, List};
ghost use Rattle.std.specs.List.{Contains};
ghost use Rattle.refusal_meaning.specs.Unread.{AreUnreadable};
ghost use Rattle.model_conf.specs.ModelText.{ModelParts};
ghost use Rattle.perm_base.specs.declared.shapes.Shapes.{Shapes};
ghost use Rattle.perm_value.specs.Datum.{Datum};
ghost use Rattle.policy_table.specs.Tables.{Policy};
ghost use Rattle.near_miss.specs.Misses.{AreNearMisses};
ghost use Rattle.near_miss.specs.Parts.{AreParts};
ghost use Rattle.near_miss.specs.declared.misses.NearMiss as declared;

use matcher_meaning::{case_answer_is_there, case_answer_is_unique};
use model_conf::text_says_one_model;
use refusal_meaning::unreadable_patterns_are_refused_without_effect;

/// The law that each request has near misses, whatever patterns count as refused.
pub fn near_misses_are_there()
    ensures { (shapes : Shapes) (policy : Policy) (request : List Datum)
        (refused : List (List ℕ)) (parts : List ModelParts) (most : ℕ)
        → (misses : List declared.NearMiss)
        × AreNearMisses shapes policy request (Contains refused) parts most misses }
{
    case_answer_is_there();
}

/// The law that a request has one list of near misses, where only patterns that cannot be read count as refused.
pub fn near_misses_are_one()
    ensures { (shapes : Shapes) (policy : Policy) (request : List Datum)
        (parts : List ModelParts) (most : ℕ) (refused others : List (List ℕ))
        (first second : List declared.NearMiss)
        → AreUnreadable refused → AreUnreadable others
        → AreNearMisses shapes policy request (Contains refused) parts most first
        → AreNearMisses shapes policy request (Contains others) parts most second
        → first ≡ second }
{
    case_answer_is_unique();
    unreadable_patterns_are_refused_without_effect();
}

/// The law that the parts of a model's matcher are made ready in one way.
pub fn parts_are_one()
    ensures { (model : ModelParts) (first second : List ModelParts)
        → AreParts model first → AreParts model second → first ≡ second }
{
    text_says_one_model();
}
