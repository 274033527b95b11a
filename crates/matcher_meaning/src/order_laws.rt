//! Laws of the links that tables make, and of the order in which rows are judged.

ghost use Rattle.std.specs.Prelude.{◌≡◌, ◌≢◌, ◌↔◌, ℕ, Bool, IsTrue, is_some, List};
ghost use Rattle.std.specs.Prelude.{Option, Some, None};
ghost use Rattle.std.specs.List.Sorted.{IsPermutation};
ghost use Rattle.effect_fold.specs.declared.effect.Effect.{Effect};
ghost use Rattle.perm_base.specs.RoleShapes.{shape_of};
ghost use Rattle.perm_base.specs.declared.shapes.RoleShape.{RoleShape};
ghost use Rattle.perm_base.specs.declared.shapes.Shapes.{Shapes};
ghost use Rattle.policy_table.specs.Tables.{Fields, Policy};
ghost use Rattle.matcher_meaning.specs.Cases.{Case, IsLinkedBy};
ghost use Rattle.matcher_meaning.specs.Order.{AreInOrder, Numbered, numbered_from};

use role_meaning::{depth_is_one, links_are_decided};

/// The law that a test tells whether a relation links one name to another, and that one which is
/// not there, or is asked with a domain but has none, or without one but has them, links nothing.
pub fn links_of_tables_are_decided()
    ensures decided { (shapes : Shapes) (policy : Policy) (relation : ℕ) (x y : List ℕ)
        (domain : Option (List ℕ))
        → (b : Bool) × (IsTrue b ↔ IsLinkedBy shapes policy relation x y domain) }
    ensures absent { (shapes : Shapes) (policy : Policy) (relation : ℕ) (x y : List ℕ)
        (domain : Option (List ℕ))
        → shape_of shapes.roles relation ≡ None
        → ¬ (IsLinkedBy shapes policy relation x y domain) }
    ensures otherwise { (shapes : Shapes) (policy : Policy) (relation : ℕ) (x y : List ℕ)
        (domain : Option (List ℕ)) (shape : RoleShape)
        → shape_of shapes.roles relation ≡ Some shape
        → is_some domain ≢ shape.with_domain
        → ¬ (IsLinkedBy shapes policy relation x y domain) }
{
    links_are_decided();
}

/// The law that the rows of a table are judged in one order, in which each stands once.
pub fn order_of_rows_is_one()
    ensures there { (case : Case) (effect : Effect) (table : List Fields)
        → (judged : List Numbered) × AreInOrder case effect table judged }
    ensures unique { (case : Case) (effect : Effect) (table : List Fields)
        (judged other : List Numbered)
        → AreInOrder case effect table judged
        → AreInOrder case effect table other
        → judged ≡ other }
    ensures moved { (case : Case) (effect : Effect) (table : List Fields)
        (judged : List Numbered)
        → AreInOrder case effect table judged
        → IsPermutation (numbered_from 1 table) judged }
{
    depth_is_one();
}
