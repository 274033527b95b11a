//! Laws of the definitions: what is asked has one answer.

ghost use Rattle.std.specs.Prelude.{◌≡◌, ℕ, List, Option, Some};
ghost use Rattle.perm_base.specs.RoleShapes.{shape_of};
ghost use Rattle.perm_base.specs.declared.shapes.RoleShape.{RoleShape};
ghost use Rattle.perm_base.specs.declared.shapes.Shapes.{Shapes};
ghost use Rattle.model_conf.specs.ModelText.{ModelParts};
ghost use Rattle.policy_table.specs.Tables.{Fields, Policy};
ghost use Rattle.rbac_query.specs.Asked.{hierarchy};
ghost use Rattle.rbac_query.specs.Permissions.{AreImplicitPermissions};
ghost use Rattle.rbac_query.specs.Report.{IsReport};

use role_meaning::{distance_is_one, links_are_decided};

/// The law that the rules that count for a name are one list.
pub fn permissions_are_one()
    ensures { (model : ModelParts) (shapes : Shapes) (policy : Policy)
        (domain : Option (List ℕ)) (name : List ℕ) (rules others : List Fields)
        → AreImplicitPermissions model shapes policy domain name rules
        → AreImplicitPermissions model shapes policy domain name others
        → rules ≡ others }
{}

/// The law that a policy has one report of g, where it has the relation.
pub fn relation_has_one_report()
    ensures there { (shapes : Shapes) (policy : Policy) (shape : RoleShape)
        → shape_of shapes.roles hierarchy ≡ Some shape
        → (text : List ℕ) × IsReport shapes policy text }
    ensures unique { (shapes : Shapes) (policy : Policy) (text other : List ℕ)
        → IsReport shapes policy text
        → IsReport shapes policy other
        → text ≡ other }
{
    links_are_decided();
    distance_is_one();
}
