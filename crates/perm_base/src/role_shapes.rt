ghost use Rattle.std.specs.Prelude.{◌≡◌};
ghost use Rattle.perm_base.specs.RoleShapes.{AreRoles, shape_of};

use crate::shapes::RoleShape;
use outside::Share;
use std::marker::Model;

/// The role relations of a policy, numbered 1 to 8, by rising number without repeats. Contracts see the list of
/// their shapes.
#[derive(Drop)]
pub struct RoleShapes {
    shapes: Vec<RoleShape>,
}

impl Model for RoleShapes {
    ghost use Rattle.std.specs.Prelude.{List};
    ghost use Rattle.perm_base.specs.RoleShapes.{AreRoles};
    ghost use Rattle.perm_base.specs.declared.shapes.RoleShape.{RoleShape};

    ghost Value = { List RoleShape };

    ghost view = { λ r. r.shapes.items };

    ghost invariant = { λ r. AreRoles r.shapes.items };
}

impl RoleShapes {
    /// These relations. It takes no memory.
    pub fn from_vec(shapes: Vec<RoleShape>) -> RoleShapes
        requires { AreRoles shapes.items }
        ensures { result ≡ shapes.items }
    {
        RoleShapes { shapes }
    }

    /// The relations by rising number.
    pub fn as_slice(&self) -> &[RoleShape]
        ensures value { result.now ≡ self.now }
        ensures roles { AreRoles result.now }
    {
        &self.shapes
    }

    /// The relations as a `Vec`. It takes no memory.
    pub fn into_vec(self) -> Vec<RoleShape>
        ensures value { result.items ≡ self }
        ensures roles { AreRoles result.items }
    {
        self.shapes
    }

    /// The relation of a number, if there is one.
    pub fn find(&self, number: u8) -> Option<RoleShape>
        ensures { result ≡ shape_of self.now number }
    {
        for shape in &self.shapes {
            if shape.number == number {
                return Some(*shape);
            }
        }
        None
    }
}

impl Share for RoleShapes {}
