//! The roles of one user.

ghost use Rattle.std.specs.Prelude.{◌≡◌, ◌≤◌, ◌++◌, ◌∷◌, ◌==◌, [], IfOk, OnOk, length};

use crate::edits::copy_all;
use outside::{NoMemory, Share, Text};
use std::alloc::Global;
use std::marker::Model;

/// The roles of a user's rows, once for each row. Most users have one, which lies in its own place. Contracts see the list.
pub(crate) struct RoleTexts {
    held: Held,
}

// Where they lie: in their own place, or in memory of their own.
#[derive(Drop)]
enum Held {
    One(Text),
    Many(Vec<Text>),
}

// Written out, so that a caller's proof sees one call and not the drop of each field.
impl Drop for RoleTexts {
    fn drop(self) {
        let RoleTexts { held: _held } = self;
    }
}

impl Model for RoleTexts {
    ghost use Rattle.role_graph.specs.Helps.UserRoles.{Texts, texts_of};

    ghost Value = { Texts };

    ghost view = { λ r. texts_of r.held };
}

impl RoleTexts {
    /// One role. It takes no memory.
    pub(crate) fn one(role: Text) -> RoleTexts
        ensures { result.items ≡ role ∷ [] }
    {
        RoleTexts {
            held: Held::One(role),
        }
    }

    /// These roles. It takes no memory.
    pub(crate) fn from_vec(mut roles: Vec<Text>) -> RoleTexts
        ensures { result.items ≡ roles.items }
    {
        if roles.len() == 1 {
            return RoleTexts::one(roles.swap_remove(0));
        }
        RoleTexts {
            held: Held::Many(roles),
        }
    }

    /// A copy of roles.
    pub(crate) fn copy_of(alloc: Global, roles: &[Text]) -> Result<RoleTexts, NoMemory>
        ensures { IfOk result (λ copy. copy.items ≡ roles.now) }
    {
        Ok(RoleTexts::from_vec(copy_all(alloc, roles)?))
    }

    /// The same as a vector.
    pub(crate) fn into_vec(self, alloc: Global) -> Result<Vec<Text>, NoMemory>
        ensures { IfOk result (λ roles. roles.items ≡ self.items) }
    {
        let RoleTexts { held } = self;
        match held {
            Held::One(role) => vec_of(alloc, role),
            Held::Many(roles) => Ok(roles),
        }
    }

    /// Whether there is none.
    pub(crate) fn is_empty(&self) -> bool
        ensures { result ≡ (length self.now.items == 0) }
    {
        self.as_slice().is_empty()
    }

    /// The roles.
    pub(crate) fn as_slice(&self) -> &[Text]
        ensures { result.now ≡ self.now.items }
    {
        match &self.held {
            Held::One(role) => std::slice::from_ref(role),
            Held::Many(roles) => roles.as_slice(),
        }
    }

    /// Puts a role behind the others.
    pub(crate) fn push(&mut self, alloc: Global, role: Text) -> Result<(), NoMemory>
        ensures pushed { OnOk result (self.new.items ≡ self.old.items ++ role ∷ []) }
        ensures longer { length self.old.items ≤ length self.new.items }
    {
        let first = match &mut self.held {
            Held::Many(roles) => return push_role(roles, role),
            Held::One(before) => Text::from_str(alloc, before.as_str())?,
        };
        let mut roles = vec_of(alloc, first)?;
        push_role(&mut roles, role)?;
        self.held = Held::Many(roles);
        Ok(())
    }
}

impl Share for RoleTexts {}

// One role, with room for another.
fn vec_of(alloc: Global, role: Text) -> Result<Vec<Text>, NoMemory>
    ensures { IfOk result (λ roles. roles.items ≡ role ∷ []) }
{
    let mut roles = Vec::with_capacity(alloc, 2)?;
    roles.push_reserved(role);
    Ok(roles)
}

// Puts a role behind the others.
fn push_role(roles: &mut Vec<Text>, role: Text) -> Result<(), NoMemory>
    ensures pushed { OnOk result (roles.new.items ≡ roles.old.items ++ role ∷ []) }
    ensures longer { length roles.old.items ≤ length roles.new.items }
{
    roles.push(role)?;
    Ok(())
}
