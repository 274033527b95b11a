//! Lists of names.

ghost use Rattle.std.specs.Prelude.{◌≡◌, ◌<◌, ◌^◌, ◌++◌, ◌∷◌, [], get_or, IfSome, IfNone, OnOk, length};

use crate::name::Name;
use outside::NoMemory;
use std::alloc::Global;
use std::marker::Model;

/// A list of names. Contracts see it as a list.
pub(crate) struct Names {
    names: Vec<Name>,
}

// Written out, so that a caller's proof sees one call and not the drop of each field.
impl Drop for Names {
    fn drop(self) {
        let Names { names: _names } = self;
    }
}

impl Model for Names {
    ghost use Rattle.std.specs.Prelude.{List, ℕ};

    ghost Value = { List (List ℕ) };

    ghost view = { λ n. n.names.items };
}

impl Names {
    pub(crate) fn new(alloc: Global) -> Names
        ensures { result ≡ [] }
    {
        Names {
            names: Vec::new(alloc),
        }
    }

    /// How many there are.
    pub(crate) fn len(&self) -> usize
        ensures count { result ≡ length self.now }
        ensures small { result < 2 ^ 63 }
    {
        self.names.len()
    }

    /// The name at a place.
    pub(crate) fn at(&self, at: usize) -> &Name
        requires { at < length self.now }
        ensures { result.now ≡ get_or self.now at [] }
    {
        &self.names[at]
    }

    /// Puts a copy of a text behind the others.
    pub(crate) fn push(&mut self, alloc: Global, name: &str) -> Result<(), NoMemory>
        ensures { OnOk result (self.new ≡ self.old ++ name.now ∷ []) }
    {
        self.names.push(Name::from_str(alloc, name)?)?;
        Ok(())
    }

    /// Takes the last name out.
    pub(crate) fn pop(&mut self) -> Option<Name>
        ensures none { IfNone result (self.old ≡ []) }
        ensures some { IfSome result (λ name. self.old ≡ self.new ++ name ∷ []) }
    {
        self.names.pop()
    }
}
