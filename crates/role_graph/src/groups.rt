//! Rows by their users.

ghost use Rattle.std.specs.Prelude.{◌≡◌, ◌+◌, ◌<◌, ◌≤◌, ◌++◌, ◌∷◌, ℕ, Bool, List, [], All, true, IfOk, IfSome, IfNone, IsOk, OnErr, OnOk, MatchOption, get_or, if◌then◌else◌, length, vec_len};
ghost use Rattle.std.specs.List.{Contains, IsDistinct};
ghost use Rattle.std.specs.Str.{bytes_eq};
ghost use Rattle.role_graph.specs.Groups.{Group};
ghost use Rattle.role_graph.specs.Helps.Kept.{AreKept, roles_under};
ghost use Rattle.role_graph.specs.Helps.Walks.{no_group};

use crate::name::Name;
use crate::name_hash::NameHash;
use crate::role_texts::RoleTexts;
use indexmap::IndexMap;
use outside::{NoMemory, Share, Text};
use std::alloc::Global;
use std::marker::Model;

/// Groups with different users, each with some role, in an order of their own. Contracts see the
/// groups and the room.
pub(crate) struct Groups {
    entries: IndexMap<Name, RoleTexts, NameHash>,
}

// Written out, so that a caller's proof sees one call and not the drop of each field.
impl Drop for Groups {
    fn drop(self) {
        let Groups { entries: _entries } = self;
    }
}

impl Model for Groups {
    ghost use Rattle.indexmap.specs.IndexMap.{spare};
    ghost use Rattle.std.specs.Prelude.{map};
    ghost use Rattle.role_graph.specs.Helps.Kept.{AreKept, Kept, group_of};

    ghost Value = { Kept };

    ghost view = { λ g. record {
      groups = map group_of g.entries.entries;
      spare = spare g.entries;
    } };

    ghost invariant = { λ g. AreKept (map group_of g.entries.entries) };
}

impl Groups {
    pub(crate) fn new(alloc: Global) -> Groups
        ensures groups { result.groups ≡ [] }
        ensures kept { AreKept result.groups }
    {
        Groups {
            entries: IndexMap::with_hasher(alloc, NameHash::new()),
        }
    }

    /// How many groups there are.
    pub(crate) fn len(&self) -> usize
        ensures { result ≡ length self.now.groups }
    {
        self.entries.len()
    }

    /// The place of the group of a user.
    #[inline(always)]
    pub(crate) fn place_of(&self, user: &[u8]) -> Option<usize>
        ensures found { IfSome result (λ at. (at < length self.now.groups)
            × ((get_or self.now.groups at no_group).user ≡ user.now)
            × ((other : ℕ) → other < length self.now.groups
            → (get_or self.now.groups other no_group).user ≡ user.now → other ≡ at)) }
        ensures none { IfNone result ((at : ℕ) → at < length self.now.groups
            → (get_or self.now.groups at no_group).user ≡ user.now → ⊥) }
    {
        self.entries.get_index_of(user)
    }

    /// The user of a group.
    pub(crate) fn user_at(&self, group: usize) -> &[u8]
        requires { group < length self.now.groups }
        ensures { result.now ≡ (get_or self.now.groups group no_group).user }
    {
        self.name_at(group).bytes()
    }

    // The same as a name.
    fn name_at(&self, group: usize) -> &Name
        requires { group < length self.now.groups }
        ensures { result.now ≡ (get_or self.now.groups group no_group).user }
    {
        let Some((user, _)) = self.entries.get_index(group) else {
            unreachable!()
        };
        user
    }

    /// The roles of a group.
    pub(crate) fn roles_at(&self, group: usize) -> &[Text]
        requires { group < length self.now.groups }
        ensures { result.now ≡ (get_or self.now.groups group no_group).roles }
    {
        match self.entries.get_index(group) {
            Some((_, roles)) => roles.as_slice(),
            None => &[],
        }
    }

    /// The roles of a user's rows.
    pub(crate) fn roles_of(&self, user: &[u8]) -> &[Text]
        ensures { result.now ≡ roles_under user.now self.now.groups }
    {
        match self.entries.get(user) {
            Some(roles) => roles.as_slice(),
            None => &[],
        }
    }

    /// The same groups once more.
    pub(crate) fn copy(&self, alloc: Global) -> Result<Groups, NoMemory>
        ensures { IfOk result (λ copy. copy.groups ≡ self.now.groups) }
    {
        let len = self.entries.len();
        let mut entries = IndexMap::with_capacity_and_hasher(alloc, len, NameHash::new())?;
        for at in 0..len {
            let user = self.name_at(at).copy(alloc)?;
            let roles = RoleTexts::copy_of(alloc, self.roles_at(at))?;
            let _none = entries.insert(user, roles)?;
        }
        Ok(Groups { entries })
    }

    /// Makes room for so many further groups.
    pub(crate) fn reserve(&mut self, count: usize) -> Result<(), NoMemory>
        ensures same { self.new.groups ≡ self.old.groups }
        ensures room { OnOk result (count ≤ self.new.spare) }
        ensures more { self.old.spare ≤ self.new.spare }
    {
        Ok(self.entries.reserve(count)?)
    }

    /// Gives back the room for further groups.
    pub(crate) fn fit(&mut self)
        ensures { self.new.groups ≡ self.old.groups }
    {
        self.entries.shrink_to_fit();
    }

    /// Gives a user one role more.
    pub(crate) fn add(&mut self, alloc: Global, user: &str, role: Text) -> Result<(), NoMemory>
        ensures roles { OnOk result ((name : List ℕ) → roles_under name self.new.groups
            ≡ (if bytes_eq name user.now then roles_under user.now self.old.groups ++ role ∷ []
            else roles_under name self.old.groups)) }
        ensures kept { AreKept self.new.groups }
        ensures users { (test : List ℕ → Bool) → test user.now ≡ true
            → All (λ group. test group.user ≡ true) self.old.groups
            → All (λ group. test group.user ≡ true) self.new.groups }
        ensures few { length self.new.groups ≤ length self.old.groups + 1 }
    {
        if let Some(roles) = self.entries.get_mut(user.as_bytes()) {
            return roles.push(alloc, role);
        }
        let first = RoleTexts::one(role);
        self.entries.insert(Name::from_str(alloc, user)?, first)?;
        Ok(())
    }

    /// Gives a user these roles in place of those that it had; a user without roles has no group.
    pub(crate) fn put(&mut self, user: Name, roles: RoleTexts)
        requires { 0 < self.old.spare }
        ensures roles { (name : List ℕ) → roles_under name self.new.groups
            ≡ (if bytes_eq name user then roles.items else roles_under name self.old.groups) }
        ensures kept { AreKept self.new.groups }
        ensures users { (test : List ℕ → Bool) → test user ≡ true
            → All (λ group. test group.user ≡ true) self.old.groups
            → All (λ group. test group.user ≡ true) self.new.groups }
        ensures spare { self.old.spare ≤ self.new.spare + 1 }
    {
        if roles.is_empty() {
            let _gone = self.entries.swap_remove(user.bytes());
        } else {
            let _old = self.entries.insert(user, roles).unwrap();
        }
    }
}

impl Share for Groups {}
