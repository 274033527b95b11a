//! The roles of a graph's rows.

ghost use Rattle.std.specs.Prelude.{◌≡◌, false, true, ◌+◌, ◌++◌, ◌<◌, ◌≤◌, ◌⊎◌, ◌^◌, ◌↔◌, [], List, ℕ, IfNone, IfOk, IfSome, IsOk, IsTrue, OnOk, Some, get_or, if◌then◌else◌, length, slice_get};
ghost use Rattle.std.specs.List.{Contains, IsDistinct, count_by, list_any};
ghost use Rattle.std.specs.Str.{bytes_eq};
ghost use Rattle.perm_base.specs.LineEnds.{has_line_end};
ghost use Rattle.role_graph.specs.Helps.Roles.{HasNames, HasNoZero, count_of, nodes_of};

use crate::name::Name;
use crate::name_hash::NameHash;
use crate::names::Names;
use indexmap::IndexMap;
use outside::{NoMemory, Share, Text};
use std::alloc::Global;
use std::marker::Model;

/// The different roles of rows, each with the number of its rows, at places of their own.
pub(crate) struct Roles {
    counts: IndexMap<Name, u64, NameHash>,
}

// Written out, so that a caller's proof sees one call and not the drop of each field.
impl Drop for Roles {
    fn drop(self) {
        let Roles { counts: _counts } = self;
    }
}

impl Model for Roles {
    ghost use Rattle.indexmap.specs.IndexMap.{spare};
    ghost use Rattle.role_graph.specs.Helps.Roles.{Counted, HasNames, HasNoZero};

    ghost Value = { Counted };

    ghost view = { λ r. record {
      entries = r.counts.entries;
      spare = spare r.counts;
    } };

    ghost invariant = { λ r. HasNoZero r.counts.entries
        × HasNames r.counts.entries };
}

impl Roles {
    pub(crate) fn new(alloc: Global) -> Roles
        ensures counts { (role : List ℕ) → count_of result role ≡ 0 }
        ensures none { nodes_of result ≡ [] }
    {
        Roles {
            counts: IndexMap::with_hasher(alloc, NameHash::new()),
        }
    }

    /// The same counts once more.
    pub(crate) fn copy(&self, alloc: Global) -> Result<Roles, NoMemory>
        ensures { IfOk result (λ copy. copy.entries ≡ self.now.entries) }
    {
        let len = self.len();
        let mut counts = IndexMap::with_capacity_and_hasher(alloc, len, NameHash::new())?;
        for at in 0..len {
            let (role, count) = self.entry(at);
            let _none = counts.insert(role.copy(alloc)?, count)?;
        }
        Ok(Roles { counts })
    }

    // The role at a place, and how often it is counted.
    fn entry(&self, at: usize) -> (&Name, u64)
        requires { at < length self.now.entries }
        ensures { slice_get self.now.entries at ≡ Some (result.0.now, result.1) }
    {
        let Some((role, count)) = self.counts.get_index(at) else {
            unreachable!()
        };
        (role, *count)
    }

    // How often a role is counted.
    fn count(&self, role: &[u8]) -> u64
        ensures { result ≡ count_of self.now role.now }
    {
        match self.counts.get(role) {
            Some(count) => *count,
            None => 0,
        }
    }

    /// How many different roles there are.
    pub(crate) fn len(&self) -> usize
        ensures count { result ≡ length (nodes_of self.now) }
        ensures small { result < 2 ^ 63 }
        ensures once { IsDistinct bytes_eq (nodes_of self.now) }
        ensures some { HasNoZero self.now.entries }
        ensures names { HasNames self.now.entries }
    {
        self.counts.len()
    }

    /// The role at a place.
    pub(crate) fn name_at(&self, node: usize) -> &[u8]
        requires { node < length (nodes_of self.now) }
        ensures { result.now ≡ get_or (nodes_of self.now) node [] }
    {
        self.key_at(node).bytes()
    }

    /// The role at a place, as a text.
    pub(crate) fn text_at(&self, node: usize) -> &str
        requires { node < length (nodes_of self.now) }
        ensures { result.now ≡ get_or (nodes_of self.now) node [] }
    {
        self.key_at(node).as_str()
    }

    // The same as a name.
    fn key_at(&self, node: usize) -> &Name
        requires { node < length (nodes_of self.now) }
        ensures { result.now ≡ get_or (nodes_of self.now) node [] }
    {
        let Some((name, _)) = self.counts.get_index(node) else {
            unreachable!()
        };
        name
    }

    /// The place of a role.
    pub(crate) fn place_of(&self, name: &[u8]) -> Option<usize>
        ensures found { IfSome result (λ node. (node < length (nodes_of self.now))
            × (get_or (nodes_of self.now) node [] ≡ name.now)) }
        ensures none { IfNone result (Contains (nodes_of self.now) name.now → ⊥) }
        ensures once { IsDistinct bytes_eq (nodes_of self.now) }
    {
        self.counts.get_index_of(name)
    }

    /// Makes room for so many further roles.
    pub(crate) fn reserve(&mut self, count: usize) -> Result<(), NoMemory>
        ensures same { self.new.entries ≡ self.old.entries }
        ensures room { OnOk result (count ≤ self.new.spare) }
        ensures more { self.old.spare ≤ self.new.spare }
    {
        Ok(self.counts.reserve(count)?)
    }

    /// Gives back the room for further roles.
    pub(crate) fn fit(&mut self)
        ensures { self.new.entries ≡ self.old.entries }
    {
        self.counts.shrink_to_fit();
    }

    /// Counts a role once more; a new one gets the last place.
    pub(crate) fn add(&mut self, role: Name)
        requires few { count_of self.old role + 1 < 2 ^ 64 }
        requires whole_line { has_line_end role ≡ false }
        requires room { 0 < self.old.spare }
        ensures counted { (name : List ℕ) → count_of self.new name
            ≡ count_of self.old name + (if bytes_eq name role then 1 else 0) }
        ensures spare { self.old.spare ≤ self.new.spare + 1 }
        ensures places { (more : List (List ℕ))
            × (nodes_of self.new ≡ nodes_of self.old ++ more) }
    {
        let count = self.count(role.bytes()) + 1;
        let Ok(_before) = self.counts.insert(role, count) else {
            unreachable!()
        };
    }

    /// Counts a role once more; a new one is copied.
    pub(crate) fn add_text(&mut self, alloc: Global, role: &str) -> Result<(), NoMemory>
        requires few { count_of self.old role.now + 1 < 2 ^ 64 }
        requires whole_line { has_line_end role.now ≡ false }
        ensures { OnOk result ((name : List ℕ) → count_of self.new name
            ≡ count_of self.old name + (if bytes_eq name role.now then 1 else 0)) }
    {
        if let Some(count) = self.counts.get_mut(role.as_bytes()) {
            *count += 1;
            return Ok(());
        }
        let _none = self.counts.insert(Name::from_str(alloc, role)?, 1)?;
        Ok(())
    }

    /// Counts a role once less, where it is counted; whether it was.
    pub(crate) fn take_one(&mut self, role: &[u8]) -> bool
        ensures taken { result ≡ true → (name : List ℕ) → count_of self.new name
            + (if bytes_eq name role.now then 1 else 0) ≡ count_of self.old name }
        ensures none { result ≡ false → count_of self.old role.now ≡ 0 }
        ensures same { result ≡ false → (name : List ℕ)
            → count_of self.new name ≡ count_of self.old name }
    {
        if self.count(role) == 0 {
            return false;
        }
        self.take(role);
        true
    }

    // Counts a role once less; the last one gets the place of one that is gone.
    fn take(&mut self, role: &[u8])
        requires { 1 ≤ count_of self.old role.now }
        ensures counted { (name : List ℕ) → count_of self.new name
            + (if bytes_eq name role.now then 1 else 0) ≡ count_of self.old name }
        ensures places { (nodes_of self.new ≡ nodes_of self.old)
            ⊎ (length (nodes_of self.new) < length (nodes_of self.old)) }
    {
        let count = self.count(role);
        if count == 1 {
            let _last = self.counts.swap_remove(role);
        } else if let Some(left) = self.counts.get_mut(role) {
            *left = count - 1;
        }
    }

    /// Counts some roles once more and others once less. Tells whether none is gone, so that all keep
    /// their places.
    pub(crate) fn recount(&mut self, added: Names, removed: &[Text]) -> bool
        requires few { (name : List ℕ) → count_of self.old name + length added < 2 ^ 64 }
        requires room { length added ≤ self.old.spare }
        requires whole_lines { list_any has_line_end added ≡ false }
        requires stand { (name : List ℕ) → count_by (bytes_eq name) removed.now
            ≤ count_of self.old name + count_by (bytes_eq name) added }
        ensures counted { (name : List ℕ) → count_of self.new name
            + count_by (bytes_eq name) removed.now
            ≡ count_of self.old name + count_by (bytes_eq name) added }
        ensures once { IsDistinct bytes_eq (nodes_of self.new) }
        ensures some { HasNoZero self.new.entries }
        ensures whole { IsTrue result → (more : List (List ℕ))
            × (nodes_of self.new ≡ nodes_of self.old ++ more) }
    {
        self.add_all(added);
        let grown = self.len();
        self.take_all(removed);
        self.len() == grown
    }

    // Counts roles once more.
    fn add_all(&mut self, mut roles: Names)
        requires few { (name : List ℕ) → count_of self.old name + length roles < 2 ^ 64 }
        requires room { length roles ≤ self.old.spare }
        requires whole_lines { list_any has_line_end roles ≡ false }
        ensures counted { (name : List ℕ) → count_of self.new name
            ≡ count_of self.old name + count_by (bytes_eq name) roles }
        ensures places { (more : List (List ℕ))
            × (nodes_of self.new ≡ nodes_of self.old ++ more) }
    {
        while let Some(role) = roles.pop() {
            self.add(role);
        }
    }

    // Counts roles once less.
    fn take_all(&mut self, roles: &[Text])
        requires { (name : List ℕ) → count_by (bytes_eq name) roles.now ≤ count_of self.old name }
        ensures counted { (name : List ℕ) → count_of self.new name
            + count_by (bytes_eq name) roles.now ≡ count_of self.old name }
        ensures places { (nodes_of self.new ≡ nodes_of self.old)
            ⊎ (length (nodes_of self.new) < length (nodes_of self.old)) }
    {
        for role in roles {
            self.take(role.bytes());
        }
    }
}

impl Share for Roles {}
