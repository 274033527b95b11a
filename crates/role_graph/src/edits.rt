//! Users whose rows change, with all their roles afterwards.

ghost use Rattle.std.specs.Prelude.{◌≡◌, ◌+◌, ◌<◌, ◌≤◌, ◌++◌, ◌∷◌, ℕ, List, [], true, false, IfOk, OnOk, IfSome, IfNone, get_or, count_by, if◌then◌else◌, length};
ghost use Rattle.std.specs.Str.{bytes_eq};
ghost use Rattle.policy_table.specs.Tables.{Fields, same};
ghost use Rattle.role_graph.specs.Groups.{Group};
ghost use Rattle.role_graph.specs.Helps.Kept.{AreApart, roles_in};
ghost use Rattle.role_graph.specs.Helps.Edits.{counted_rows, overlay, standing};
ghost use Rattle.role_graph.specs.Helps.Roles.{count_of};
ghost use Rattle.role_graph.specs.Helps.Walks.{no_group};

use crate::link_groups::LinkGroups;
use crate::name::Name;
use crate::role_texts::RoleTexts;
use crate::roles::Roles;
use indexmap::IndexMap;
use outside::{NoMemory, Text};
use perm_base::Rule;
use std::alloc::Global;
use std::marker::Model;

/// The users whose rows change. Contracts see them, each with the roles that it has afterwards.
pub(crate) struct Edits {
    entries: IndexMap<Name, RoleTexts>,
}

// Written out, so that a caller's proof sees one call and not the drop of each field.
impl Drop for Edits {
    fn drop(self) {
        let Edits { entries: _entries } = self;
    }
}

impl Model for Edits {
    ghost use Rattle.std.specs.Prelude.{List, map};
    ghost use Rattle.role_graph.specs.Groups.{Group};
    ghost use Rattle.role_graph.specs.Helps.Kept.{AreApart, group_of};

    ghost Value = { List Group };

    ghost view = { λ p. map group_of p.entries.entries };

    ghost invariant = { λ p. AreApart (map group_of p.entries.entries) };
}

impl Edits {
    pub(crate) fn new(alloc: Global) -> Edits
        ensures { result ≡ [] }
    {
        Edits {
            entries: IndexMap::new(alloc),
        }
    }

    /// How many users there are.
    pub(crate) fn len(&self) -> usize
        ensures count { result ≡ length self.now }
        ensures apart { AreApart self.now }
    {
        self.entries.len()
    }

    /// A user whose rows change.
    pub(crate) fn user_at(&self, place: usize) -> &[u8]
        requires { place < length self.now }
        ensures { result.now ≡ (get_or self.now place no_group).user }
    {
        match self.entries.get_index(place) {
            Some((user, _)) => user.bytes(),
            None => &[],
        }
    }

    /// Whether the rows of a user change.
    pub(crate) fn has_user(&self, user: &[u8]) -> bool {
        self.entries.get(user).is_some()
    }

    /// The last user and its roles afterwards.
    pub(crate) fn pop(&mut self) -> Option<(Name, RoleTexts)>
        ensures none { IfNone result (self.old ≡ []) }
        ensures some { IfSome result (λ r. self.old
            ≡ self.new ++ record { user = r.0; roles = r.1.items } ∷ []) }
    {
        self.entries.pop()
    }

    /// Adds a row of two fields, given the graph that is edited.
    pub(crate) fn add(
        &mut self,
        links: &LinkGroups,
        alloc: Global,
        rule: &Rule,
    ) -> Result<(), NoMemory>
        requires { length rule.now ≡ 2 }
        ensures { OnOk result ((one : Fields) → standing links.now self.new one
            ≡ standing links.now self.old one + (if same one rule.now then 1 else 0)) }
    {
        let mut roles = self.take(links, alloc, rule.field(0))?;
        roles.push(Text::from_str(alloc, rule.text(1))?)?;
        self.put(Name::from_str(alloc, rule.text(0))?, roles)
    }

    /// Takes rows of a user out that stand, given the graph that is edited: each as often as its role is counted. Its time is
    /// that of the roles that the user has.
    pub(crate) fn remove_counted(
        &mut self,
        links: &LinkGroups,
        alloc: Global,
        user: &str,
        gone: Roles,
    ) -> Result<(), NoMemory>
        requires { (role : List ℕ) → count_of gone role
            ≤ count_by (bytes_eq role) (overlay self.old (roles_in links.now user.now) user.now) }
        ensures { OnOk result ((one : Fields) → standing links.now self.new one
            + counted_rows user.now gone one ≡ standing links.now self.old one) }
    {
        let mut roles = self.take(links, alloc, user.as_bytes())?;
        take_out(&mut roles, gone);
        self.put(Name::from_str(alloc, user)?, roles)
    }

    // Takes a user out, and gives the roles that it has so far.
    fn take(
        &mut self,
        links: &LinkGroups,
        alloc: Global,
        user: &[u8],
    ) -> Result<Vec<Text>, NoMemory>
        ensures roles { IfOk result (λ roles. roles.items
            ≡ overlay self.old (roles_in links.now user.now) user.now) }
        ensures others { OnOk result ((name : List ℕ) (base : List (List ℕ))
            → bytes_eq name user.now ≡ false
            → overlay self.new base name ≡ overlay self.old base name) }
    {
        match self.entries.swap_remove(user) {
            Some(roles) => roles.into_vec(alloc),
            None => copy_and_room(alloc, links.roles_of(user)),
        }
    }

    // Gives a user, which stands nowhere, these roles.
    fn put(&mut self, user: Name, roles: Vec<Text>) -> Result<(), NoMemory>
        ensures { OnOk result ((name : List ℕ) (base : List (List ℕ)) → overlay self.new base name
            ≡ (if bytes_eq name user then roles.items else overlay self.old base name)) }
    {
        self.entries.insert(user, RoleTexts::from_vec(roles))?;
        Ok(())
    }
}

// Takes texts out, each as often as it is counted.
fn take_out(texts: &mut Vec<Text>, mut gone: Roles)
    requires { (name : List ℕ) → count_of gone name
        ≤ count_by (bytes_eq name) texts.old.items }
    ensures { (name : List ℕ) → count_by (bytes_eq name) texts.new.items + count_of gone name
        ≡ count_by (bytes_eq name) texts.old.items }
{
    let mut at = 0;
    while at < texts.len() {
        if !gone.take_one(text_at(texts, at)) {
            at += 1;
            continue;
        }
        let _gone = texts.swap_remove(at);
    }
}

// The text at a place.
fn text_at(texts: &[Text], at: usize) -> &[u8]
    requires { at < length texts.now }
    ensures { result.now ≡ get_or texts.now at [] }
{
    texts[at].bytes()
}

/// A copy of texts.
pub(crate) fn copy_all(alloc: Global, texts: &[Text]) -> Result<Vec<Text>, NoMemory>
    ensures { IfOk result (λ copy. copy.items ≡ texts.now) }
{
    copy_in(alloc, texts, texts.len())
}

// A copy of texts, with room for one more: most users have few roles, and a list that grows takes room for four.
fn copy_and_room(alloc: Global, texts: &[Text]) -> Result<Vec<Text>, NoMemory>
    ensures { IfOk result (λ copy. copy.items ≡ texts.now) }
{
    copy_in(alloc, texts, texts.len() + 1)
}

// A copy of texts in a list with so much room.
fn copy_in(alloc: Global, texts: &[Text], room: usize) -> Result<Vec<Text>, NoMemory>
    ensures { IfOk result (λ copy. copy.items ≡ texts.now) }
{
    let mut copy = Vec::with_capacity(alloc, room)?;
    for text in texts {
        copy.push(Text::from_str(alloc, text.as_str())?)?;
    }
    Ok(copy)
}
