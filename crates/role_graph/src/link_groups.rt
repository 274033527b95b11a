//! The groups of a graph: those whose users are patterns apart from the others.

ghost use Rattle.std.specs.Prelude.{◌≡◌, ◌+◌, ◌<◌, ◌≤◌, ◌⊎◌, ◌++◌, ◌↔◌, ℕ, List, [], OnOk, IfNone, IfOk, IfSome, IsTrue, Some, get_or, if◌then◌else◌, length, true};
ghost use Rattle.std.specs.List.{Contains};
ghost use Rattle.perm_base.specs.Patterns.{is_pattern};
ghost use Rattle.policy_table.specs.Tables.{Fields, same};
ghost use Rattle.role_graph.specs.Groups.{after, row, rows_of, times};
ghost use Rattle.role_graph.specs.Helps.Kept.{AreApart, AreLinks, HasRoom, linked_of, roles_in};
ghost use Rattle.role_graph.specs.Helps.Lists.{Lists};
ghost use Rattle.role_graph.specs.Helps.Marks.{Extends, IsSet};
ghost use Rattle.role_graph.specs.Helps.Walks.{FitsAt, no_group};

use crate::edits::Edits;
use crate::groups::Groups;
use crate::marks::{Marks, reach};
use crate::short::{Listed, list_one};
use outside::{NoMemory, Share, Text};
use perm_base::{Fit, is_pattern};
use role_meaning::fits;
use std::alloc::Global;
use std::marker::Model;

/// The groups whose users are no patterns, and those whose users are. Contracts see the two parts.
pub(crate) struct LinkGroups {
    plain: Groups,
    patterned: Groups,
    names: Fit,
}

// Written out, so that a caller's proof sees one call and not the drop of each field.
impl Drop for LinkGroups {
    fn drop(self) {
        let LinkGroups {
            plain: _plain,
            patterned: _patterned,
            names: _names,
        } = self;
    }
}

impl Model for LinkGroups {
    ghost use Rattle.role_graph.specs.Helps.Kept.{AreLinks, Parts};

    ghost Value = { Parts };

    ghost view = { λ l. record { plain = l.plain; patterned = l.patterned; names = l.names } };

    ghost invariant = { λ l. AreLinks l.names l.plain.groups l.patterned.groups };
}

impl LinkGroups {
    pub(crate) fn new(alloc: Global, names: Fit) -> LinkGroups
        ensures plain { result.plain.groups ≡ [] }
        ensures patterned { result.patterned.groups ≡ [] }
        ensures names { result.names ≡ names }
        ensures sound { AreLinks result.names result.plain.groups result.patterned.groups }
    {
        LinkGroups {
            plain: Groups::new(alloc),
            patterned: Groups::new(alloc),
            names,
        }
    }

    /// The same links once more.
    pub(crate) fn copy(&self, alloc: Global) -> Result<LinkGroups, NoMemory>
        ensures plain { IfOk result (λ copy. copy.plain.groups ≡ self.now.plain.groups) }
        ensures patterned { IfOk result (λ copy. copy.patterned.groups
            ≡ self.now.patterned.groups) }
        ensures names { IfOk result (λ copy. copy.names ≡ self.now.names) }
    {
        let plain = self.plain.copy(alloc)?;
        let patterned = self.patterned.copy(alloc)?;
        let names = self.names;
        Ok(LinkGroups {
            plain,
            patterned,
            names,
        })
    }

    /// How names are compared with users.
    pub(crate) fn names(&self) -> Fit
        ensures { result ≡ self.now.names }
    {
        self.names
    }

    /// How many groups there are.
    pub(crate) fn len(&self) -> usize
        ensures count { result ≡ length (linked_of self.now).groups }
        ensures few { result ≤ 200000 }
        ensures sound { AreLinks self.now.names self.now.plain.groups self.now.patterned.groups }
    {
        self.plain.len() + self.patterned.len()
    }

    /// The roles of a user's rows.
    pub(crate) fn roles_of(&self, user: &[u8]) -> &[Text]
        ensures { result.now ≡ roles_in self.now user.now }
    {
        if is_pattern(self.names, user) {
            self.patterned.roles_of(user)
        } else {
            self.plain.roles_of(user)
        }
    }

    /// Adds a row of a user.
    pub(crate) fn add(&mut self, alloc: Global, user: &str, role: &str) -> Result<(), NoMemory>
        requires { length (rows_of (linked_of self.old).groups) < 200000 }
        ensures rows { OnOk result ((one : Fields) → times one (rows_of (linked_of self.new).groups)
            ≡ times one (rows_of (linked_of self.old).groups)
            + (if same one (row user.now role.now) then 1 else 0)) }
        ensures names { self.new.names ≡ self.old.names }
    {
        let text = Text::from_str(alloc, role)?;
        if is_patterned(self.names, user) {
            self.patterned.add(alloc, user, text)
        } else {
            self.plain.add(alloc, user, text)
        }
    }

    /// Makes room for so many further groups in each part.
    pub(crate) fn reserve(&mut self, count: usize) -> Result<(), NoMemory>
        ensures plain { self.new.plain.groups ≡ self.old.plain.groups }
        ensures patterned { self.new.patterned.groups ≡ self.old.patterned.groups }
        ensures names { self.new.names ≡ self.old.names }
        ensures room { OnOk result (HasRoom count self.new) }
        ensures more_plain { self.old.plain.spare ≤ self.new.plain.spare }
        ensures more_patterned { self.old.patterned.spare ≤ self.new.patterned.spare }
        ensures sound { AreLinks self.new.names self.new.plain.groups self.new.patterned.groups }
    {
        self.plain.reserve(count)?;
        self.patterned.reserve(count)
    }

    /// Makes room for so many further groups whose users are no patterns.
    pub(crate) fn reserve_plain(&mut self, count: usize) -> Result<(), NoMemory>
        ensures plain { self.new.plain.groups ≡ self.old.plain.groups }
        ensures patterned { self.new.patterned.groups ≡ self.old.patterned.groups }
        ensures names { self.new.names ≡ self.old.names }
    {
        self.plain.reserve(count)
    }

    /// Gives back the room for further groups.
    pub(crate) fn fit(&mut self)
        ensures plain { self.new.plain.groups ≡ self.old.plain.groups }
        ensures patterned { self.new.patterned.groups ≡ self.old.patterned.groups }
        ensures names { self.new.names ≡ self.old.names }
    {
        self.plain.fit();
        self.patterned.fit();
    }

    /// Gives each user of an edit the roles that it has afterwards.
    pub(crate) fn change(&mut self, mut edits: Edits)
        requires once { AreApart edits }
        requires room { HasRoom (length edits) self.old }
        requires few { length (after edits (rows_of (linked_of self.old).groups)) ≤ 200000 }
        ensures names { self.new.names ≡ self.old.names }
        ensures rows { (row : Fields) → times row (rows_of (linked_of self.new).groups)
            ≡ times row (after edits (rows_of (linked_of self.old).groups)) }
        ensures sound { AreLinks self.new.names self.new.plain.groups self.new.patterned.groups }
    {
        while let Some((user, roles)) = edits.pop() {
            if is_pattern(self.names, user.bytes()) {
                self.patterned.put(user, roles);
            } else {
                self.plain.put(user, roles);
            }
        }
    }

    /// The roles of a group.
    pub(crate) fn roles_at(&self, group: usize) -> &[Text]
        requires { group < length (linked_of self.now).groups }
        ensures { result.now ≡ (get_or (linked_of self.now).groups group no_group).roles }
    {
        let count = self.plain.len();
        if group < count {
            self.plain.roles_at(group)
        } else {
            self.patterned.roles_at(group - count)
        }
    }

    /// The first group from a place on whose user a name fits.
    pub(crate) fn next_fitting(&self, name: &[u8], from: usize) -> Option<usize>
        ensures found { IfSome result (λ at. (from ≤ at)
            × FitsAt (linked_of self.now) name.now at) }
        ensures first { IfSome result (λ at. (other : ℕ) → from ≤ other → other < at
            → FitsAt (linked_of self.now) name.now other → ⊥) }
        ensures none { IfNone result ((other : ℕ) → from ≤ other
            → FitsAt (linked_of self.now) name.now other → ⊥) }
    {
        let count = self.plain.len();
        if let Some(at) = self.text_from(name, from) {
            return Some(at);
        }
        self.next_pattern(name, from.max(count))
    }

    // The group whose user a name is, where it stands at a place or behind it.
    fn text_from(&self, name: &[u8], from: usize) -> Option<usize>
        ensures found { IfSome result (λ at. (from ≤ at) × (at < length self.now.plain.groups)
            × FitsAt (linked_of self.now) name.now at) }
        ensures first { (other : ℕ) → from ≤ other → other < length self.now.plain.groups
            → FitsAt (linked_of self.now) name.now other → result ≡ Some other }
    {
        if self.is_behind(name, from) {
            return None;
        }
        let Some(at) = self.plain.place_of(name) else {
            return None;
        };
        if at < from {
            return None;
        }
        Some(at)
    }

    // Whether a name is the user of the group before a place, so that it is that of none from there on: no hash is asked then.
    fn is_behind(&self, name: &[u8], from: usize) -> bool
        ensures { IsTrue result → (other : ℕ) → from ≤ other
            → other < length self.now.plain.groups → FitsAt (linked_of self.now) name.now other → ⊥ }
    {
        if from == 0 || from > self.plain.len() {
            return false;
        }
        name == self.plain.user_at(from - 1)
    }

    // The first group from a place on whose user is a pattern that a name fits.
    fn next_pattern(&self, name: &[u8], from: usize) -> Option<usize>
        requires { length self.now.plain.groups ≤ from }
        ensures found { IfSome result (λ at. (from ≤ at)
            × FitsAt (linked_of self.now) name.now at) }
        ensures first { IfSome result (λ at. (other : ℕ) → from ≤ other → other < at
            → FitsAt (linked_of self.now) name.now other → ⊥) }
        ensures none { IfNone result ((other : ℕ) → from ≤ other
            → FitsAt (linked_of self.now) name.now other → ⊥) }
    {
        let count = self.plain.len();
        for at in from..self.len() {
            if fits(self.names, name, self.patterned.user_at(at - count)) {
                return Some(at);
            }
        }
        None
    }

    /// Marks the groups whose users a name fits, and notes as new those that were not marked.
    pub(crate) fn mark(&self, name: &[u8], reached: &mut Marks, fresh: &mut Marks)
        ensures marked { (at : ℕ) → FitsAt (linked_of self.now) name.now at
            → IsSet reached.new at }
        ensures marks { Extends (λ at. FitsAt (linked_of self.now) name.now at) reached.old
            fresh.old reached.new fresh.new }
    {
        self.mark_text(name, reached, fresh);
        self.mark_patterns(name, reached, fresh);
    }

    /// Lists the groups whose users a name fits, and tells whether there is room.
    pub(crate) fn list(&self, name: &[u8], listed: &mut Listed) -> bool
        ensures { result ≡ true → Lists (FitsAt (linked_of self.now) name.now)
            (FitsAt (linked_of self.now) name.now) listed.old.items listed.new.items }
    {
        if !self.list_text(name, listed) {
            return false;
        }
        self.list_patterns(name, listed)
    }

    // Lists the group whose user a name is.
    fn list_text(&self, name: &[u8], listed: &mut Listed) -> bool
        ensures { result ≡ true → Lists
            (λ at. (at < length self.now.plain.groups) × FitsAt (linked_of self.now) name.now at)
            (λ at. FitsAt (linked_of self.now) name.now at) listed.old.items listed.new.items }
    {
        match self.plain.place_of(name) {
            Some(at) => list_one(at, listed),
            None => true,
        }
    }

    // Lists the groups whose users are patterns that a name fits.
    fn list_patterns(&self, name: &[u8], listed: &mut Listed) -> bool
        ensures { result ≡ true → Lists
            (λ at. (length self.now.plain.groups ≤ at) × FitsAt (linked_of self.now) name.now at)
            (λ at. FitsAt (linked_of self.now) name.now at) listed.old.items listed.new.items }
    {
        let count = self.plain.len();
        for at in 0..self.patterned.len() {
            if !fits(self.names, name, self.patterned.user_at(at)) {
                continue;
            }
            if !list_one(count + at, listed) {
                return false;
            }
        }
        true
    }

    /// Whether a name fits the user of some group.
    pub(crate) fn has_fitting(&self, name: &[u8]) -> bool
        ensures { IsTrue result ↔ ((at : ℕ) × FitsAt (linked_of self.now) name.now at) }
    {
        if let Some(_place) = self.plain.place_of(name) {
            return true;
        }
        self.has_pattern_for(name)
    }

    // Whether a name fits the user of a group that is a pattern.
    fn has_pattern_for(&self, name: &[u8]) -> bool
        ensures { IsTrue result ↔ ((at : ℕ) × (length self.now.plain.groups ≤ at)
            × FitsAt (linked_of self.now) name.now at) }
    {
        for at in 0..self.patterned.len() {
            if fits(self.names, name, self.patterned.user_at(at)) {
                return true;
            }
        }
        false
    }

    /// With which bytes the users begin, each as a bit of its remainder by 64: all bits where some user is a pattern.
    pub(crate) fn initials(&self) -> u64 {
        if self.patterned.len() > 0 {
            return u64::MAX;
        }
        let mut bits = 0;
        for at in 0..self.plain.len() {
            bits |= initial(self.plain.user_at(at));
        }
        bits
    }

    // Marks the group whose user is a name, unless it is marked.
    fn mark_text(&self, name: &[u8], reached: &mut Marks, fresh: &mut Marks)
        ensures marked { (at : ℕ) → at < length self.now.plain.groups
            → FitsAt (linked_of self.now) name.now at → IsSet reached.new at }
        ensures marks { Extends (λ at. FitsAt (linked_of self.now) name.now at) reached.old
            fresh.old reached.new fresh.new }
    {
        if let Some(at) = self.plain.place_of(name) {
            reach(at, reached, fresh);
        }
    }

    // Marks the groups whose users are patterns that a name fits.
    fn mark_patterns(&self, name: &[u8], reached: &mut Marks, fresh: &mut Marks)
        ensures marked { (at : ℕ) → length self.now.plain.groups ≤ at
            → FitsAt (linked_of self.now) name.now at → IsSet reached.new at }
        ensures marks { Extends (λ at. FitsAt (linked_of self.now) name.now at) reached.old
            fresh.old reached.new fresh.new }
    {
        let count = self.plain.len();
        for at in 0..self.patterned.len() {
            if fits(self.names, name, self.patterned.user_at(at)) {
                reach(count + at, reached, fresh);
            }
        }
    }
}

impl Share for LinkGroups {}

/// With which byte a name begins, as a bit.
pub(crate) fn initial(name: &[u8]) -> u64 {
    1 << (name.first().copied().unwrap_or(0) % 64)
}

// Whether a user is a pattern. Where names are compared as they stand none is, and no byte is looked at.
fn is_patterned(names: Fit, user: &str) -> bool
    ensures { result ≡ is_pattern names user.now }
{
    if let Fit::Exact = names {
        return false;
    }
    is_pattern(names, user.as_bytes())
}
