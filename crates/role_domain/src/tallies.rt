//! What rows bring to the domains that they touch.

ghost use Rattle.std.specs.Prelude.{◌≡◌, ◌+◌, ◌<◌, ◌≤◌, ◌^◌, ◌||◌, ◌&&◌, ◌++◌, ◌∷◌, ℕ, Bool, List, [], All, IfOk, OnOk, false, get_or, is_some, if◌then◌else◌, length, true};
ghost use Rattle.std.specs.List.{IsDistinct};
ghost use Rattle.std.specs.Map.{keys_of};
ghost use Rattle.std.specs.Str.{bytes_eq};
ghost use Rattle.role_domain.specs.Domains.{found};
ghost use Rattle.role_domain.specs.Helps.Tallies.{Brings, has_text, own_at, rows_at};
ghost use Rattle.role_domain.specs.Relations.{pair_of};

use crate::rows::pair_of;
use crate::tally::Tally;
use indexmap::IndexMap;
use outside::NoMemory;
use perm_base::Rule;
use role_graph::Name;
use std::alloc::Global;
use std::marker::Model;

/// Tallies by the texts of their domains.
pub(crate) struct Tallies {
    entries: IndexMap<Name, Tally>,
}

// Written out, so that a caller's proof sees one call and not the drop of each field.
impl Drop for Tallies {
    fn drop(self) {
        let Tallies { entries: _entries } = self;
    }
}

impl Model for Tallies {
    ghost use Rattle.role_domain.specs.Helps.Tallies.{Tallies};

    ghost Value = { Tallies };

    ghost view = { λ t. t.entries.entries };
}

impl Tallies {
    pub(crate) fn new(alloc: Global) -> Tallies
        ensures { result ≡ [] }
    {
        Tallies {
            entries: IndexMap::new(alloc),
        }
    }

    /// How many texts there are.
    pub(crate) fn len(&self) -> usize
        ensures count { result ≡ length self.now }
        ensures once { IsDistinct bytes_eq (keys_of self.now) }
    {
        self.entries.len()
    }

    /// The text at a place.
    pub(crate) fn text_at(&self, at: usize) -> &[u8]
        requires { at < length self.now }
        ensures { result.now ≡ get_or (keys_of self.now) at [] }
    {
        self.name_at(at).bytes()
    }

    /// The same as a name.
    pub(crate) fn name_at(&self, at: usize) -> &Name
        requires { at < length self.now }
        ensures { result.now ≡ get_or (keys_of self.now) at [] }
    {
        let Some((text, _)) = self.entries.get_index(at) else {
            unreachable!()
        };
        text
    }

    /// How many of the rows have a text as their domain.
    pub(crate) fn own_of(&self, text: &[u8]) -> u64
        ensures { result ≡ own_at self.now text.now }
    {
        match self.entries.get(text) {
            Some(tally) => tally.own,
            None => 0,
        }
    }

    /// The users and roles that rows bring to the domain of a text.
    pub(crate) fn rows_of(&self, text: &[u8]) -> &[Rule]
        ensures { result.now ≡ rows_at self.now text.now }
    {
        match self.entries.get(text) {
            Some(tally) => tally.rows.as_slice(),
            None => &[],
        }
    }

    /// Makes a text one of those that are touched.
    pub(crate) fn touch(&mut self, alloc: Global, text: &str) -> Result<(), NoMemory>
        ensures texts { OnOk result ((other : List ℕ) → has_text self.new other
            ≡ (bytes_eq other text.now || has_text self.old other)) }
        ensures own { (other : List ℕ) → own_at self.new other ≡ own_at self.old other }
        ensures rows { (other : List ℕ) → rows_at self.new other ≡ rows_at self.old other }
    {
        if let Some(_there) = self.entries.get(text.as_bytes()) {
            return Ok(());
        }
        let tally = Tally {
            own: 0,
            rows: Vec::new(alloc),
        };
        let _none = self.entries.insert(Name::from_str(alloc, text)?, tally)?;
        Ok(())
    }

    /// Counts a row with a text as its domain.
    pub(crate) fn count(&mut self, alloc: Global, text: &str) -> Result<(), NoMemory>
        requires { own_at self.old text.now + 1 < 2 ^ 64 }
        ensures own { OnOk result ((other : List ℕ) → own_at self.new other
            ≡ own_at self.old other + (if bytes_eq other text.now then 1 else 0)) }
        ensures rows { (other : List ℕ) → rows_at self.new other ≡ rows_at self.old other }
    {
        self.touch(alloc, text)?;
        let Some(tally) = self.entries.get_mut(text.as_bytes()) else {
            unreachable!()
        };
        tally.own += 1;
        Ok(())
    }

    /// Brings the user and the role of a row to the domain of a text.
    pub(crate) fn push(&mut self, alloc: Global, text: &str, row: &Rule) -> Result<(), NoMemory>
        requires { 2 ≤ length row.now }
        ensures own { OnOk result ((other : List ℕ) → own_at self.new other
            ≡ own_at self.old other) }
        ensures rows { OnOk result ((other : List ℕ) → rows_at self.new other
            ≡ (if bytes_eq other text.now then rows_at self.old other ++ pair_of row.now ∷ []
            else rows_at self.old other)) }
    {
        self.touch(alloc, text)?;
        let pair = pair_of(alloc, row)?;
        let Some(tally) = self.entries.get_mut(text.as_bytes()) else {
            unreachable!()
        };
        tally.rows.push(pair)?;
        Ok(())
    }

    /// Makes the texts of other tallies some of those that are touched.
    pub(crate) fn touch_all(&mut self, alloc: Global, others: &Tallies) -> Result<(), NoMemory>
        ensures mine { OnOk result ((text : List ℕ) → has_text self.new text ≡ false
            → has_text self.old text ≡ false) }
        ensures theirs { OnOk result ((text : List ℕ) → has_text self.new text ≡ false
            → has_text others.now text ≡ false) }
        ensures own { (text : List ℕ) → own_at self.new text ≡ own_at self.old text }
        ensures rows { (text : List ℕ) → rows_at self.new text ≡ rows_at self.old text }
    {
        for at in 0..others.len() {
            self.touch(alloc, others.name_at(at).as_str())?;
        }
        Ok(())
    }
}
