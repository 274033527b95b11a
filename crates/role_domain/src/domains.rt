//! The domains of a relation by their texts.

ghost use Rattle.std.specs.Prelude.{◌≡◌, ◌+◌, ◌<◌, ◌≤◌, ℕ, List, [], IfOk, None, OnOk, Some, false, get_or, length, slice_get};
ghost use Rattle.std.specs.List.{IsDistinct};
ghost use Rattle.std.specs.Map.{keys_of};
ghost use Rattle.std.specs.Option.{option_copied};
ghost use Rattle.std.specs.Str.{bytes_eq};
ghost use Rattle.role_domain.specs.Domains.{AreDomains, Domains, IsRight, found};
ghost use Rattle.role_domain.specs.Helps.Copies.{contents_of};
ghost use Rattle.role_domain.specs.Relations.{Relation};
ghost use Rattle.role_domain.specs.Steps.{AreReady, IsReady};
ghost use Rattle.role_graph.specs.Graph.{IsPreparedFor};
ghost use Rattle.role_graph.specs.Groups.{after, times};
ghost use Rattle.policy_table.specs.Tables.{Fields};

use crate::domain::Domain;
use crate::prepared::DomainStep;
use indexmap::IndexMap;
use outside::{NoMemory, Share};
use role_graph::{Name, NameHash};
use std::alloc::Global;
use std::marker::Model;

/// The domains by their texts. Contracts see them, and for how many further ones there is room.
pub(crate) struct Domains {
    pub(crate) entries: IndexMap<Name, Domain, NameHash>,
}

// Written out, so that a caller's proof sees one call and not the drop of each field.
impl Drop for Domains {
    fn drop(self) {
        let Domains { entries: _entries } = self;
    }
}

impl Model for Domains {
    ghost use Rattle.indexmap.specs.IndexMap.{spare};
    ghost use Rattle.role_domain.specs.Domains.{Domains as ByText};

    ghost Value = { ByText };

    ghost view = { λ d. record {
      entries = d.entries.entries;
      spare = spare d.entries;
    } };
}

impl Domains {
    pub(crate) fn new(alloc: Global) -> Domains
        ensures { result.entries ≡ [] }
    {
        Domains {
            entries: IndexMap::with_hasher(alloc, NameHash::new()),
        }
    }

    /// The same domains once more, their room aside.
    pub(crate) fn copy(&self, alloc: Global) -> Result<Domains, NoMemory>
        ensures { IfOk result (λ copy. contents_of copy.entries ≡ contents_of self.now.entries) }
    {
        let len = self.len();
        let mut entries = IndexMap::with_capacity_and_hasher(alloc, len, NameHash::new())?;
        for at in 0..len {
            let (text, domain) = self.entry(at);
            let _none = entries.insert(text.copy(alloc)?, domain.copy(alloc)?)?;
        }
        Ok(Domains { entries })
    }

    // The text at a place, and its domain.
    fn entry(&self, at: usize) -> (&Name, &Domain)
        requires { at < length self.now.entries }
        ensures { slice_get self.now.entries at ≡ Some (result.0.now, result.1.now) }
    {
        let Some((text, domain)) = self.entries.get_index(at) else {
            unreachable!()
        };
        (text, domain)
    }

    /// The domain of a text. The first one, which is the only one where the relation has none, is found without a hash.
    pub(crate) fn get(&self, text: &[u8]) -> Option<&Domain>
        ensures { option_copied result ≡ found self.now.entries text.now }
    {
        if let Some((first, domain)) = self.entries.get_index(0) {
            if text == first.bytes() {
                return Some(domain);
            }
        }
        self.entries.get(text)
    }

    /// How many domains there are.
    pub(crate) fn len(&self) -> usize
        ensures count { result ≡ length self.now.entries }
        ensures once { IsDistinct bytes_eq (keys_of self.now.entries) }
    {
        self.entries.len()
    }

    /// The text at a place.
    pub(crate) fn text_at(&self, at: usize) -> &[u8]
        requires { at < length self.now.entries }
        ensures { result.now ≡ get_or (keys_of self.now.entries) at [] }
    {
        self.name_at(at).bytes()
    }

    /// The same as a name.
    pub(crate) fn name_at(&self, at: usize) -> &Name
        requires { at < length self.now.entries }
        ensures { result.now ≡ get_or (keys_of self.now.entries) at [] }
    {
        let Some((text, _)) = self.entries.get_index(at) else {
            unreachable!()
        };
        text
    }

    /// Makes room for so many further domains.
    pub(crate) fn reserve(&mut self, count: usize) -> Result<(), NoMemory>
        ensures same { self.new.entries ≡ self.old.entries }
        ensures room { OnOk result (count ≤ self.new.spare) }
    {
        Ok(self.entries.reserve(count)?)
    }

    /// Makes of touched domains what is to become of them.
    pub(crate) fn make(&mut self, mut touched: Vec<(Name, DomainStep)>)
        requires { (relation : Relation) × AreReady relation touched.items self.old }
        ensures { (relation : Relation) → AreReady relation touched.items self.old
            → AreDomains relation self.new.entries }
    {
        while let Some((text, step)) = touched.pop() {
            self.make_one(text, step);
        }
    }

    // Makes of one domain what is to become of it.
    fn make_one(&mut self, text: Name, step: DomainStep)
        requires ready { (relation : Relation)
            × IsReady relation text (found self.old.entries text) step }
        requires room { 0 < self.old.spare }
        ensures right { (relation : Relation)
            → IsReady relation text (found self.old.entries text) step
            → IsRight relation text (found self.new.entries text) }
        ensures others { (other : List ℕ) → bytes_eq other text ≡ false
            → found self.new.entries other ≡ found self.old.entries other }
        ensures spare { self.old.spare ≤ self.new.spare + 1 }
    {
        match step {
            DomainStep::Gone => self.take(text.bytes()),
            DomainStep::New(domain) => self.put(text, domain),
            DomainStep::Changed { own, edit } => self.change(text.bytes(), own, edit),
        }
    }

    // Takes the domain of a text out.
    fn take(&mut self, text: &[u8])
        ensures gone { found self.new.entries text.now ≡ None }
        ensures others { (other : List ℕ) → bytes_eq other text.now ≡ false
            → found self.new.entries other ≡ found self.old.entries other }
        ensures spare { self.old.spare ≤ self.new.spare }
    {
        let _gone = self.entries.swap_remove(text);
    }

    /// Gives a text a domain.
    pub(crate) fn put(&mut self, text: Name, domain: Domain)
        requires { 0 < self.old.spare }
        ensures there { found self.new.entries text ≡ Some domain }
        ensures others { (other : List ℕ) → bytes_eq other text ≡ false
            → found self.new.entries other ≡ found self.old.entries other }
        ensures spare { self.old.spare ≤ self.new.spare + 1 }
    {
        let Ok(_none) = self.entries.insert(text, domain) else {
            unreachable!()
        };
    }

    // Edits the graph of a text's domain.
    fn change(&mut self, text: &[u8], own: u64, edit: role_graph::PreparedGraph)
        requires { (domain : Domain) × (found self.old.entries text.now ≡ Some domain)
            × IsPreparedFor domain.graph edit }
        ensures there { (domain : Domain) → found self.old.entries text.now ≡ Some domain
            → (new : Domain) × (found self.new.entries text.now ≡ Some new)
            × (new.own ≡ own) × (new.graph.names ≡ domain.graph.names)
            × (new.graph.limit ≡ domain.graph.limit)
            × ((row : Fields) → times row new.graph.rows
            ≡ times row (after edit.changed domain.graph.rows)) }
        ensures others { (other : List ℕ) → bytes_eq other text.now ≡ false
            → found self.new.entries other ≡ found self.old.entries other }
        ensures spare { self.old.spare ≤ self.new.spare }
    {
        let Some(domain) = self.entries.get_mut(text) else {
            unreachable!()
        };
        domain.own = own;
        domain.graph.commit(edit);
    }
}

impl Share for Domains {}
