//! Rows by the texts of their domains.

ghost use Rattle.std.specs.Prelude.{◌≡◌, ◌+◌, ◌∷◌, ℕ, List, [], IfNone, IfOk, IfSome, None, OnOk, Some, false, length};
ghost use Rattle.std.specs.Str.{bytes_eq};
ghost use Rattle.policy_table.specs.Tables.{Fields};
ghost use Rattle.role_domain.specs.Domains.{found};
ghost use Rattle.role_domain.specs.Helps.OwnRows.{HaveRows};

use crate::rows::{domain_of, domain_text};
use indexmap::IndexMap;
use outside::NoMemory;
use perm_base::Rule;
use policy_table::Rows;
use role_graph::{Name, NameHash};
use std::alloc::Global;
use std::marker::Model;

// For how many rows a domain has room at first.
const FIRST_ROWS: usize = 16;

/// Rows as they stand in their table, by the texts of their domains. A row is read where it stands, and not looked up by its
/// place a second time.
pub(crate) struct OwnRows<'a> {
    entries: IndexMap<Name, Vec<&'a Rule>, NameHash>,
}

// Written out, so that a caller's proof sees one call and not the drop of each field.
impl<'a> Drop for OwnRows<'a> {
    fn drop(self) {
        let OwnRows { entries: _entries } = self;
    }
}

impl<'a> Model for OwnRows<'a> {
    ghost use Rattle.role_domain.specs.Helps.OwnRows.{Owned};

    ghost Value = { Owned };

    ghost view = { λ o. o.entries.entries };
}

impl<'a> OwnRows<'a> {
    pub(crate) fn new(alloc: Global) -> OwnRows<'a>
        ensures { result ≡ [] }
    {
        OwnRows {
            entries: IndexMap::with_hasher(alloc, NameHash::new()),
        }
    }

    /// How many domains there are.
    pub(crate) fn len(&self) -> usize
        ensures { result ≡ length self.now }
    {
        self.entries.len()
    }

    /// Puts a row behind those of its domain.
    pub(crate) fn push(&mut self, alloc: Global, row: &'a Rule) -> Result<(), NoMemory>
        ensures { OnOk result ((all rest : List Fields)
            → HaveRows all (row.now ∷ rest) self.old → HaveRows all rest self.new) }
    {
        let text = domain_of(row);
        if let Some(own) = self.entries.get_mut(text) {
            own.push(row)?;
            return Ok(());
        }
        let mut first = Vec::with_capacity(alloc, FIRST_ROWS)?;
        first.push(row)?;
        let _none = self
            .entries
            .insert(Name::from_str(alloc, domain_text(row))?, first)?;
        Ok(())
    }

    /// Takes one of the domains out.
    pub(crate) fn pop(&mut self) -> Option<(Name, Vec<&'a Rule>)>
        ensures none { IfNone result (self.old ≡ []) }
        ensures there { IfSome result (λ one. found self.old one.0 ≡ Some one.1) }
        ensures gone { IfSome result (λ one. found self.new one.0 ≡ None) }
        ensures others { IfSome result (λ one. (other : List ℕ)
            → bytes_eq other one.0 ≡ false → found self.new other ≡ found self.old other) }
        ensures fewer { IfSome result (λ one. length self.old ≡ length self.new + 1) }
    {
        self.entries.pop()
    }
}

/// The rows of a table, by the texts of their domains.
pub(crate) fn rows_by_domain<'a>(alloc: Global, rows: Rows<'a>) -> Result<OwnRows<'a>, NoMemory>
    ensures { IfOk result (HaveRows rows.entry []) }
{
    let mut own = OwnRows::new(alloc);
    for row in rows {
        own.push(alloc, row)?;
    }
    Ok(own)
}
