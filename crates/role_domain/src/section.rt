//! A role relation over its domains.

ghost use Rattle.std.specs.Prelude.{◌≡◌, ◌+◌, ◌↔◌, ◌≤◌, ℕ, All, Bool, [], IfOk, IfSome, IsSome, IsTrue, List, is_some, length, true, unwrap_or};
ghost use Rattle.std.specs.List.{Contains};
ghost use Rattle.std.specs.Option.{option_copied};
ghost use Rattle.perm_base.specs.declared.shapes.TableId.TheVariants.{G};
ghost use Rattle.policy_table.specs.Changes.{applies, edited, flat, own};
ghost use Rattle.policy_table.specs.Limits.{role_columns};
ghost use Rattle.policy_table.specs.Tables.{Fields, place, rows};
ghost use Rattle.role_meaning.specs.Depths.{IsDepth};
ghost use Rattle.role_meaning.specs.Distances.{IsFar};
ghost use Rattle.role_meaning.specs.Implied.{AreImplied};
ghost use Rattle.role_meaning.specs.ImpliedUsers.{AreImpliedUsers};
ghost use Rattle.role_meaning.specs.Links.{HasRoles, IsLinked, domain_of, role_of, user_of};
ghost use Rattle.role_domain.specs.Reach.{ReachesName};
ghost use Rattle.role_domain.specs.Relations.{HasFewPatterns, HasFewRoles, Tells, TellsRows, asked_rows, counted, fit_of};
ghost use Rattle.role_graph.specs.Groups.{times};
ghost use Rattle.role_domain.specs.Sections.{IsPreparedFor, IsSectionOf, all_columns};

use crate::domain::graph_of;
use crate::domains::Domains;
use crate::moves::{moved, said};
use crate::patterns::{copy_rows, fitting, patterns_after, patterns_of};
use crate::prepared::PreparedSection;
use crate::terms::terms_of;
use crate::walk::{depth, distance, has_roles};
use dist_rows::Steps;
use outside::{NoMemory, Share, Text};
use perm_base::{RoleShape, Rule, TableId};
use policy_table::{Edit, Rows, Tables};
use role_graph::{Reach, RoleGraph, Room};
use role_meaning::links_are_decided;
use std::alloc::Global;
use std::marker::Model;
use std::sync::ledger::Ledger;

/// The greatest number of links that is told.
const FARTHEST: u8 = 254;

/// What tells that there are more links than that, or none at all.
const TOO_FAR: u8 = 255;

/// The domains of one role relation, whose rows stand in tables (Casbin, RBAC with domains). A relation
/// without domains is asked with none, and has one graph. Contracts see the shape, the hierarchy limit,
/// the domains, and the rows with a pattern as their domain. Of which rows a section is, they say by
/// `IsSectionOf`; a question is answered of these.
pub struct RoleSection {
    shape: RoleShape,
    limit: u8,
    domains: Domains,
    // The rows with a pattern as their domain.
    patterns: Vec<Rule>,
}

// Written out, so that a caller's proof sees one call and not the drop of each field.
impl Drop for RoleSection {
    fn drop(self) {
        let RoleSection {
            shape: _shape,
            limit: _limit,
            domains: _domains,
            patterns: _patterns,
        } = self;
    }
}

impl Model for RoleSection {
    ghost use Rattle.role_domain.specs.Helps.Kept.{IsKept};
    ghost use Rattle.role_domain.specs.Sections.{Section};

    ghost Value = { Section };

    ghost view = { λ s. record {
      shape = s.shape;
      limit = s.limit;
      domains = s.domains;
      patterns = s.patterns.items;
    } };

    ghost invariant = { λ s. IsKept s.shape s.limit s.patterns.items };
}

impl RoleSection {
    /// The section of the relation of a shape in these tables. Its time grows with the rules and, for
    /// each row between two roles, with the distances that it lowers.
    pub fn make(
        alloc: Global,
        shape: RoleShape,
        limit: u8,
        tables: &Tables,
    ) -> Result<RoleSection, NoMemory>
        requires some { 1 ≤ limit }
        requires most { limit ≤ 250 }
        requires placed { IsSome (place (G shape.number)) }
        requires columns { All (λ rule. length rule ≡ role_columns shape)
            (rows tables.now.policy (G shape.number)) }
        requires few { length (rows tables.now.policy (G shape.number)) ≤ 200000 }
        requires patterns { HasFewPatterns shape (rows tables.now.policy (G shape.number)) }
        ensures shape { IfOk result (λ section. section.shape ≡ shape) }
        ensures limit { IfOk result (λ section. section.limit ≡ limit) }
        ensures section { IfOk result (λ section.
            IsSectionOf section (rows tables.now.policy (G shape.number))) }
    {
        let terms = terms_of(shape, limit);
        let table = TableId::G(shape.number);
        let patterns = patterns_of(alloc, terms.domains, tables.rows(table))?;
        let mut domains = Domains::new(alloc);
        domains.fill(alloc, terms, tables, table, &patterns)?;
        Ok(RoleSection {
            shape,
            limit,
            domains,
            patterns,
        })
    }

    /// The same section once more, its room aside. Its time is linear in the rows and in the distances
    /// that are kept.
    pub fn copy(&self, alloc: Global) -> Result<RoleSection, NoMemory>
        ensures shape { IfOk result (λ copy. copy.shape ≡ self.now.shape) }
        ensures limit { IfOk result (λ copy. copy.limit ≡ self.now.limit) }
        ensures section { IfOk result (λ copy. (rows : List Fields)
            → IsSectionOf self.now rows → IsSectionOf copy rows) }
    {
        let shape = self.shape;
        let limit = self.limit;
        let domains = self.domains.copy(alloc)?;
        let patterns = copy_rows(alloc, &self.patterns)?;
        Ok(RoleSection {
            shape,
            limit,
            domains,
            patterns,
        })
    }

    /// The shape of the relation.
    pub fn shape(&self) -> RoleShape
        ensures { result ≡ self.now.shape }
    {
        self.shape
    }

    /// The greatest number of links by which a name has a role.
    pub fn limit(&self) -> u8
        ensures limit { result ≡ self.now.limit }
        ensures most { result ≤ 250 }
    {
        self.limit
    }

    /// Whether the one name reaches the other in the domain by at most as many links as the limit
    /// says (Casbin, `hasLink`). It takes no memory. A step is a kept distance that is read: where the
    /// domain has at most 1,024 roles, at most one for each row that counts there and whose user is
    /// the name or a pattern, and one more.
    pub fn linked<L: Ledger>(
        &self,
        x: &[u8],
        y: &[u8],
        domain: Option<&[u8]>,
        steps: &mut Steps<L>,
    ) -> bool
        requires { is_some domain ≡ self.now.shape.with_domain }
        ensures found { (rows : List Fields) → IsSectionOf self.now rows
            → IsTrue result ↔ IsLinked self.now.shape rows self.now.limit
            (option_copied domain.entry) x.now y.now }
        ensures steps { steps.old ≤ steps.new }
        ensures few_steps { (rows : List Fields) → IsSectionOf self.now rows
            → (test : Fields → Bool)
            → TellsRows self.now.shape rows (option_copied domain.entry) test
            → HasFewRoles self.now.shape rows (option_copied domain.entry)
            → steps.new ≤ steps.old + asked_rows self.now.shape test x.now rows + 1 }
    {
        links_are_decided();
        let text = asked(domain);
        match self.domains.get(text) {
            Some(found) => found.graph.linked(x, y, steps),
            None => {
                let terms = terms_of(self.shape, self.limit);
                distance(terms, &self.patterns, text, x, y, self.limit).is_some()
            }
        }
    }

    /// What the name reaches in the domain within the limit, found once; each question then reads it,
    /// in time that does not grow with the domain. None where no row names the domain. It takes no
    /// memory beside the room.
    pub fn reach<'a>(
        &'a self,
        x: &'a [u8],
        domain: Option<&[u8]>,
        room: &'a mut Room,
    ) -> Option<Reach<'a>>
        requires { is_some domain ≡ self.now.shape.with_domain }
        ensures { (rows : List Fields) → IsSectionOf self.now rows
            → IfSome result (λ reach. (y : List ℕ) → ReachesName reach y
            ↔ IsLinked self.now.shape rows self.now.limit (option_copied domain.entry) x.now y) }
    {
        links_are_decided();
        let text = asked(domain);
        let Some(found) = self.domains.get(text) else {
            return None;
        };
        Some(found.graph.reach(x, room))
    }

    /// Roles of a name in the domain, in no order of theirs: those of all its rows that have the
    /// domain's text are among them, beside those of its rows with a pattern as their domain which the
    /// text fits. It takes no memory, and its time does not grow with the domain.
    pub fn roles_of(&self, user: &[u8], domain: Option<&[u8]>) -> &[Text]
        requires { is_some domain ≡ self.now.shape.with_domain }
        ensures { (rows : List Fields) → IsSectionOf self.now rows
            → (row : Fields) → Contains rows row → user_of row ≡ user.now
            → domain_of row ≡ unwrap_or (option_copied domain.entry) []
            → Contains result.now (role_of row) }
    {
        links_are_decided();
        let text = asked(domain);
        let Some(found) = self.domains.get(text) else {
            return &[];
        };
        found.graph.roles_of(user)
    }

    /// The least number of links by which the one name reaches the other in the domain, or 255 where
    /// it is above 254 or there is none. It takes no memory, and as many steps as `linked`.
    pub fn far<L: Ledger>(
        &self,
        x: &[u8],
        y: &[u8],
        domain: Option<&[u8]>,
        steps: &mut Steps<L>,
    ) -> u8
        requires { is_some domain ≡ self.now.shape.with_domain }
        ensures far { (rows : List Fields) → IsSectionOf self.now rows
            → IsFar self.now.shape rows (option_copied domain.entry) x.now y.now result }
        ensures steps { steps.old ≤ steps.new }
        ensures few_steps { (rows : List Fields) → IsSectionOf self.now rows
            → (test : Fields → Bool)
            → TellsRows self.now.shape rows (option_copied domain.entry) test
            → HasFewRoles self.now.shape rows (option_copied domain.entry)
            → steps.new ≤ steps.old + asked_rows self.now.shape test x.now rows + 1 }
    {
        links_are_decided();
        let text = asked(domain);
        match self.domains.get(text) {
            Some(found) => found.graph.far(x, y, steps),
            None => {
                let terms = terms_of(self.shape, self.limit);
                distance(terms, &self.patterns, text, x, y, FARTHEST).unwrap_or(TOO_FAR)
            }
        }
    }

    /// Whether the name has a role in the domain: whether it fits the user of some row that counts
    /// there. It takes no memory.
    pub fn has_roles(&self, x: &[u8], domain: Option<&[u8]>) -> bool
        requires { is_some domain ≡ self.now.shape.with_domain }
        ensures { (rows : List Fields) → IsSectionOf self.now rows
            → IsTrue result ↔ HasRoles self.now.shape rows (option_copied domain.entry) x.now }
    {
        links_are_decided();
        let text = asked(domain);
        match self.domains.get(text) {
            Some(found) => found.graph.has_roles(x),
            None => has_roles(terms_of(self.shape, self.limit), &self.patterns, text, x),
        }
    }

    /// How deep the name stands in the domain: the least number of links by which it reaches a name
    /// without roles, and one more than the limit where it reaches none within it (Casbin, priority by
    /// the hierarchy of subjects). It takes no memory.
    pub fn depth(&self, x: &[u8], domain: Option<&[u8]>) -> u8
        requires { is_some domain ≡ self.now.shape.with_domain }
        ensures { (rows : List Fields) → IsSectionOf self.now rows
            → IsDepth self.now.shape rows self.now.limit (option_copied domain.entry) x.now
            result }
    {
        links_are_decided();
        let text = asked(domain);
        match self.domains.get(text) {
            Some(found) => found.graph.depth(x),
            None => {
                let terms = terms_of(self.shape, self.limit);
                depth(terms, &self.patterns, text, x, self.limit)
            }
        }
    }

    /// The names other than `x` that it reaches in the domain within the limit, the nearer first,
    /// those of one distance by bytes (Casbin, implicit roles).
    pub fn roles_within(
        &self,
        alloc: Global,
        x: &[u8],
        domain: Option<&[u8]>,
    ) -> Result<Rule, NoMemory>
        requires { is_some domain ≡ self.now.shape.with_domain }
        ensures { IfOk result (λ names. (rows : List Fields) → IsSectionOf self.now rows
            → AreImplied self.now.shape rows self.now.limit (option_copied domain.entry) x.now
            names) }
    {
        links_are_decided();
        let text = asked(domain);
        if let Some(found) = self.domains.get(text) {
            let names = found.graph.roles_within(alloc, x)?;
            return Ok(names);
        }
        let graph = self.unnamed_graph(alloc, text)?;
        let names = graph.roles_within(alloc, x)?;
        Ok(names)
    }

    /// The users of the rows of the relation that are no patterns, other than `x`, and that reach it in
    /// the domain within the limit: each once, by bytes (Casbin, implicit users). The rows are lent; the
    /// links of the domain are walked once, from `x` back; then each row's user is looked up.
    pub fn users_within(
        &self,
        alloc: Global,
        x: &[u8],
        domain: Option<&[u8]>,
        rows: Rows<'_>,
    ) -> Result<Rule, NoMemory>
        requires asked { is_some domain ≡ self.now.shape.with_domain }
        requires rows { IsSectionOf self.now rows }
        ensures { IfOk result (λ names. AreImpliedUsers self.now.shape rows.entry self.now.limit
            (option_copied domain.entry) x.now names) }
    {
        links_are_decided();
        let text = asked(domain);
        if let Some(there) = self.domains.get(text) {
            let names = there.graph.users_within(alloc, x, rows)?;
            return Ok(names);
        }
        let graph = self.unnamed_graph(alloc, text)?;
        let names = graph.users_within(alloc, x, rows)?;
        Ok(names)
    }

    // The graph of the rows that count in the domain of a text that no row has.
    fn unnamed_graph(&self, alloc: Global, text: &[u8]) -> Result<RoleGraph, NoMemory>
        ensures names { IfOk result (λ graph. graph.names ≡ self.now.shape.names) }
        ensures limit { IfOk result (λ graph. graph.limit ≡ self.now.limit) }
        ensures rows { IfOk result (λ graph. (test : List ℕ → Bool)
            → Tells (fit_of self.now.shape) text.now test → (one : Fields)
            → times one graph.rows ≡ counted test one self.now.patterns) }
    {
        let terms = terms_of(self.shape, self.limit);
        let pairs = fitting(alloc, terms.domains, text, &self.patterns)?;
        let graph = graph_of(alloc, terms.names, self.limit, &pairs, &[])?;
        Ok(graph)
    }

    /// Makes edits of the tables ready, before they are made there, so that `commit` needs no memory;
    /// changes of other tables are passed over. The section stays of the rows that it is of, whatever
    /// the answer. A row with a pattern as its domain is an edit of each domain that fits it. Where a
    /// role is new in a domain, the distances that are kept there are moved.
    pub fn prepare(
        &mut self,
        alloc: Global,
        edits: &[Edit],
        tables: &Tables,
    ) -> Result<PreparedSection, NoMemory>
        requires section { IsSectionOf self.old (rows tables.now.policy (G self.old.shape.number)) }
        requires possible { applies (flat edits.now) tables.now.policy ≡ true }
        requires columns { all_columns (role_columns self.old.shape)
            (own (G self.old.shape.number) (flat edits.now)) ≡ true }
        requires few { length (rows (edited (flat edits.now) tables.now.policy)
            (G self.old.shape.number)) ≤ 200000 }
        requires patterns { HasFewPatterns self.old.shape
            (rows (edited (flat edits.now) tables.now.policy) (G self.old.shape.number)) }
        ensures shape { self.new.shape ≡ self.old.shape }
        ensures limit { self.new.limit ≡ self.old.limit }
        ensures stays { (rows : List Fields) → IsSectionOf self.old rows
            → IsSectionOf self.new rows }
        ensures ready { IfOk result (IsPreparedFor self.new
            (rows (edited (flat edits.now) tables.now.policy) (G self.old.shape.number))) }
    {
        tables.kept();
        let table = TableId::G(self.shape.number);
        let terms = terms_of(self.shape, self.limit);
        let said = said(alloc, table, edits)?;
        let come = moved(alloc, tables, table, &said, true)?;
        let go = moved(alloc, tables, table, &said, false)?;
        let patterns = patterns_after(alloc, terms.domains, &self.patterns, &said, &come)?;
        let touched = self.domains.prepare(alloc, terms, &come, &go, &patterns)?;
        Ok(PreparedSection::new(touched, patterns))
    }

    /// Makes the edits that were prepared for this section as it stands. It takes no memory. Its time
    /// grows with the edits and, in each domain that they touch, with the distances that are kept there
    /// and change: where the last row of a role goes, with all of them. Where a role gets a role in a
    /// domain without distances, its roles are gone over, 1,024 at most.
    pub fn commit(&mut self, prepared: PreparedSection)
        requires { (after : List Fields) × IsPreparedFor self.old after prepared }
        ensures shape { self.new.shape ≡ self.old.shape }
        ensures limit { self.new.limit ≡ self.old.limit }
        ensures section { (after : List Fields) → IsPreparedFor self.old after prepared
            → IsSectionOf self.new after }
    {
        let (touched, patterns) = prepared.into_parts();
        self.domains.make(touched);
        self.patterns = patterns;
    }
}

impl Share for RoleSection {}

// The text of an asked domain; of none, the empty text.
fn asked<'a>(domain: Option<&'a [u8]>) -> &'a [u8]
    ensures { result.now ≡ unwrap_or (option_copied domain.entry) [] }
{
    match domain {
        Some(text) => text,
        None => &[],
    }
}
