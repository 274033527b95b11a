//! What becomes of the domains that rows touch which come and go.

ghost use Rattle.std.specs.Prelude.{◌≡◌, ◌+◌, ◌<◌, ◌≤◌, ◌^◌, ◌&&◌, ◌++◌, ◌∷◌, ℕ, Bool, List, [], All, IfOk, None, OnOk, Some, false, if◌then◌else◌, is_some, length};
ghost use Rattle.std.specs.List.{IsDistinct};
ghost use Rattle.std.specs.Map.{keys_of};
ghost use Rattle.std.specs.Str.{bytes_eq};
ghost use Rattle.policy_table.specs.Tables.{Fields, rows};
ghost use Rattle.role_meaning.specs.Links.{domain_of};
ghost use Rattle.role_domain.specs.Domains.{AreDomains, IsDomain, IsRight, found};
ghost use Rattle.role_domain.specs.Helps.Tallies.{Brings, Tallies, has_text, own_at, rows_at};
ghost use Rattle.role_domain.specs.Helps.Turns.{CanStep, CanTurn, IsTurnOf, Turn, after_of, first_turn};
ghost use Rattle.role_domain.specs.Relations.{Relation, Tells, pair_of};
ghost use Rattle.role_domain.specs.Steps.{AreReady, IsReady};

use crate::domain::{Domain, domain_with, graph_of};
use crate::domains::Domains;
use crate::own_rows::rows_by_domain;
use crate::patterns::fitting;
use crate::prepared::DomainStep;
use crate::rows::{domain_of, domain_text};
use crate::tallies::Tallies;
use crate::terms::Terms;
use outside::NoMemory;
use perm_base::{Fit, Rule, TableId, is_pattern};
use policy_table::Tables;
use role_graph::Name;
use role_meaning::{fits, links_are_decided};
use std::alloc::Global;

impl Domains {
    /// Makes the domains of the rows of a table where there are none, one after the other, given those of the rows that have a
    /// pattern as their domain.
    pub(crate) fn fill(
        &mut self,
        alloc: Global,
        terms: Terms,
        tables: &Tables,
        table: TableId,
        patterns: &[Rule],
    ) -> Result<(), NoMemory>
        requires { CanTurn (first_turn terms (rows tables.now.policy table)) self.old
            patterns.now }
        ensures { OnOk result (AreDomains
            (after_of (first_turn terms (rows tables.now.policy table))) self.new.entries) }
    {
        let mut owned = rows_by_domain(alloc, tables.rows(table))?;
        self.reserve(owned.len())?;
        while let Some((text, own)) = owned.pop() {
            let domain = domain_with(alloc, terms, text.bytes(), &own, patterns)?;
            self.put(text, domain);
        }
        Ok(())
    }

    /// Tells what becomes of the domains that rows touch which come and go, given the rows with a pattern as their domain
    /// afterwards, and makes room for it. The domains stay as they are, whatever the answer.
    pub(crate) fn prepare(
        &mut self,
        alloc: Global,
        terms: Terms,
        come: &[Rule],
        go: &[Rule],
        patterns: &[Rule],
    ) -> Result<Vec<(Name, DomainStep)>, NoMemory>
        requires { (turn : Turn) × IsTurnOf turn terms come.now go.now
            × CanTurn turn self.old patterns.now }
        ensures ready { IfOk result (λ touched. (turn : Turn) → IsTurnOf turn terms come.now go.now
            → CanTurn turn self.old patterns.now
            → AreReady (after_of turn) touched.items self.new) }
        ensures kept { (relation : Relation) → AreDomains relation self.old.entries
            → AreDomains relation self.new.entries }
    {
        let mut coming = gather(alloc, terms.domains, self, come)?;
        let going = gather(alloc, terms.domains, self, go)?;
        coming.touch_all(alloc, &going)?;
        let touched = self.steps(alloc, terms, &coming, &going, patterns)?;
        self.reserve(touched.len())?;
        Ok(touched)
    }

    // Tells it for each text of the tallies of rows that come.
    fn steps(
        &mut self,
        alloc: Global,
        terms: Terms,
        coming: &Tallies,
        going: &Tallies,
        patterns: &[Rule],
    ) -> Result<Vec<(Name, DomainStep)>, NoMemory>
        requires { (turn : Turn) × (turn.terms ≡ terms) × ((text : List ℕ)
            → CanStep turn text (found self.old.entries text) coming.now going.now patterns.now) }
        ensures texts { IfOk result (λ touched.
            keys_of touched.items ≡ keys_of coming.now) }
        ensures once { IsDistinct bytes_eq (keys_of coming.now) }
        ensures ready { IfOk result (λ touched. (turn : Turn) → turn.terms ≡ terms
            → ((text : List ℕ) → CanStep turn text (found self.old.entries text) coming.now
            going.now patterns.now)
            → All (λ one. IsReady (after_of turn) one.0 (found self.new.entries one.0) one.1)
            touched.items) }
        ensures others { (text : List ℕ) → has_text coming.now text ≡ false
            → found self.new.entries text ≡ found self.old.entries text }
        ensures right { (relation : Relation) (text : List ℕ)
            → IsRight relation text (found self.old.entries text)
            → IsRight relation text (found self.new.entries text) }
    {
        let mut touched = Vec::new(alloc);
        for at in 0..coming.len() {
            let text = coming.text_at(at);
            let step = self.step(alloc, terms, text, coming, going, patterns)?;
            touched.push((coming.name_at(at).copy(alloc)?, step))?;
        }
        Ok(touched)
    }

    // Tells it for one text.
    fn step(
        &mut self,
        alloc: Global,
        terms: Terms,
        text: &[u8],
        coming: &Tallies,
        going: &Tallies,
        patterns: &[Rule],
    ) -> Result<DomainStep, NoMemory>
        requires { (turn : Turn) × (turn.terms ≡ terms) × CanStep turn text.now
            (found self.old.entries text.now) coming.now going.now patterns.now }
        ensures ready { IfOk result (λ step. (turn : Turn) → turn.terms ≡ terms
            → CanStep turn text.now (found self.old.entries text.now) coming.now going.now
            patterns.now
            → IsReady (after_of turn) text.now (found self.new.entries text.now) step) }
        ensures right { (relation : Relation)
            → IsRight relation text.now (found self.old.entries text.now)
            → IsRight relation text.now (found self.new.entries text.now) }
        ensures others { (other : List ℕ) → bytes_eq other text.now ≡ false
            → found self.new.entries other ≡ found self.old.entries other }
    {
        if let Some(domain) = self.entries.get_mut(text) {
            let step = step_of(alloc, domain, text, coming, going)?;
            return Ok(step);
        }
        if coming.own_of(text) == 0 {
            return Ok(DomainStep::Gone);
        }
        Ok(DomainStep::New(new_domain(alloc, terms, text, coming, patterns)?))
    }
}

// What becomes of a domain that is there.
fn step_of(
    alloc: Global,
    domain: &mut Domain,
    text: &[u8],
    coming: &Tallies,
    going: &Tallies,
) -> Result<DomainStep, NoMemory>
    requires { (turn : Turn) × (patterns : List Fields)
        × CanStep turn text.now (Some domain.old) coming.now going.now patterns }
    ensures ready { IfOk result (λ step. (turn : Turn) (patterns : List Fields)
        → CanStep turn text.now (Some domain.old) coming.now going.now patterns
        → IsReady (after_of turn) text.now (Some domain.new) step) }
    ensures right { (relation : Relation) → IsDomain relation text.now domain.old
        → IsDomain relation text.now domain.new }
{
    links_are_decided();
    let own = domain.own + coming.own_of(text) - going.own_of(text);
    if own == 0 {
        return Ok(DomainStep::Gone);
    }
    let edit = domain
        .graph
        .prepare(alloc, coming.rows_of(text), going.rows_of(text))?;
    Ok(DomainStep::Changed { own, edit })
}

// The domain of a text that no row had.
fn new_domain(
    alloc: Global,
    terms: Terms,
    text: &[u8],
    coming: &Tallies,
    patterns: &[Rule],
) -> Result<Domain, NoMemory>
    requires can { (turn : Turn) × (going : Tallies) × (turn.terms ≡ terms)
        × CanStep turn text.now None coming.now going patterns.now }
    requires some { 0 < own_at coming.now text.now }
    ensures { IfOk result (λ domain. (turn : Turn) (going : Tallies) → turn.terms ≡ terms
        → CanStep turn text.now None coming.now going patterns.now
        → IsDomain (after_of turn) text.now domain) }
{
    links_are_decided();
    let own = coming.own_of(text);
    let pairs = fitting(alloc, terms.domains, text, patterns)?;
    let graph = graph_of(
        alloc,
        terms.names,
        terms.limit,
        coming.rows_of(text),
        &pairs,
    )?;
    Ok(Domain { own, graph })
}

// What rows bring to the domains that they touch.
fn gather(alloc: Global, fit: Fit, domains: &Domains, rows: &[Rule]) -> Result<Tallies, NoMemory>
    requires { All (λ row. 2 ≤ length row) rows.now }
    ensures { IfOk result (λ tallies. (text : List ℕ)
        → Brings fit (is_some (found domains.now.entries text)) text rows.now tallies) }
{
    let mut tallies = Tallies::new(alloc);
    for row in rows {
        add(alloc, &mut tallies, fit, domains, row)?;
    }
    Ok(tallies)
}

// Brings one row more.
fn add(
    alloc: Global,
    tallies: &mut Tallies,
    fit: Fit,
    domains: &Domains,
    row: &Rule,
) -> Result<(), NoMemory>
    requires columns { 2 ≤ length row.now }
    requires few { own_at tallies.old (domain_of row.now) + 1 < 2 ^ 64 }
    ensures { OnOk result ((text : List ℕ) (rows : List Fields)
        → Brings fit (is_some (found domains.now.entries text)) text rows tallies.old
        → Brings fit (is_some (found domains.now.entries text)) text (rows ++ row.now ∷ [])
        tallies.new) }
{
    links_are_decided();
    let text = domain_text(row);
    tallies.count(alloc, text)?;
    if is_pattern(fit, domain_of(row)) {
        push_fitting(alloc, tallies, fit, domains, row)?;
        return Ok(());
    }
    tallies.push(alloc, text, row)?;
    Ok(())
}

// Brings a row whose domain is a pattern to the domains that fit it.
fn push_fitting(
    alloc: Global,
    tallies: &mut Tallies,
    fit: Fit,
    domains: &Domains,
    row: &Rule,
) -> Result<(), NoMemory>
    requires { 2 ≤ length row.now }
    ensures own { OnOk result ((text : List ℕ) → own_at tallies.new text
        ≡ own_at tallies.old text) }
    ensures rows { OnOk result ((text : List ℕ) (test : List ℕ → Bool) → Tells fit text test
        → rows_at tallies.new text
        ≡ (if is_some (found domains.now.entries text) && test (domain_of row.now)
        then rows_at tallies.old text ++ pair_of row.now ∷ [] else rows_at tallies.old text)) }
{
    for at in 0..domains.len() {
        let text = domains.text_at(at);
        if !fits(fit, text, domain_of(row)) {
            continue;
        }
        tallies.push(alloc, domains.name_at(at).as_str(), row)?;
    }
    Ok(())
}
