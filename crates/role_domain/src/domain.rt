//! The rows that count in one domain.

ghost use Rattle.std.specs.Prelude.{◌≡◌, ◌+◌, ◌≤◌, All, IfOk, List, OnOk, length, map};
ghost use Rattle.policy_table.specs.Tables.{Fields};
ghost use Rattle.role_domain.specs.Domains.{IsDomain};
ghost use Rattle.role_domain.specs.Helps.Copies.{content_of};
ghost use Rattle.role_domain.specs.Helps.OwnRows.{CanMake, is_plain_text, lent, named_rows};
ghost use Rattle.role_domain.specs.Relations.{counted, pair_of};
ghost use Rattle.role_graph.specs.Built.{IsCounted};
ghost use Rattle.role_graph.specs.Graph.{most_rows};
ghost use Rattle.role_graph.specs.Groups.{times};

use crate::patterns::fitting;
use crate::terms::Terms;
use outside::{NoMemory, Share};
use perm_base::{Fit, Rule, is_pattern};
use role_graph::{GraphBuilder, RoleGraph};
use role_meaning::links_are_decided;
use std::alloc::Global;

/// A domain whose text some row has: how many rows do, and the graph of the rows that count there.
pub(crate) struct Domain {
    pub(crate) own: u64,
    pub(crate) graph: RoleGraph,
}

// Written out, so that a caller's proof sees one call and not the drop of each field.
impl Drop for Domain {
    fn drop(self) {
        let Domain {
            own: _own,
            graph: _graph,
        } = self;
    }
}

impl Domain {
    /// The same domain once more, the room of its graph aside.
    pub(crate) fn copy(&self, alloc: Global) -> Result<Domain, NoMemory>
        ensures { IfOk result (λ copy. content_of copy ≡ content_of self.now) }
    {
        let own = self.own;
        let graph = self.graph.copy(alloc)?;
        Ok(Domain { own, graph })
    }
}

impl Share for Domain {}

/// The domain of a text, made of the rows that have it as theirs, given all rows with a pattern as their domain.
pub(crate) fn domain_with(
    alloc: Global,
    terms: Terms,
    text: &[u8],
    own: &[&Rule],
    patterns: &[Rule],
) -> Result<Domain, NoMemory>
    requires { (all : List Fields) × CanMake terms text.now all (lent own.now) patterns.now }
    ensures { IfOk result (λ domain. (all : List Fields)
        → CanMake terms text.now all (lent own.now) patterns.now
        → IsDomain (record { terms = terms; rows = all }) text.now domain) }
{
    links_are_decided();
    let count = own.len() as u64;
    let pairs = fitting(alloc, terms.domains, text, patterns)?;
    let mut graph = graph_with(alloc, terms, text, own)?;
    push_all(alloc, &mut graph, &pairs)?;
    let graph = graph.build(alloc)?;
    Ok(Domain { own: count, graph })
}

// The graph that is being made of the rows that have a text as their domain. A pattern counts in all domains that fit it, and is
// brought to them at the end.
fn graph_with(
    alloc: Global,
    terms: Terms,
    text: &[u8],
    own: &[&Rule],
) -> Result<GraphBuilder, NoMemory>
    requires wide { All (λ row. 2 ≤ length row.now) own.now }
    requires few { length own.now ≤ most_rows }
    requires least { 1 ≤ terms.limit }
    requires most { terms.limit ≤ 250 }
    ensures rows { IfOk result (λ graph. (all : List Fields)
        → lent own.now ≡ named_rows text.now all → (one : Fields)
        → times one graph.rows ≡ counted (is_plain_text terms.domains text.now) one all) }
    ensures names { IfOk result (λ graph. graph.names ≡ terms.names) }
    ensures limit { IfOk result (λ graph. graph.limit ≡ terms.limit) }
    ensures counted { IfOk result IsCounted }
{
    if is_pattern(terms.domains, text) {
        return Ok(GraphBuilder::new(alloc, terms.names, terms.limit));
    }
    let users = count_users(own);
    let mut graph = GraphBuilder::with_room(alloc, terms.names, terms.limit, users)?;
    push_own(alloc, &mut graph, own)?;
    Ok(graph)
}

// How many users stand in rows, where one counts again behind another. It reads all rows one behind the other, which is faster than to
// read each when it is needed.
fn count_users(own: &[&Rule]) -> usize
    requires { All (λ row. 2 ≤ length row.now) own.now }
{
    let mut count = 0usize;
    let mut last: &[u8] = &[];
    for row in own {
        let user = row.field(0);
        if count == 0 || user != last {
            count = count.saturating_add(1);
        }
        last = user;
    }
    count
}

// Adds the users and the roles of rows as they stand in their table.
fn push_own(alloc: Global, graph: &mut GraphBuilder, own: &[&Rule]) -> Result<(), NoMemory>
    requires wide { All (λ row. 2 ≤ length row.now) own.now }
    requires counted { IsCounted graph.old }
    requires few { length graph.old.rows + length own.now ≤ most_rows }
    ensures rows { OnOk result ((one : Fields) → times one graph.new.rows
        ≡ times one graph.old.rows + times one (map pair_of (lent own.now))) }
    ensures counted { OnOk result (IsCounted graph.new) }
    ensures names { OnOk result (graph.new.names ≡ graph.old.names) }
    ensures limit { OnOk result (graph.new.limit ≡ graph.old.limit) }
{
    for row in own {
        graph.push(alloc, row)?;
    }
    Ok(())
}

/// The graph of the rows of two lists.
pub(crate) fn graph_of(
    alloc: Global,
    names: Fit,
    limit: u8,
    first: &[Rule],
    second: &[Rule],
) -> Result<RoleGraph, NoMemory>
    requires first { All (λ row. length row ≡ 2) first.now }
    requires second { All (λ row. length row ≡ 2) second.now }
    requires few { length first.now + length second.now ≤ most_rows }
    requires some { 1 ≤ limit }
    requires most { limit ≤ 250 }
    ensures names { IfOk result (λ graph. graph.names ≡ names) }
    ensures limit { IfOk result (λ graph. graph.limit ≡ limit) }
    ensures rows { IfOk result (λ graph. (row : Fields)
        → times row graph.rows ≡ times row first.now + times row second.now) }
{
    let mut graph = GraphBuilder::new(alloc, names, limit);
    push_all(alloc, &mut graph, first)?;
    push_all(alloc, &mut graph, second)?;
    let graph = graph.build(alloc)?;
    Ok(graph)
}

/// Adds rows of two fields to a graph that is being made.
pub(crate) fn push_all(
    alloc: Global,
    graph: &mut GraphBuilder,
    rows: &[Rule],
) -> Result<(), NoMemory>
    requires two { All (λ row. length row ≡ 2) rows.now }
    requires counted { IsCounted graph.old }
    requires few { length graph.old.rows + length rows.now ≤ most_rows }
    ensures rows { OnOk result ((one : Fields)
        → times one graph.new.rows ≡ times one graph.old.rows + times one rows.now) }
    ensures counted { OnOk result (IsCounted graph.new) }
    ensures names { OnOk result (graph.new.names ≡ graph.old.names) }
    ensures limit { OnOk result (graph.new.limit ≡ graph.old.limit) }
{
    for row in rows {
        graph.push(alloc, row)?;
    }
    Ok(())
}
