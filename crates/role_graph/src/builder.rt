//! A graph that is made of rows which come one after the other.

ghost use Rattle.std.specs.Prelude.{◌≡◌, ◌+◌, ◌<◌, ◌≤◌, [], IfOk, OnOk, if◌then◌else◌, length};
ghost use Rattle.policy_table.specs.Tables.{Fields, same};
ghost use Rattle.role_graph.specs.Built.{IsCounted};
ghost use Rattle.role_graph.specs.Graph.{most_rows};
ghost use Rattle.role_graph.specs.Groups.{row, times};
ghost use Rattle.role_meaning.specs.Links.{role_of, user_of};

use crate::graph::{RoleGraph, graph_of};
use crate::link_groups::LinkGroups;
use crate::roles::Roles;
use crate::touched::MOST_NODES;
use outside::NoMemory;
use perm_base::{Fit, Rule};
use std::alloc::Global;
use std::marker::Model;

/// A graph that is being made: rows come one after the other, and the distances between roles are found once all are there.
/// Contracts see the rows, how names are compared with users, the hierarchy limit, and what is counted of the rows.
pub struct GraphBuilder {
    links: LinkGroups,
    limit: u8,
    roles: Roles,
    count: usize,
}

// Written out, so that a caller's proof sees one call and not the drop of each field.
impl Drop for GraphBuilder {
    fn drop(self) {
        let GraphBuilder {
            links: _links,
            limit: _limit,
            roles: _roles,
            count: _count,
        } = self;
    }
}

impl Model for GraphBuilder {
    ghost use Rattle.std.specs.Prelude.{◌≤◌};
    ghost use Rattle.role_graph.specs.Built.{Built};
    ghost use Rattle.role_graph.specs.Groups.{rows_of};
    ghost use Rattle.role_graph.specs.Helps.Kept.{linked_of};

    ghost Value = { Built };

    ghost view = { λ b. record {
      rows = rows_of (linked_of b.links).groups;
      names = b.links.names;
      limit = b.limit;
      roles = b.roles;
      count = b.count;
    } };

    ghost invariant = { λ b. (1 ≤ b.limit) × (b.limit ≤ 250) };
}

impl GraphBuilder {
    /// Without rows. It takes no memory.
    pub fn new(alloc: Global, names: Fit, limit: u8) -> GraphBuilder
        requires some { 1 ≤ limit }
        requires most { limit ≤ 250 }
        ensures rows { result.rows ≡ [] }
        ensures names { result.names ≡ names }
        ensures limit { result.limit ≡ limit }
        ensures counted { IsCounted result }
    {
        GraphBuilder {
            links: LinkGroups::new(alloc, names),
            limit,
            roles: Roles::new(alloc),
            count: 0,
        }
    }

    /// The same, with room for so many users and as many roles, of these for 1,024 at most. What is not needed is given back
    /// once the graph is made.
    pub fn with_room(
        alloc: Global,
        names: Fit,
        limit: u8,
        rows: usize,
    ) -> Result<GraphBuilder, NoMemory>
        requires some { 1 ≤ limit }
        requires most { limit ≤ 250 }
        ensures rows { IfOk result (λ graph. graph.rows ≡ []) }
        ensures names { IfOk result (λ graph. graph.names ≡ names) }
        ensures limit { IfOk result (λ graph. graph.limit ≡ limit) }
        ensures counted { IfOk result IsCounted }
    {
        let mut links = LinkGroups::new(alloc, names);
        let mut roles = Roles::new(alloc);
        links.reserve_plain(rows)?;
        roles.reserve(rows.min(MOST_NODES))?;
        Ok(GraphBuilder {
            links,
            limit,
            roles,
            count: 0,
        })
    }

    /// Adds the user and the role of a row.
    pub fn push(&mut self, alloc: Global, rule: &Rule) -> Result<(), NoMemory>
        requires columns { 2 ≤ length rule.now }
        requires counted { IsCounted self.old }
        requires few { length self.old.rows < most_rows }
        ensures rows { OnOk result ((one : Fields) → times one self.new.rows
            ≡ times one self.old.rows
            + (if same one (row (user_of rule.now) (role_of rule.now)) then 1 else 0)) }
        ensures long { OnOk result (length self.new.rows ≡ length self.old.rows + 1) }
        ensures counted { OnOk result (IsCounted self.new) }
        ensures names { self.new.names ≡ self.old.names }
        ensures limit { self.new.limit ≡ self.old.limit }
    {
        self.links.add(alloc, rule.text(0), rule.text(1))?;
        self.roles.add_text(alloc, rule.text(1))?;
        self.count += 1;
        Ok(())
    }

    /// The graph of the rows that came.
    pub fn build(self, alloc: Global) -> Result<RoleGraph, NoMemory>
        requires { IsCounted self }
        ensures rows { IfOk result (λ graph. (one : Fields)
            → times one graph.rows ≡ times one self.rows) }
        ensures names { IfOk result (λ graph. graph.names ≡ self.names) }
        ensures limit { IfOk result (λ graph. graph.limit ≡ self.limit) }
    {
        let GraphBuilder {
            links,
            limit,
            roles,
            count,
        } = self;
        let mut links = links;
        let mut roles = roles;
        links.fit();
        roles.fit();
        let graph = graph_of(alloc, links, limit, roles, count)?;
        Ok(graph)
    }
}
