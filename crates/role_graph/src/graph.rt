//! The role graph of one domain.

ghost use Rattle.std.specs.Prelude.{◌≡◌, ◌+◌, ◌≤◌, ◌↔◌, All, [], IfOk, OnOk, IsTrue, List, None, length, map, ℕ};
ghost use Rattle.std.specs.List.{Contains};
ghost use Rattle.role_meaning.specs.Depths.{IsDepth};
ghost use Rattle.role_meaning.specs.Implied.{AreImplied};
ghost use Rattle.role_meaning.specs.ImpliedUsers.{AreUsersOf};
ghost use Rattle.role_meaning.specs.Links.{HasRoles, role_of, user_of};
ghost use Rattle.policy_table.specs.Limits.{different};
ghost use Rattle.policy_table.specs.Tables.{Fields};
ghost use Rattle.role_graph.specs.Groups.{after, row, rows_of, rows_with, times};
ghost use Rattle.role_graph.specs.Helps.Edits.{standing};
ghost use Rattle.role_graph.specs.Helps.Kept.{linked_of};
ghost use Rattle.role_graph.specs.Helps.Roles.{count_of};
ghost use Rattle.role_graph.specs.Reach.{reached_in};
ghost use Rattle.role_graph.specs.Graph.{GraphReaches, IsGraphFar, IsPreparedFor, asked_rows, most_rows, shape_of};

use crate::asked::{FARTHEST, TOO_FAR, nearest};
use crate::closure::{refresh, square_of};
use crate::edits::Edits;
use crate::implied::implied;
use crate::link_groups::LinkGroups;
use crate::prepared::{PreparedGraph, names_of, roles_of};
use crate::reach::{Reach, Room};
use crate::reached_roles::{mark_kept, mark_walked};
use crate::removal::remove_all;
use crate::role_list::listed;
use crate::roles::Roles;
use crate::room::reserve_square;
use crate::touched::touched;
use crate::users::users_among;
use crate::walk::{depth, distance};
use dist_rows::{DistRows, Steps};
use outside::{NoMemory, Share, Text};
use perm_base::{Fit, Rule};
use policy_table::Rows;
use std::alloc::Global;
use std::marker::Model;
use std::sync::ledger::Ledger;

/// The rows of a role relation that count in one domain. Contracts see the rows, in an order of the
/// graph's own, how names are compared with users, the hierarchy limit, and the room for more.
///
/// Where some role is below another, and at most 1,024 different roles stand, the distances between these
/// are kept, a byte for each pair, and questions read them; else questions walk the rows, and also where of
/// more than 128 roles fewer than 32 have roles of their own.
pub struct RoleGraph {
    alloc: Global,
    links: LinkGroups,
    limit: u8,
    // How many rows have each role, and how many rows there are.
    roles: Roles,
    count: usize,
    // The distances between the roles, of which each is a node; none where none are kept.
    square: DistRows,
}

// Written out, so that a caller's proof sees one call and not the drop of each field.
impl Drop for RoleGraph {
    fn drop(self) {
        let RoleGraph {
            alloc: _alloc,
            links: _links,
            limit: _limit,
            roles: _roles,
            count: _count,
            square: _square,
        } = self;
    }
}

impl Model for RoleGraph {
    ghost use Rattle.std.specs.Prelude.{min};
    ghost use Rattle.role_graph.specs.Graph.{Graph};
    ghost use Rattle.role_graph.specs.Groups.{rows_of};
    ghost use Rattle.role_graph.specs.Helps.Kept.{IsSound, linked_of};

    ghost Value = { Graph };

    ghost view = { λ g. record {
      rows = rows_of (linked_of g.links).groups;
      names = g.links.names;
      limit = g.limit;
      spare = min g.links.plain.spare g.links.patterned.spare;
      spare_roles = g.roles.spare;
    } };

    ghost invariant = { λ g. IsSound g.links g.limit g.roles g.count g.square.cells };
}

/// A graph without rows, whose users are compared by `names`. It takes no memory.
pub fn new_graph(alloc: Global, names: Fit, limit: u8) -> RoleGraph
    requires some { 1 ≤ limit }
    requires most { limit ≤ 250 }
    ensures rows { result.rows ≡ [] }
    ensures names { result.names ≡ names }
    ensures limit { result.limit ≡ limit }
{
    RoleGraph {
        alloc,
        links: LinkGroups::new(alloc, names),
        limit,
        roles: Roles::new(alloc),
        count: 0,
        square: DistRows::empty(alloc),
    }
}

/// A graph of links, whose rows have these roles and are so many.
pub(crate) fn graph_of(
    alloc: Global,
    links: LinkGroups,
    limit: u8,
    roles: Roles,
    count: usize,
) -> Result<RoleGraph, NoMemory>
    requires few { length (rows_of (linked_of links).groups) ≤ most_rows }
    requires some { 1 ≤ limit }
    requires most { limit ≤ 250 }
    requires counted { (role : List ℕ) → count_of roles role
        ≡ rows_with role (rows_of (linked_of links).groups) }
    requires number { count ≡ length (rows_of (linked_of links).groups) }
    ensures rows { IfOk result (λ graph. graph.rows ≡ rows_of (linked_of links).groups) }
    ensures names { IfOk result (λ graph. graph.names ≡ links.names) }
    ensures limit { IfOk result (λ graph. graph.limit ≡ limit) }
{
    let _sound = links.len();
    let _once = roles.len();
    let square = square_of(alloc, &links, &roles)?;
    Ok(RoleGraph {
        alloc,
        links,
        limit,
        roles,
        count,
        square,
    })
}

impl RoleGraph {
    /// The same graph once more, its room aside. Its time is linear in the rows and in the distances
    /// that are kept.
    pub fn copy(&self, alloc: Global) -> Result<RoleGraph, NoMemory>
        ensures rows { IfOk result (λ copy. copy.rows ≡ self.now.rows) }
        ensures names { IfOk result (λ copy. copy.names ≡ self.now.names) }
        ensures limit { IfOk result (λ copy. copy.limit ≡ self.now.limit) }
    {
        let mut links = self.links.copy(alloc)?;
        let mut roles = self.roles.copy(alloc)?;
        let square = self.square.copy(alloc)?;
        links.fit();
        roles.fit();
        let limit = self.limit;
        let count = self.count;
        Ok(RoleGraph {
            alloc,
            links,
            limit,
            roles,
            count,
            square,
        })
    }

    /// How names are compared with users.
    pub fn names(&self) -> Fit
        ensures { result ≡ self.now.names }
    {
        self.links.names()
    }

    /// The greatest number of links by which a name has a role.
    pub fn limit(&self) -> u8
        ensures limit { result ≡ self.now.limit }
        ensures most { result ≤ 250 }
    {
        self.limit
    }

    /// How many rows there are.
    pub fn len(&self) -> usize
        ensures rows { result ≡ length self.now.rows }
        ensures most { result ≤ most_rows }
    {
        self.count
    }

    /// Whether the name has a role: whether it fits the user of some row. It takes no memory.
    pub fn has_roles(&self, x: &[u8]) -> bool
        ensures { IsTrue result
            ↔ HasRoles (shape_of self.now.names) self.now.rows None x.now }
    {
        self.links.has_fitting(x)
    }

    /// Whether the one name reaches the other by at most as many links as the limit says (Casbin,
    /// `hasLink`). It takes no memory. A step is a kept distance that is read: at most one for each
    /// row whose user is the name or a pattern, and one more.
    pub fn linked<L: Ledger>(&self, x: &[u8], y: &[u8], steps: &mut Steps<L>) -> bool
        ensures found { IsTrue result ↔ GraphReaches self.now self.now.limit x.now y.now }
        ensures steps { steps.old ≤ steps.new }
        ensures few_steps { length (different (map role_of self.now.rows)) ≤ 1024
            → steps.new ≤ steps.old + asked_rows self.now.names x.now self.now.rows + 1 }
    {
        if self.square.size() > 0 {
            return nearest(&self.links, &self.roles, &self.square, x, y, steps) <= self.limit;
        }
        distance(&self.links, x, y, self.limit).is_some()
    }

    /// What the name reaches within the limit, found once; each question then reads it. It takes no
    /// memory beside the room. Where distances are kept, it reads them for the rows of the name; where
    /// not, it walks as far as the name reaches.
    pub fn reach<'a>(&'a self, x: &'a [u8], room: &'a mut Room) -> Reach<'a>
        ensures { result ≡ reached_in self.now x.now }
    {
        let limit = self.limit;
        if self.square.size() > 0 {
            mark_kept(
                &self.links,
                &self.roles,
                &self.square,
                x,
                limit,
                &mut room.marks,
            );
            return Reach::of(&self.links, &self.roles, x, limit, &room.marks);
        }
        mark_walked(&self.links, &self.roles, x, limit, &mut room.marks);
        Reach::of(&self.links, &self.roles, x, limit, &room.marks)
    }

    /// The roles of the rows with this user, once for each row, in an order of the graph's own.
    pub fn roles_of(&self, user: &[u8]) -> &[Text]
        ensures { (role : List ℕ) → Contains result.now role
            ↔ Contains self.now.rows (row user.now role) }
    {
        self.links.roles_of(user)
    }

    /// The least number of links by which the one name reaches the other, or 255 where it is above
    /// 254 or there is none. It takes no memory, and as many steps as `linked`.
    pub fn far<L: Ledger>(&self, x: &[u8], y: &[u8], steps: &mut Steps<L>) -> u8
        ensures far { IsGraphFar self.now x.now y.now result }
        ensures steps { steps.old ≤ steps.new }
        ensures few_steps { length (different (map role_of self.now.rows)) ≤ 1024
            → steps.new ≤ steps.old + asked_rows self.now.names x.now self.now.rows + 1 }
    {
        if self.square.size() > 0 {
            return nearest(&self.links, &self.roles, &self.square, x, y, steps);
        }
        distance(&self.links, x, y, FARTHEST).unwrap_or(TOO_FAR)
    }

    /// How deep the name stands: the least number of links by which it reaches a name without roles,
    /// and one more than the limit where it reaches none within it (Casbin, priority by the hierarchy
    /// of subjects). It takes no memory.
    pub fn depth(&self, x: &[u8]) -> u8
        ensures { IsDepth (shape_of self.now.names) self.now.rows self.now.limit None x.now
            result }
    {
        depth(&self.links, x, self.limit)
    }

    /// The names other than `x` that it reaches within the limit, the nearer first, those of one
    /// distance by bytes (Casbin, implicit roles).
    pub fn roles_within(&self, alloc: Global, x: &[u8]) -> Result<Rule, NoMemory>
        ensures { IfOk result (λ names. AreImplied (shape_of self.now.names) self.now.rows
            self.now.limit None x.now names) }
    {
        let _names = self.roles.len();
        let names = self.names_within(alloc, x)?;
        Ok(Rule::from_vec(names))
    }

    // The same as a list.
    fn names_within(&self, alloc: Global, x: &[u8]) -> Result<Vec<Text>, NoMemory>
        ensures { IfOk result (λ names. AreImplied (shape_of self.now.names) self.now.rows
            self.now.limit None x.now names.items) }
    {
        if self.square.size() > 0 {
            return listed(&self.links, &self.roles, &self.square, alloc, x, self.limit);
        }
        implied(&self.links, alloc, x, self.limit)
    }

    /// The users of rows that are no patterns, other than `x`, and that reach it within the limit: each
    /// once, by bytes (Casbin, implicit users). The links are walked from `x` back.
    pub fn users_within(&self, alloc: Global, x: &[u8], among: Rows<'_>) -> Result<Rule, NoMemory>
        requires columns { All (λ row. 2 ≤ length row) among }
        requires few { length among ≤ most_rows }
        ensures { IfOk result (λ names. AreUsersOf (shape_of self.now.names) self.now.rows
            self.now.limit None (map user_of among.entry) x.now names) }
    {
        let users = users_among(&self.links, alloc, x, self.limit, among)?;
        Ok(Rule::from_vec(users))
    }

    /// Prepares to take the rows of `remove` out, each once, and to add those of `insert`. The
    /// graph stays as it is, whatever the answer, and what was prepared before stays good.
    pub fn prepare(
        &mut self,
        alloc: Global,
        insert: &[Rule],
        remove: &[Rule],
    ) -> Result<PreparedGraph, NoMemory>
        requires insert { All (λ row. length row ≡ 2) insert.now }
        requires remove { All (λ row. length row ≡ 2) remove.now }
        requires stand { (row : Fields) → times row remove.now ≤ times row self.old.rows }
        requires few { length self.old.rows + length insert.now ≤ most_rows + length remove.now }
        ensures good { IfOk result (λ prepared. IsPreparedFor self.new prepared) }
        ensures rows { IfOk result (λ prepared. (row : Fields)
            → times row (after prepared.changed self.old.rows) + times row remove.now
            ≡ times row self.old.rows + times row insert.now) }
        ensures same_rows { self.new.rows ≡ self.old.rows }
        ensures same_names { self.new.names ≡ self.old.names }
        ensures same_limit { self.new.limit ≡ self.old.limit }
        ensures more { self.old.spare ≤ self.new.spare }
        ensures more_roles { self.old.spare_roles ≤ self.new.spare_roles }
    {
        let mut edits = Edits::new(alloc);
        remove_all(&mut edits, &self.links, alloc, remove)?;
        add_all(&mut edits, &self.links, alloc, insert)?;
        let added = names_of(alloc, insert)?;
        let removed = roles_of(alloc, remove)?;
        self.links.reserve(edits.len())?;
        self.roles.reserve(added.len())?;
        reserve_square(
            &mut self.square,
            alloc,
            &self.links,
            &self.roles,
            &edits,
            &added,
            removed.len(),
        )?;
        Ok(PreparedGraph::new(edits, added, removed))
    }

    /// Makes edits that were prepared for the graph as it stands. It takes no memory.
    pub fn commit(&mut self, prepared: PreparedGraph)
        requires { IsPreparedFor self.old prepared }
        ensures rows { (row : Fields) → times row self.new.rows
            ≡ times row (after prepared.changed self.old.rows) }
        ensures names { self.new.names ≡ self.old.names }
        ensures limit { self.new.limit ≡ self.old.limit }
    {
        let (edits, added, removed) = prepared.into_parts();
        let known = self.roles.len();
        self.count = self.count + added.len() - removed.len();
        let whole = self.roles.recount(added, &removed);
        let touched = touched(&self.roles, self.links.names(), &edits, known);
        self.links.change(edits);
        refresh(
            &mut self.square,
            self.alloc,
            &self.links,
            &self.roles,
            whole,
            touched,
        );
    }
}

impl Share for RoleGraph {}

// Adds rows, one after the other.
fn add_all(
    edits: &mut Edits,
    links: &LinkGroups,
    alloc: Global,
    rows: &[Rule],
) -> Result<(), NoMemory>
    requires two { All (λ row. length row ≡ 2) rows.now }
    ensures { OnOk result ((row : Fields) → standing links.now edits.new row
        ≡ standing links.now edits.old row + times row rows.now) }
{
    for row in rows {
        edits.add(links, alloc, row)?;
    }
    Ok(())
}
