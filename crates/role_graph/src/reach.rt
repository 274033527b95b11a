//! What one name reaches in a graph, found once and asked often.

ghost use Rattle.std.specs.Prelude.{◌≡◌, ◌↔◌, IsTrue};
ghost use Rattle.role_graph.specs.Groups.{rows_of};
ghost use Rattle.role_graph.specs.Helps.Kept.{linked_of};
ghost use Rattle.role_graph.specs.Helps.ReachMarks.{IsReach};
ghost use Rattle.role_graph.specs.Helps.Roles.{nodes_of};
ghost use Rattle.role_graph.specs.Reach.{ReachesName};

use crate::link_groups::LinkGroups;
use crate::marks::Marks;
use crate::roles::Roles;
use std::marker::Model;

/// Room for what one name reaches, in any graph.
#[derive(Drop)]
pub struct Room {
    pub(crate) marks: Marks,
}

impl Room {
    /// It takes no memory.
    pub fn new() -> Room {
        Room {
            marks: Marks::new(),
        }
    }
}

/// What one name reaches within the limit, in the graph that was asked. Contracts see the rows of the
/// graph, how names are compared with users, the limit, and the name.
#[derive(Drop)]
pub struct Reach<'a> {
    links: &'a LinkGroups,
    roles: &'a Roles,
    name: &'a [u8],
    limit: u8,
    // The roles that it reaches, each at its place.
    marks: &'a Marks,
}

impl<'a> Model for Reach<'a> {
    ghost use Rattle.role_graph.specs.Groups.{rows_of};
    ghost use Rattle.role_graph.specs.Helps.Kept.{linked_of};
    ghost use Rattle.role_graph.specs.Helps.ReachMarks.{IsReach};
    ghost use Rattle.role_graph.specs.Helps.Roles.{nodes_of};
    ghost use Rattle.role_graph.specs.Reach.{Reached};

    ghost Value = { Reached };

    ghost view = { λ r. record {
      rows = rows_of (linked_of r.links.now).groups;
      names = r.links.now.names;
      limit = r.limit;
      name = r.name.now;
    } };

    ghost invariant = { λ r. IsReach (linked_of r.links.now) (nodes_of r.roles.now) r.limit
        r.name.now r.marks.now };
}

impl<'a> Reach<'a> {
    /// That of these marks.
    pub(crate) fn of(
        links: &'a LinkGroups,
        roles: &'a Roles,
        name: &'a [u8],
        limit: u8,
        marks: &'a Marks,
    ) -> Reach<'a>
        requires { IsReach (linked_of links.now) (nodes_of roles.now) limit name.now marks.now }
        ensures { result ≡ record {
          rows = rows_of (linked_of links.now).groups;
          names = links.now.names;
          limit = limit;
          name = name.now;
        } }
    {
        Reach {
            links,
            roles,
            name,
            limit,
            marks,
        }
    }

    /// Whether the name reaches another within the limit. Its time does not grow with the graph.
    pub fn has(&self, y: &[u8]) -> bool
        ensures { IsTrue result ↔ ReachesName self.now y.now }
    {
        if self.name == y {
            return true;
        }
        let Some(node) = self.roles.place_of(y) else {
            return false;
        };
        self.marks.has(node)
    }
}
