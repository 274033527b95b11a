//! Edits of a graph that are prepared.

ghost use Rattle.std.specs.Prelude.{◌≡◌, false, All, IfOk, length, map};
ghost use Rattle.std.specs.List.{list_any};
ghost use Rattle.perm_base.specs.LineEnds.{has_line_end};
ghost use Rattle.role_meaning.specs.Links.{role_of};
ghost use Rattle.role_graph.specs.Graph.{Edit};

use crate::edits::Edits;
use crate::names::Names;
use outside::{NoMemory, Text};
use perm_base::Rule;
use std::alloc::Global;
use std::marker::Model;

/// An edit of a graph that `RoleGraph::commit` makes. Contracts see the users whose rows change, each
/// with the roles that it has afterwards, and the roles of the rows that come and of those that go.
pub struct PreparedGraph {
    edits: Edits,
    added: Names,
    removed: Vec<Text>,
}

// Written out, so that a caller's proof sees one call and not the drop of each field.
impl Drop for PreparedGraph {
    fn drop(self) {
        let PreparedGraph {
            edits: _edits,
            added: _added,
            removed: _removed,
        } = self;
    }
}

impl Model for PreparedGraph {
    ghost use Rattle.role_graph.specs.Graph.{Edit};

    ghost Value = { Edit };

    ghost view = { λ p. record {
      changed = p.edits;
      added = p.added;
      removed = p.removed.items;
    } };
}

impl PreparedGraph {
    pub(crate) fn new(edits: Edits, added: Names, removed: Vec<Text>) -> PreparedGraph
        ensures changed { result.changed ≡ edits }
        ensures added { result.added ≡ added }
        ensures removed { result.removed ≡ removed.items }
    {
        PreparedGraph {
            edits,
            added,
            removed,
        }
    }

    /// The users whose rows change, the roles of the rows that come, and of those that go.
    pub(crate) fn into_parts(self) -> (Edits, Names, Vec<Text>)
        ensures changed { result.0 ≡ self.changed }
        ensures added { result.1 ≡ self.added }
        ensures removed { result.2.items ≡ self.removed }
    {
        let PreparedGraph {
            edits,
            added,
            removed,
        } = self;
        (edits, added, removed)
    }
}

/// The names of the roles of rows.
pub(crate) fn names_of(alloc: Global, rows: &[Rule]) -> Result<Names, NoMemory>
    requires { All (λ row. length row ≡ 2) rows.now }
    ensures names { IfOk result (λ names. names ≡ map role_of rows.now) }
    ensures whole_lines { IfOk result (λ names. list_any has_line_end names ≡ false) }
{
    let mut names = Names::new(alloc);
    for row in rows {
        names.push(alloc, row.text(1))?;
    }
    Ok(names)
}

/// The roles of rows.
pub(crate) fn roles_of(alloc: Global, rows: &[Rule]) -> Result<Vec<Text>, NoMemory>
    requires { All (λ row. length row ≡ 2) rows.now }
    ensures { IfOk result (λ roles. roles.items ≡ map role_of rows.now) }
{
    let mut roles = Vec::with_capacity(alloc, rows.len())?;
    for row in rows {
        roles.push(Text::from_str(alloc, row.text(1))?)?;
    }
    Ok(roles)
}
