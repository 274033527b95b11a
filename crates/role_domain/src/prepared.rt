//! Edits of a section that are prepared.

ghost use Rattle.std.specs.Prelude.{◌≡◌};

use crate::domain::Domain;
use perm_base::Rule;
use role_graph::Name;
use std::marker::Model;

/// What becomes of a domain.
#[derive(Drop)]
pub(crate) enum DomainStep {
    /// No row has its text any more.
    Gone,
    /// A domain whose text no row had.
    New(Domain),
    /// An edit of its graph, and how many rows have its text afterwards.
    Changed {
        own: u64,
        edit: role_graph::PreparedGraph,
    },
}

/// Edits that `RoleSection::commit` makes. Contracts see what becomes of each domain that they touch,
/// and the rows with a pattern as their domain afterwards.
pub struct PreparedSection {
    touched: Vec<(Name, DomainStep)>,
    patterns: Vec<Rule>,
}

// Written out, so that a caller's proof sees one call and not the drop of each field.
impl Drop for PreparedSection {
    fn drop(self) {
        let PreparedSection {
            touched: _touched,
            patterns: _patterns,
        } = self;
    }
}

impl Model for PreparedSection {
    ghost use Rattle.role_domain.specs.Sections.{Draft};

    ghost Value = { Draft };

    ghost view = { λ p. record {
      touched = p.touched.items;
      patterns = p.patterns.items;
    } };
}

impl PreparedSection {
    pub(crate) fn new(touched: Vec<(Name, DomainStep)>, patterns: Vec<Rule>) -> PreparedSection
        ensures touched { result.touched ≡ touched.items }
        ensures patterns { result.patterns ≡ patterns.items }
    {
        PreparedSection { touched, patterns }
    }

    /// What becomes of the touched domains, and the rows with a pattern as their domain.
    pub(crate) fn into_parts(self) -> (Vec<(Name, DomainStep)>, Vec<Rule>)
        ensures touched { result.0.items ≡ self.touched }
        ensures patterns { result.1.items ≡ self.patterns }
    {
        let PreparedSection { touched, patterns } = self;
        (touched, patterns)
    }
}
