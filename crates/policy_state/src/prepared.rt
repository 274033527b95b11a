use policy_table::Edit;
use std::marker::Model;

/// What is ready in each part of a policy for edits that are handed over when they are made, and the version at which its log is
/// to start afterwards. Contracts see that version, and what is ready in each part.
#[derive(Drop)]
pub struct PreparedParts {
    pub(crate) tables: policy_table::PreparedTables,
    pub(crate) sections: Vec<role_domain::PreparedSection>,
    pub(crate) start: u32,
}

impl Model for PreparedParts {
    ghost use Rattle.policy_state.specs.Ready.{Readied};

    ghost Value = { Readied };

    ghost view = { λ p. record {
      start = p.start;
      parts = record {
        tables = p.tables;
        sections = p.sections.items;
      };
    } };
}

/// Edits that are ready to be made in a policy, and the version at which its log is to start afterwards. Contracts see the
/// edits, that version, and what is ready in each part.
#[derive(Drop)]
pub struct PreparedState {
    pub(crate) parts: PreparedParts,
    pub(crate) edits: Vec<Edit>,
}

impl Model for PreparedState {
    ghost use Rattle.policy_state.specs.Ready.{Ready};

    ghost Value = { Ready };

    ghost view = { λ p. record {
      edits = p.edits.items;
      start = p.parts.start;
      parts = p.parts.parts;
    } };
}
