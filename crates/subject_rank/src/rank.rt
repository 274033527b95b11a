ghost use Rattle.std.specs.Prelude.{◌≡◌, ◌≤◌, List, is_some};
ghost use Rattle.std.specs.Option.{option_copied};
ghost use Rattle.policy_table.specs.Tables.{Fields};
ghost use Rattle.role_domain.specs.Sections.{IsSectionOf};
ghost use Rattle.role_meaning.specs.Depths.{IsDepth};

use role_domain::{RoleSection, Steps};
use std::sync::ledger::Ledger;

/// How deep a name stands in a relation, in one domain where the relation has domains: the least number of links by which
/// it reaches a name without roles, and one more than the hierarchy limit where it reaches none within it (Casbin, priority
/// by the hierarchy of subjects). Of a name without roles the depth is 0. It takes no memory, and no steps.
pub fn depth<L: Ledger>(
    section: &RoleSection,
    name: &[u8],
    domain: Option<&[u8]>,
    steps: &mut Steps<L>,
) -> u8
    requires asked { is_some domain ≡ section.now.shape.with_domain }
    ensures depth { (rows : List Fields) → IsSectionOf section.now rows
        → IsDepth section.now.shape rows section.now.limit (option_copied domain.entry) name.now
        result }
    ensures steps { steps.old ≤ steps.new }
{
    section.depth(name, domain)
}
