ghost use Rattle.std.specs.Prelude.{◌≡◌, IfOk, None, nat_lt, true};
ghost use Rattle.std.specs.List.{list_any};
ghost use Rattle.policy_table.specs.Changes.{applies, edited};
ghost use Rattle.policy_table.specs.Helps.Counts.{domain_limit, is_of_roles};
ghost use Rattle.policy_table.specs.Limits.{HaveShapes, passed, role_rows};
ghost use Rattle.policy_table.specs.Tables.{AreLists};

use crate::change::Edit;
use crate::counts::{domain_pairs, pattern_rows, role_rows};
use crate::counts_after::counts_after;
use crate::limit::Limit;
use crate::rows_after::rows_after;
use crate::tables::Tables;
use outside::NoMemory;
use perm_base::{Shapes, TableId};
use std::alloc::Global;

const MOST_POLICY_ROWS: u64 = 200_000;

const MOST_ROLE_ROWS: u64 = 200_000;

const MOST_PATTERN_ROWS: u64 = 64;

const MOST_DOMAINS: u64 = 16_384;

impl Tables {
    /// The first limit that the tables pass. It takes no memory, and its time does not grow with the tables.
    pub fn passed(&self, shapes: &Shapes) -> Option<Limit>
        ensures { result ≡ passed shapes.now self.now.policy }
    {
        if u64::from(self.len(TableId::P)) > MOST_POLICY_ROWS {
            return Some(Limit::PolicyRows);
        }
        if role_rows(self, shapes) > MOST_ROLE_ROWS {
            return Some(Limit::RoleRows);
        }
        if pattern_rows(self, shapes) > MOST_PATTERN_ROWS {
            return Some(Limit::PatternRows);
        }
        if domain_pairs(self, shapes) > MOST_DOMAINS {
            return Some(Limit::Domains);
        }
        None
    }

    /// The first limit that the tables pass after an edit, which leaves them as they are. Its time and its memory grow
    /// with the edit, and not with the tables: it takes memory for the domains of the rules that the edit puts into
    /// relations and takes out.
    pub fn passed_after(
        &self,
        alloc: Global,
        edit: &Edit,
        shapes: &Shapes,
    ) -> Result<Option<Limit>, NoMemory>
        requires possible { applies edit.now self.now.policy ≡ true }
        requires shaped { HaveShapes shapes.now (edited edit.now self.now.policy) }
        requires before { passed shapes.now self.now.policy ≡ None }
        ensures { IfOk result (λ limit. limit
            ≡ passed shapes.now (edited edit.now self.now.policy)) }
    {
        if rows_after(edit, self, TableId::P) > MOST_POLICY_ROWS {
            return Ok(Some(Limit::PolicyRows));
        }
        if has_many_role_rows(edit, self, shapes) {
            return Ok(Some(Limit::RoleRows));
        }
        // The rules of the relations stay, and so do their domains.
        if !is_of_roles(edit) {
            return Ok(None);
        }
        domain_limit(alloc, edit, self, shapes)
    }
}

// Whether the relations have more rules together than the limit after an edit.
fn has_many_role_rows(edit: &Edit, tables: &Tables, shapes: &Shapes) -> bool
    requires { applies edit.now tables.now.policy ≡ true }
    ensures { result
        ≡ nat_lt MOST_ROLE_ROWS (role_rows shapes.now (edited edit.now tables.now.policy)) }
{
    let mut count = 0;
    for shape in shapes.roles.as_slice() {
        let rows = rows_after(edit, tables, TableId::G(shape.number));
        if rows > MOST_ROLE_ROWS - count {
            return true;
        }
        count += rows;
    }
    false
}

// Whether a change is of a relation.
fn is_of_roles(edit: &Edit) -> bool
    ensures { result ≡ list_any is_of_roles edit.now }
{
    edit.as_slice()
        .iter()
        .any(|change| change.table() != TableId::P)
}

// The first of the limits on domains that the tables pass after an edit.
fn domain_limit(
    alloc: Global,
    edit: &Edit,
    tables: &Tables,
    shapes: &Shapes,
) -> Result<Option<Limit>, NoMemory>
    requires possible { applies edit.now tables.now.policy ≡ true }
    requires few { AreLists (edited edit.now tables.now.policy).lists }
    ensures { IfOk result (λ limit. limit
        ≡ domain_limit shapes.now (edited edit.now tables.now.policy)) }
{
    let counts = counts_after(alloc, edit, tables, shapes)?;
    if counts.patterns > MOST_PATTERN_ROWS {
        return Ok(Some(Limit::PatternRows));
    }
    if counts.pairs > MOST_DOMAINS {
        return Ok(Some(Limit::Domains));
    }
    Ok(None)
}
