//! Reaching by its definition, for few rows: what a graph answers is compared with it.

ghost use Rattle.std.specs.Prelude.{◌≡◌, ◌↔◌, IsTrue, [], get_or, option_copied};
ghost use Rattle.role_meaning.specs.Links.{CountsIn, Reaches, user_of};
ghost use Rattle.role_meaning.specs.Fits.{Fits};

use crate::fit::fits;
use perm_base::{RoleShape, Rule};

/// Whether the one name reaches the other by at most so many links. It tries every chain of rows,
/// and takes no memory.
pub fn plainly_reaches(
    shape: RoleShape,
    rows: &[Rule],
    domain: Option<&[u8]>,
    links: u8,
    x: &[u8],
    y: &[u8],
) -> bool
    ensures { IsTrue result
        ↔ Reaches shape rows.now (option_copied domain.entry) links x.now y.now }
{
    if x == y {
        return true;
    }
    if links == 0 {
        return false;
    }
    for row in rows {
        if is_link(shape, domain, x, row)
            && plainly_reaches(shape, rows, domain, links - 1, field_or_empty(row, 1), y)
        {
            return true;
        }
    }
    false
}

// Whether a row is a link of a name in a domain.
fn is_link(shape: RoleShape, domain: Option<&[u8]>, name: &[u8], row: &Rule) -> bool
    ensures { IsTrue result
        ↔ (Fits shape.names name.now (user_of row.now)
        × CountsIn shape (option_copied domain.entry) row.now) }
{
    fits(shape.names, name, field_or_empty(row, 0)) && counts_in(shape, domain, row)
}

// Whether a row counts in a domain.
fn counts_in(shape: RoleShape, domain: Option<&[u8]>, row: &Rule) -> bool
    ensures { IsTrue result ↔ CountsIn shape (option_copied domain.entry) row.now }
{
    match domain {
        None => true,
        Some(domain) => fits(shape.domains, domain, field_or_empty(row, 2)),
    }
}

// The text at a place, or the empty text behind the last.
fn field_or_empty(row: &Rule, at: u32) -> &[u8]
    ensures { result.now ≡ get_or row.now at [] }
{
    if at < row.len() { row.field(at) } else { &[] }
}
