//! Rows of a relation: their users, roles and domains.

ghost use Rattle.std.specs.Prelude.{◌≡◌, ◌≤◌, IfOk, [], length};
ghost use Rattle.role_meaning.specs.Links.{domain_of};
ghost use Rattle.role_domain.specs.Relations.{pair_of};

use outside::{NoMemory, Text};
use perm_base::Rule;
use std::alloc::Global;

/// The domain of a row: its third field, or the empty text where it has none.
pub(crate) fn domain_of(row: &Rule) -> &[u8]
    ensures { result.now ≡ domain_of row.now }
{
    if row.len() > 2 { row.field(2) } else { &[] }
}

/// The same as a text.
pub(crate) fn domain_text(row: &Rule) -> &str
    ensures { result.now ≡ domain_of row.now }
{
    if row.len() > 2 { row.text(2) } else { "" }
}

/// The user and the role of a row, as a row of two fields.
pub(crate) fn pair_of(alloc: Global, row: &Rule) -> Result<Rule, NoMemory>
    requires { 2 ≤ length row.now }
    ensures { IfOk result (λ pair. pair ≡ pair_of row.now) }
{
    let mut fields = Vec::with_capacity(alloc, 2)?;
    fields.push(Text::from_str(alloc, row.text(0))?)?;
    fields.push(Text::from_str(alloc, row.text(1))?)?;
    Ok(Rule::from_vec(fields))
}
