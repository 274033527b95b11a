ghost use Rattle.std.specs.Prelude.{◌≡◌, IfOk, map};
ghost use Rattle.rbac_query.specs.Helps.Subjects.{is_plain, shown};
ghost use Rattle.rbac_query.specs.Report.{AreSubjects};

use crate::fields::text_or_empty;
use outside::NoMemory;
use perm_base::{RoleShape, is_pattern};
use policy_table::Rows;
use std::alloc::Global;
use std::collections::BTreeSet;

// The columns of a relation's rows.
const USER: u32 = 0;

const DOMAIN: u32 = 2;

/// The different pairs of the user and the domain of one row, which is the empty text where rows have none, and neither of
/// which is a pattern: by bytes of the user, then of
/// the domain.
pub(crate) fn subjects_of<'a>(
    alloc: Global,
    shape: RoleShape,
    rows: Rows<'a>,
) -> Result<BTreeSet<(&'a str, &'a str)>, NoMemory>
    ensures { IfOk result (λ subjects. AreSubjects shape rows.entry (map shown subjects.keys)) }
{
    let mut subjects = BTreeSet::new(alloc);
    for row in rows {
        let user = text_or_empty(row, USER);
        let domain = text_or_empty(row, DOMAIN);
        if is_plain(shape, user, domain) {
            let _new = subjects.insert((user, domain))?;
        }
    }
    Ok(subjects)
}

// Whether neither the user nor the domain is a pattern.
fn is_plain(shape: RoleShape, user: &str, domain: &str) -> bool
    ensures { result ≡ is_plain shape user.now domain.now }
{
    !is_pattern(shape.names, user.as_bytes()) && !is_pattern(shape.domains, domain.as_bytes())
}
