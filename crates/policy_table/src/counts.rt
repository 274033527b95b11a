ghost use Rattle.std.specs.Prelude.{◌≡◌, ◌<◌, ◌^◌};
ghost use Rattle.policy_table.specs.Helps.Counts.{pairs_of, patterns_of};
ghost use Rattle.policy_table.specs.Limits.{domain_pairs, pattern_rows, role_rows};

use crate::tables::Tables;
use perm_base::{RoleShape, Shapes, TableId};

/// How many rules the relations have together.
pub(crate) fn role_rows(tables: &Tables, shapes: &Shapes) -> u64
    ensures { result ≡ role_rows shapes.now tables.now.policy }
{
    let mut count = 0;
    for shape in shapes.roles.as_slice() {
        count += u64::from(tables.len(TableId::G(shape.number)));
    }
    count
}

/// How many rules of relations have a domain that is a pattern.
pub(crate) fn pattern_rows(tables: &Tables, shapes: &Shapes) -> u64
    ensures { result ≡ pattern_rows shapes.now tables.now.policy }
{
    let mut count = 0;
    for shape in shapes.roles.as_slice() {
        count += patterns_of(tables, *shape);
    }
    count
}

/// How many different pairs of a relation and a domain there are.
pub(crate) fn domain_pairs(tables: &Tables, shapes: &Shapes) -> u64
    ensures { result ≡ domain_pairs shapes.now tables.now.policy }
{
    let mut count = 0;
    for shape in shapes.roles.as_slice() {
        count += pairs_of(tables, *shape);
    }
    count
}

fn patterns_of(tables: &Tables, shape: RoleShape) -> u64
    ensures value { result ≡ patterns_of tables.now.policy shape }
    ensures few { result < 2 ^ 32 }
{
    if shape.with_domain {
        tables.patterns(shape.number, shape.domains)
    } else {
        0
    }
}

fn pairs_of(tables: &Tables, shape: RoleShape) -> u64
    ensures value { result ≡ pairs_of tables.now.policy shape }
    ensures few { result < 2 ^ 32 }
{
    if shape.with_domain {
        tables.domains(shape.number)
    } else {
        0
    }
}
