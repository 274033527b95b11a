ghost use Rattle.std.specs.Prelude.{◌≡◌};
ghost use Rattle.policy_table.specs.Limits.{columns_of, has_short_fields};

use perm_base::{Rule, Shapes, TableId};

// The greatest number of bytes of a field.
const MOST_FIELD_BYTES: usize = 4096;

/// A limit of a policy's tables.
#[derive(Clone, Copy, Debug, PartialEq, Eq)]
pub enum Limit {
    /// 200,000 rules of p.
    PolicyRows,
    /// 200,000 rules of all role relations together.
    RoleRows,
    /// 64 rules of role relations whose domain is a pattern.
    PatternRows,
    /// 16,384 different pairs of a role relation and a domain of its rules.
    Domains,
    /// 4,000,000,000 published and pending edits, which tables do not count.
    Edits,
}

/// The columns of a table's rules, where the shapes have the table. It takes no memory.
pub fn columns_of(shapes: &Shapes, table: TableId) -> Option<u32>
    ensures { result ≡ columns_of shapes.now table }
{
    match table {
        TableId::P => Some(shapes.columns),
        TableId::G(number) => {
            let shape = shapes.roles.find(number)?;
            Some(if shape.with_domain { 3 } else { 2 })
        }
    }
}

/// Whether no field of a rule has more than 4,096 bytes. It takes no memory.
pub fn has_short_fields(rule: &Rule) -> bool
    ensures { result ≡ has_short_fields rule.now }
{
    rule.fields()
        .iter()
        .all(|field| field.bytes().len() <= MOST_FIELD_BYTES)
}
