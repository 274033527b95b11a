use crate::role_shapes::RoleShapes;
use outside::Share;

/// How a name in a role relation is compared with one of a request: byte by byte, or by the function of the name.
#[derive(Clone, Copy, Debug, PartialEq, Eq)]
pub enum Fit {
    /// Equal texts.
    Exact,
    /// `keyMatch`
    KeyMatch,
    /// `keyMatch2`
    KeyMatch2,
    /// `keyMatch3`
    KeyMatch3,
    /// `globMatch`
    Glob,
}

/// The shape of a role relation: its number, 1 for `g` and 2 to 8 for `g2` to `g8`; whether its rules have a domain
/// behind the two names; and how names and domains are compared.
#[derive(Clone, Copy, Debug, PartialEq, Eq)]
pub struct RoleShape {
    pub number: u8,
    pub with_domain: bool,
    pub names: Fit,
    pub domains: Fit,
}

/// A table of a policy.
#[derive(Clone, Copy, Debug, PartialEq, Eq)]
pub enum TableId {
    /// The rules of `p`.
    P,
    /// The rules of a role relation, by its number: 1 for `g` and 2 to 8 for `g2` to `g8`.
    G(u8),
}

/// The shapes of a policy's tables: how many columns the rules of `p` have, the place of the effect's column, where
/// there is one, and of the subject's, each counted from 0; the role relations; the greatest number of links by which
/// a name has a role; and whether the table `p` is ranked.
#[derive(Drop)]
pub struct Shapes {
    pub columns: u32,
    pub effect_column: Option<u32>,
    pub subject_column: u32,
    pub roles: RoleShapes,
    pub limit: u8,
    /// The rules of `p` stand by rising rank, which is the number of their first field.
    pub ranked: bool,
}

impl Share for Fit {}

impl Share for RoleShape {}

impl Share for TableId {}

impl Share for Shapes {}
