ghost use Rattle.std.specs.Prelude.{◌≡◌, option_map};
ghost use Rattle.matcher_read.specs.Expression.{expression};
ghost use Rattle.model_conf.specs.Helps.Misuses.{column_misuse, earlier, misuse_of, misuse_place, role_misuse};
ghost use Rattle.model_conf.specs.Uses.{first_undeclared, names_of, uses};

use matcher_read::Tree;
use perm_base::{RoleShape, Rule};

/// A column or a relation that is not declared as the matcher names it, at its place.
#[derive(Clone, Copy)]
pub(crate) enum Misuse {
    Column { at: u32 },
    Role { at: u32 },
}

/// What a model declares.
#[derive(Clone, Copy)]
pub(crate) struct Declared<'a> {
    pub(crate) request: &'a Rule,
    pub(crate) policy: &'a Rule,
    pub(crate) relations: &'a [RoleShape],
}

impl<'a> Declared<'a> {
    /// The first misuse in a matcher, by its place.
    pub(crate) fn first_misuse(&self, tree: &Tree) -> Option<Misuse>
        ensures { result ≡ option_map misuse_of (first_undeclared
            self.now.request.now self.now.policy.now self.now.relations.now
            (uses (expression tree.now))) }
    {
        match tree {
            Tree::Text { .. } | Tree::Whole { .. } | Tree::Truth { .. } => None,
            Tree::Request { at, column, .. } => {
                column_misuse(self.request, *at, column.as_str())
            }
            Tree::Policy { at, column } | Tree::Eval { at, column } => {
                column_misuse(self.policy, *at, column.as_str())
            }
            Tree::Not { operand, .. } | Tree::Negate { operand, .. } => self.first_misuse(operand),
            Tree::Binary { left, right, .. } => {
                earlier(self.first_misuse(left), self.first_misuse(right))
            }
            Tree::Among { value, members, .. } => {
                let mut first = self.first_misuse(value);
                for member in members {
                    first = earlier(first, self.first_misuse(member));
                }
                first
            }
            Tree::Call { arguments, .. } => {
                let mut first = None;
                for argument in arguments {
                    first = earlier(first, self.first_misuse(argument));
                }
                first
            }
            Tree::Role {
                at,
                relation,
                arguments,
            } => {
                let mut first = role_misuse(self.relations, *at, *relation, arguments.len());
                for argument in arguments {
                    first = earlier(first, self.first_misuse(argument));
                }
                first
            }
        }
    }
}

// Of two, the one at the lesser place, and at one place the first.
fn earlier(first: Option<Misuse>, other: Option<Misuse>) -> Option<Misuse>
    ensures { result ≡ earlier first other }
{
    match (first, other) {
        (Some(one), Some(two)) if place(two) < place(one) => Some(two),
        (Some(one), _) => Some(one),
        (None, _) => other,
    }
}

fn place(misuse: Misuse) -> u32
    ensures { result ≡ misuse_place misuse }
{
    match misuse {
        Misuse::Column { at } | Misuse::Role { at } => at,
    }
}

fn column_misuse(columns: &Rule, at: u32, column: &str) -> Option<Misuse>
    ensures { result ≡ column_misuse columns.now at column.now }
{
    match columns.place_of(column.as_bytes()) {
        Some(_) => None,
        None => Some(Misuse::Column { at }),
    }
}

fn role_misuse(relations: &[RoleShape], at: u32, relation: u8, names: usize) -> Option<Misuse>
    ensures { result ≡ role_misuse relations.now at relation names }
{
    let is_declared = relations.iter().any(|shape| shape.number == relation
        && names == names_of(*shape));
    if is_declared {
        return None;
    }
    Some(Misuse::Role { at })
}

// How many names a relation is asked with.
fn names_of(shape: RoleShape) -> usize
    ensures { result ≡ names_of shape }
{
    if shape.with_domain { 3 } else { 2 }
}
