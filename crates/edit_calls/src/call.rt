ghost use Rattle.std.specs.Prelude.{◌≡◌, ◌<◌, ◌^◌, Some, length, map, slice_get, vec_len};

use outside::{Share, Text};
use perm_base::{Rule, Rules, TableId};
use std::marker::Model;

/// A management call (Casbin, policy and role management API).
#[derive(Drop)]
pub enum Call {
    /// Adds a rule.
    Add {
        table: TableId,
        rule: Rule,
    },
    /// Adds rules, all or none.
    AddAll {
        table: TableId,
        rules: Rules,
    },
    /// Adds those of the rules that are absent.
    AddEx {
        table: TableId,
        rules: Rules,
    },
    /// Removes a rule.
    Remove {
        table: TableId,
        rule: Rule,
    },
    /// Removes rules, all or none.
    RemoveAll {
        table: TableId,
        rules: Rules,
    },
    /// Puts new rules into the places of old ones, all or none.
    Update {
        table: TableId,
        pairs: Pairs,
    },
    /// Removes the rules that fit a filter: values from a column on, of which the empty ones are left open.
    RemoveFiltered {
        table: TableId,
        at: u32,
        values: Rule,
    },
    /// Removes the rules that fit a filter, and adds others.
    UpdateFiltered {
        table: TableId,
        at: u32,
        values: Rule,
        rules: Rules,
    },
    /// Removes the rules of g with this user, and then those of p with this subject.
    DeleteUser {
        name: Text,
    },
    /// Removes the rules of g that give this role, and then those of p with this subject.
    DeleteRole {
        name: Text,
    },
}

impl Share for Call {}

/// A list of fewer than 2^32 pairs of an old and a new rule. Contracts see the list.
#[derive(Drop)]
pub struct Pairs {
    pairs: Vec<(Rule, Rule)>,
}

impl Model for Pairs {
    ghost use Rattle.std.specs.Prelude.{List, ℕ, ◌<◌, ◌^◌, length};

    ghost Value = { List (List (List ℕ) × List (List ℕ)) };

    ghost view = { λ p. p.pairs.items };

    ghost invariant = { λ p. length p.pairs.items < 2 ^ 32 };
}

impl Pairs {
    /// These pairs in their order. It takes no memory.
    pub fn from_vec(pairs: Vec<(Rule, Rule)>) -> Pairs
        requires { vec_len pairs < 2 ^ 32 }
        ensures { result ≡ pairs.items }
    {
        Pairs { pairs }
    }

    /// The pairs in their order.
    pub fn as_slice(&self) -> &[(Rule, Rule)]
        ensures value { result.now ≡ self.now }
        ensures few { length result.now < 2 ^ 32 }
    {
        &self.pairs
    }

    /// The pairs as a `Vec`. It takes no memory.
    pub fn into_vec(self) -> Vec<(Rule, Rule)>
        ensures { result.items ≡ self }
    {
        self.pairs
    }

    /// How many pairs there are.
    pub fn len(&self) -> u32
        ensures value { result ≡ length self.now }
        ensures few { length self.now < 2 ^ 32 }
    {
        self.pairs.len() as u32
    }

    /// The old rule of the pair at a place, counted from 0.
    pub fn old(&self, at: u32) -> &Rule
        requires { at < length self.now }
        ensures { slice_get (map (λ pair. pair.0) self.now) at ≡ Some result.now }
    {
        &self.pairs[at as usize].0
    }

    /// The new rule of the pair at a place, counted from 0.
    pub fn new(&self, at: u32) -> &Rule
        requires { at < length self.now }
        ensures { slice_get (map (λ pair. pair.1) self.now) at ≡ Some result.now }
    {
        &self.pairs[at as usize].1
    }
}

impl Share for Pairs {}
