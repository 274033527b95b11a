ghost use Rattle.std.specs.Prelude.{◌≡◌, ◌<◌, ◌^◌, Some, length, slice_get, vec_len};

use crate::rule::Rule;
use outside::Share;
use std::marker::Model;

/// A list of fewer than 2^32 rules. Contracts see the list of its rules.
#[derive(Drop)]
pub struct Rules {
    rules: Vec<Rule>,
}

impl Model for Rules {
    ghost use Rattle.std.specs.Prelude.{List, ℕ, ◌<◌, ◌^◌, length};

    ghost Value = { List (List (List ℕ)) };

    ghost view = { λ r. r.rules.items };

    ghost invariant = { λ r. length r.rules.items < 2 ^ 32 };
}

impl Rules {
    /// These rules in their order. It takes no memory.
    pub fn from_vec(rules: Vec<Rule>) -> Rules
        requires { vec_len rules < 2 ^ 32 }
        ensures { result ≡ rules.items }
    {
        Rules { rules }
    }

    /// The rules in their order.
    pub fn as_slice(&self) -> &[Rule]
        ensures value { result.now ≡ self.now }
        ensures few { length result.now < 2 ^ 32 }
    {
        &self.rules
    }

    /// The rules as a `Vec`. It takes no memory.
    pub fn into_vec(self) -> Vec<Rule>
        ensures { result.items ≡ self }
    {
        self.rules
    }

    /// How many rules there are.
    pub fn len(&self) -> u32
        ensures value { result ≡ length self.now }
        ensures few { length self.now < 2 ^ 32 }
    {
        self.rules.len() as u32
    }

    /// The rule at a place, counted from 0.
    pub fn at(&self, at: u32) -> &Rule
        requires { at < length self.now }
        ensures { slice_get self.now at ≡ Some result.now }
    {
        &self.rules[at as usize]
    }
}

impl Share for Rules {}
