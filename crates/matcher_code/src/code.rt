ghost use Rattle.std.specs.Prelude.{◌≡◌};
ghost use Rattle.matcher_code.specs.Rules.{IsCode, code_parts};

use crate::op::Op;
use outside::Share;
use std::marker::Model;

/// Instructions of a matcher that keep the rules of code. Contracts see them, the numbers of columns of a request and of
/// a policy that they name, and the greatest number of values that the stack holds.
pub struct Code {
    ops: Vec<Op>,
    columns: u32,
    policy_columns: u32,
    height: u32,
}

// Written out, so that a caller's proof sees one call and not the drop of each field.
impl Drop for Code {
    fn drop(self) {
        let Code {
            ops: _ops,
            columns: _columns,
            policy_columns: _policy_columns,
            height: _height,
        } = self;
    }
}

impl Model for Code {
    ghost use Rattle.std.specs.Coded.{codes};
    ghost use Rattle.matcher_code.specs.Rules.{CodeParts, IsCode, code_parts};

    ghost Value = { CodeParts };

    ghost view = { λ c. code_parts c.ops.items c.columns c.policy_columns c.height };

    ghost invariant = { λ c. IsCode
        (code_parts c.ops.items c.columns c.policy_columns c.height) };
}

impl Share for Code {}

impl Code {
    /// The code of these parts.
    pub(crate) fn from_parts(ops: Vec<Op>, columns: u32, policy_columns: u32, height: u32) -> Code
        requires { IsCode (code_parts ops.items columns policy_columns height) }
        ensures { result ≡ code_parts ops.items columns policy_columns height }
    {
        Code {
            ops,
            columns,
            policy_columns,
            height,
        }
    }

    /// The instructions in their order. Each place keeps the rules.
    pub fn ops(&self) -> &[Op]
        ensures value { result.now ≡ self.now.ops }
        ensures kept { IsCode self.now }
    {
        &self.ops
    }

    /// How many columns a policy has.
    pub fn policy_columns(&self) -> u32
        ensures { result ≡ self.now.policy_columns }
    {
        self.policy_columns
    }

    /// The greatest number of values on the stack, at any place.
    pub fn height(&self) -> u32
        ensures { result ≡ self.now.height }
    {
        self.height
    }
}
