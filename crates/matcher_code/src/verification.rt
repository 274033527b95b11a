ghost use Rattle.std.specs.Prelude.{◌≡◌, ◌^◌, ◌<◌, ℕ, IfErr, IfOk, IsErrAnd, IsOk, vec_len};
ghost use Rattle.matcher_code.specs.Rules.{IsFirstBreak, IsVerified, greatest_height};

use crate::code::Code;
use crate::height_walk::checked_height;
use crate::op::Op;

/// The first place, counted from 0, that breaks a rule of code.
#[derive(Clone, Copy, Debug, PartialEq, Eq)]
pub struct Unverified {
    pub at: u32,
}

/// Makes code of instructions that keep the rules: they find their operands, what they name is there, and each place is
/// reached with one number of values on the stack, of which one is left at the end.
pub fn verify(ops: Vec<Op>, columns: u32, policy_columns: u32) -> Result<Code, Unverified>
    requires { vec_len ops < 2 ^ 32 }
    // The code has these instructions, which keep the rules.
    ensures ops { IfOk result (λ code. code.ops ≡ ops.items) }
    ensures columns { IfOk result (λ code. code.columns ≡ columns) }
    ensures policy_columns { IfOk result (λ code. code.policy_columns ≡ policy_columns) }
    ensures height { IfOk result (λ code. code.height ≡ greatest_height ops.items) }
    ensures verified { IfOk result (λ code. IsVerified ops.items columns policy_columns) }
    // Instructions that keep the rules are not refused.
    ensures only { IsVerified ops.items columns policy_columns → IsOk result }
    // Others are refused at the first place that breaks one.
    ensures first { IfErr result
        (λ unverified. IsFirstBreak ops.items columns policy_columns unverified.at) }
    ensures only_first { (at : ℕ) → IsFirstBreak ops.items columns policy_columns at
        → IsErrAnd result (λ unverified. unverified.at ≡ at) }
{
    let height = checked_height(&ops, columns, policy_columns)?;
    Ok(Code::from_parts(ops, columns, policy_columns, height))
}
