use matcher_read::{Function, Operator};
use outside::Text;

/// An instruction of a matcher's code, and the place in the matcher's text of the node that it serves, counted from 1.
#[derive(Drop)]
pub struct Op {
    pub at: u32,
    pub instruction: Instruction,
}

/// What the machine does with the values on its stack. A place in the code is counted from 0, as columns are.
#[derive(Drop)]
pub enum Instruction {
    /// Puts a text there.
    Text(Text),
    /// Puts a whole number there.
    Whole(i64),
    /// Puts a truth there.
    Truth(bool),
    /// Puts the value of a request's column there.
    Request(u32),
    /// Puts the row's field in a column of the policy there, and without a row the empty text.
    Policy(u32),
    /// The top value becomes its attribute with this name.
    Attribute(Text),
    /// `!` of the top value.
    Not,
    /// `-` of the top value.
    Negate,
    /// The two top values become what an operator gives for them, the right side being on top: each but `&&` and `||`.
    Binary(Operator),
    /// Where the top value is false, the machine goes on at this place; else the value goes, which has to be true.
    SkipFalse(u32),
    /// Where the top value is true, the machine goes on at this place; else the value goes, which has to be false.
    SkipTrue(u32),
    /// The top value has to be a truth.
    NeedTruth,
    /// The top value, a member, goes. Where it is or holds the value below it, this becomes true, and the machine goes
    /// on at this place.
    Member(u32),
    /// The top value becomes false.
    Miss,
    /// The top values become what a function gives for them, the last argument being on top.
    Function(Function),
    /// Two or three names on top become the answer of a role relation, 1 for `g` and 2 to 8 for `g2` to `g8`.
    Role { relation: u8, names: u8 },
    /// Puts there what the rule comes to that the row's field in a column of the policy says.
    Eval(u32),
}
