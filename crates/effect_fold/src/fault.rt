/// Why the evaluation of a matcher failed, and where: the byte of the matcher's text, counted from 1.
#[derive(Clone, Copy, Debug, PartialEq, Eq)]
pub struct Fault {
    pub cause: Cause,
    pub at: u32,
}

/// Why the evaluation of a matcher failed.
#[derive(Clone, Copy, Debug, PartialEq, Eq)]
pub enum Cause {
    /// A value of another kind than the operator or function takes.
    Kind,
    /// A value that is no object, or lacks the attribute.
    NoAttribute,
    /// A number that does not fit 64 bits with a sign.
    Overflow,
    /// A division by zero.
    ZeroDivisor,
    /// A text that is no address.
    BadAddress,
    /// A text that is no block of addresses.
    BadBlock,
    /// A pattern that is refused.
    Pattern,
    /// A field of a rule that `eval` reads and that is no matcher.
    RuleText,
}
