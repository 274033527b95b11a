ghost use Rattle.std.specs.Prelude.{◌≡◌};

use outside::{Share, Text};

/// An operator between two sides.
#[derive(Clone, Copy, Debug, PartialEq, Eq)]
pub enum Operator {
    /// `||`
    Or,
    /// `&&`
    And,
    /// `==`
    Equal,
    /// `!=`
    NotEqual,
    /// `<`
    Less,
    /// `<=`
    AtMost,
    /// `>`
    Greater,
    /// `>=`
    AtLeast,
    /// `+`
    Plus,
    /// `-`
    Minus,
    /// `*`
    Times,
    /// `/`
    Over,
    /// `%`
    Remainder,
}

/// A function that a matcher may call (Casbin, functions).
#[derive(Clone, Copy, Debug, PartialEq, Eq)]
pub enum Function {
    KeyMatch,
    KeyMatch2,
    KeyMatch3,
    KeyMatch4,
    KeyMatch5,
    RegexMatch,
    IpMatch,
    GlobMatch,
    KeyGet,
    KeyGet2,
    KeyGet3,
}

// All functions.
const FUNCTIONS: [Function; 11] = [
    Function::KeyMatch,
    Function::KeyMatch2,
    Function::KeyMatch3,
    Function::KeyMatch4,
    Function::KeyMatch5,
    Function::RegexMatch,
    Function::IpMatch,
    Function::GlobMatch,
    Function::KeyGet,
    Function::KeyGet2,
    Function::KeyGet3,
];

impl Function {
    ghost use Rattle.std.specs.Prelude.{◌≤◌};
    ghost use Rattle.matcher_read.specs.Calls.{arity, function_of, name_of};

    /// How it is written in a matcher.
    pub fn name(self) -> &'static str
        ensures { result.now ≡ name_of self }
    {
        self.written().0
    }

    /// How many arguments it takes.
    pub fn arguments(self) -> u32
        ensures number { result ≡ arity self }
        ensures few { result ≤ 3 }
    {
        self.written().1
    }

    /// The function of a name.
    pub fn of_name(name: &str) -> Option<Function>
        ensures { result ≡ function_of name.now }
    {
        for function in FUNCTIONS {
            if name == function.name() {
                return Some(function);
            }
        }
        None
    }

    // How it is written, and how many arguments it takes.
    fn written(self) -> (&'static str, u32)
        ensures name { result.0.now ≡ name_of self }
        ensures arguments { result.1 ≡ arity self }
        ensures few { result.1 ≤ 3 }
    {
        match self {
            Function::KeyMatch => ("keyMatch", 2),
            Function::KeyMatch2 => ("keyMatch2", 2),
            Function::KeyMatch3 => ("keyMatch3", 2),
            Function::KeyMatch4 => ("keyMatch4", 2),
            Function::KeyMatch5 => ("keyMatch5", 2),
            Function::RegexMatch => ("regexMatch", 2),
            Function::IpMatch => ("ipMatch", 2),
            Function::GlobMatch => ("globMatch", 2),
            Function::KeyGet => ("keyGet", 2),
            Function::KeyGet2 => ("keyGet2", 3),
            Function::KeyGet3 => ("keyGet3", 3),
        }
    }
}

/// A matcher that was read. Each node has its place: the byte of the text, counted from 1, where its literal, name,
/// call or operator begins.
#[derive(Drop)]
pub enum Tree {
    /// A text between quotes, without them.
    Text {
        at: u32,
        text: Text,
    },
    /// A whole number.
    Whole {
        at: u32,
        number: i64,
    },
    /// `true` or `false`.
    Truth {
        at: u32,
        truth: bool,
    },
    /// `r.column`, and the names of attributes behind it.
    Request {
        at: u32,
        column: Text,
        path: Vec<Text>,
    },
    /// `p.column`.
    Policy {
        at: u32,
        column: Text,
    },
    /// `eval(p.column)`.
    Eval {
        at: u32,
        column: Text,
    },
    /// `!` before its operand.
    Not {
        at: u32,
        operand: Box<Tree>,
    },
    /// `-` before its operand.
    Negate {
        at: u32,
        operand: Box<Tree>,
    },
    /// An operator between two sides.
    Binary {
        at: u32,
        operator: Operator,
        left: Box<Tree>,
        right: Box<Tree>,
    },
    /// `value in (members)`.
    Among {
        at: u32,
        value: Box<Tree>,
        members: Vec<Tree>,
    },
    /// A call of a function.
    Call {
        at: u32,
        function: Function,
        arguments: Vec<Tree>,
    },
    /// A question to a role relation: 1 is `g`, 2 to 8 are `g2` to `g8`.
    Role {
        at: u32,
        relation: u8,
        arguments: Vec<Tree>,
    },
}

impl Share for Tree {}

impl Tree {
    ghost use Rattle.matcher_read.specs.Expression.{expression, place};

    /// Where its root stands.
    pub fn place(&self) -> u32
        ensures { result ≡ place (expression self.now) }
    {
        match self {
            Tree::Text { at, .. }
            | Tree::Whole { at, .. }
            | Tree::Truth { at, .. }
            | Tree::Request { at, .. }
            | Tree::Policy { at, .. }
            | Tree::Eval { at, .. }
            | Tree::Not { at, .. }
            | Tree::Negate { at, .. }
            | Tree::Binary { at, .. }
            | Tree::Among { at, .. }
            | Tree::Call { at, .. }
            | Tree::Role { at, .. } => *at,
        }
    }
}
