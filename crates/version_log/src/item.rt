ghost use Rattle.std.specs.Prelude.{◌≡◌, ◌∷◌, []};
ghost use Rattle.version_log.specs.EditText.{sign_byte};

use perm_base::{Rule, TableId};

/// What is done to the rule of a line.
#[derive(Clone, Copy, Debug, PartialEq, Eq)]
pub(crate) enum Sign {
    /// It is inserted.
    Inserted,
    /// It is removed.
    Removed,
    /// A new rule takes its place.
    Old,
    /// It takes the place of an old rule.
    New,
}

/// What a line of an edit's text says.
#[derive(Drop)]
pub(crate) enum EditItem {
    /// A rule of a table, behind a sign.
    Signed {
        sign: Sign,
        table: TableId,
        rule: Rule,
    },
    /// That no change follows.
    End,
}

impl Sign {
    /// The text by which a line with the sign begins.
    pub(crate) fn text(self) -> &'static str
        ensures { result.now ≡ sign_byte self ∷ 32 ∷ [] }
    {
        match self {
            Sign::Inserted => "+ ",
            Sign::Removed => "- ",
            Sign::Old => "< ",
            Sign::New => "> ",
        }
    }
}
