ghost use Rattle.std.specs.Prelude.{◌≡◌, ℕ, List, Some, option_copied};
ghost use Rattle.perm_base.specs.TableNames.{name_of, table_named};
ghost use Rattle.perm_base.specs.declared.shapes.TableId as declared;

use crate::shapes::TableId;

impl TableId {
    /// The table whose name the text is: `p`, or the name of a role relation, which is `g` or one of `g2` to `g8`.
    pub fn named(text: &str) -> Option<TableId>
        ensures { result ≡ table_named text.now }
    {
        match text {
            "p" => Some(TableId::P),
            "g" => Some(TableId::G(1)),
            "g2" => Some(TableId::G(2)),
            "g3" => Some(TableId::G(3)),
            "g4" => Some(TableId::G(4)),
            "g5" => Some(TableId::G(5)),
            "g6" => Some(TableId::G(6)),
            "g7" => Some(TableId::G(7)),
            "g8" => Some(TableId::G(8)),
            _ => None,
        }
    }

    /// The name of the table, by which the lines of its rules begin. A relation that is not numbered 1 to 8 has none.
    pub fn name(self) -> Option<&'static str>
        ensures { option_copied result ≡ name_of self }
    {
        match self {
            TableId::P => Some("p"),
            TableId::G(1) => Some("g"),
            TableId::G(2) => Some("g2"),
            TableId::G(3) => Some("g3"),
            TableId::G(4) => Some("g4"),
            TableId::G(5) => Some("g5"),
            TableId::G(6) => Some("g6"),
            TableId::G(7) => Some("g7"),
            TableId::G(8) => Some("g8"),
            TableId::G(_) => None,
        }
    }
}

/// The law that the name of a table names it, and nothing else does.
pub fn tables_and_names_agree()
    ensures named { (table : declared.TableId) (name : List ℕ)
        → name_of table ≡ Some name → table_named name ≡ Some table }
    ensures only { (table : declared.TableId) (name : List ℕ)
        → table_named name ≡ Some table → name_of table ≡ Some name }
{}
