//! Laws of the rows of a graph.

ghost use Rattle.std.specs.Prelude.{◌≡◌, ◌≤◌, ◌↔◌, ℕ, List, None};
ghost use Rattle.std.specs.List.{Contains};
ghost use Rattle.perm_base.specs.declared.shapes.Fit.{Fit};
ghost use Rattle.policy_table.specs.Tables.{Fields};
ghost use Rattle.role_meaning.specs.Links.{Reaches};
ghost use Rattle.role_graph.specs.Graph.{shape_of};
ghost use Rattle.role_graph.specs.Groups.{times};

/// The law that a row stands in a list exactly where it stands once or more often.
pub fn standing_rows_are_counted()
    ensures { (row : Fields) (rows : List Fields) → Contains rows row ↔ (1 ≤ times row rows) }
{}

/// The law that graphs in which each row stands as often, in whatever order, link the same names, and by as few links.
pub fn rows_as_often_reach_the_same()
    ensures { (names : Fit) (rows others : List Fields) (links : ℕ) (x y : List ℕ)
        → ((row : Fields) → times row rows ≡ times row others)
        → Reaches (shape_of names) rows None links x y
        → Reaches (shape_of names) others None links x y }
{}
