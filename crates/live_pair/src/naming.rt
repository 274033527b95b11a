use std::marker::Brand;

/// Which pair it is: the book of its history, the shapes of its tables, the tables at its opening, and the edits that the
/// policy had then. What is of one pair has one such type. `Brand` stands for whatever its caller names.
pub trait Naming {
    ghost use Rattle.std.specs.Prelude.{List};
    ghost use Rattle.logbook.specs.Pages.{Book};
    ghost use Rattle.perm_base.specs.declared.shapes.Shapes.{Shapes};
    ghost use Rattle.policy_table.specs.Tables.{Policy};
    ghost use Rattle.policy_table.specs.declared.change.Change.{Change};

    ghost book: { Book };

    ghost shapes: { Shapes };

    ghost opening: { Policy };

    ghost first: { List (List Change) };
}

impl Naming for Brand {
    ghost use Rattle.std.specs.Prelude.{[], None, false};
    ghost use Rattle.policy_table.specs.Tables.{without_rules};

    ghost book = { record { number = 0; log_name = 0; cells_name = 0 } };

    ghost shapes = { record {
      columns = 1;
      effect_column = None;
      subject_column = 0;
      roles = [];
      limit = 1;
      ranked = false;
    } };

    ghost opening = { without_rules false };

    ghost first = { [] };
}
