ghost use Rattle.std.specs.Prelude.{◌≡◌, ◌++◌, ◌∷◌, List, [], codes};
ghost use Rattle.policy_table.specs.declared.change.Change.{Change};
ghost use Rattle.version_log.specs.EditText.{edit_lines};
ghost use Rattle.answer_lines.specs.LineText.{change_lines};

/// The law that the further lines by which an edit is told are those of its text, as `print_edit` prints it, without the last,
/// which is `.`.
pub fn edits_are_told_line_by_line()
    ensures { (edit : List Change) → edit_lines edit ≡ change_lines edit ++ codes "." ∷ [] }
{}
