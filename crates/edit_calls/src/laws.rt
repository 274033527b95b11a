ghost use Rattle.std.specs.Prelude.{◌≡◌, ◌++◌, List, None, Some, true, length, is_some};
ghost use Rattle.std.specs.List.{IsDistinct};
ghost use Rattle.perm_base.specs.declared.shapes.Shapes.{Shapes};
ghost use Rattle.perm_base.specs.declared.shapes.TableId.TheVariants.{P};
ghost use Rattle.policy_table.specs.Changes.{applies, edited, replay};
ghost use Rattle.policy_table.specs.Limits.{AreSound, HaveShapes, passed};
ghost use Rattle.policy_table.specs.Tables.{Policy, most_tables, place, rows, same};
ghost use Rattle.policy_table.specs.declared.change.Change.{Change};
ghost use Rattle.edit_calls.specs.Admitted.{AreAdmitted, admits};
ghost use Rattle.edit_calls.specs.Edits.{edit_by};
ghost use Rattle.edit_calls.specs.Refusals.{refusal, table_of};
ghost use Rattle.edit_calls.specs.declared.call.Call.{Call};

/// The law that the edit of a call can be made in tables that have the call's table, where it and p have no rule twice.
pub fn edits_apply()
    ensures { (shapes : Shapes) (policy : Policy) (call : Call) (edit : List Change)
        → length policy.lists ≡ most_tables
        → IsDistinct same (rows policy (table_of call))
        → IsDistinct same (rows policy P)
        → is_some (place (table_of call)) ≡ true
        → edit_by shapes policy call ≡ Some edit
        → applies edit policy ≡ true }
{}

/// The law that the edit of a call that is not refused leaves tables of the same shapes.
pub fn edits_keep_shapes()
    ensures { (shapes : Shapes) (policy : Policy) (call : Call) (edit : List Change)
        → HaveShapes shapes policy
        → refusal shapes call ≡ None
        → edit_by shapes policy call ≡ Some edit
        → HaveShapes shapes (edited edit policy) }
{}

/// The law that the edit of a call that is not refused leaves sound tables, unless they pass a limit after it.
pub fn edits_keep_sound()
    ensures { (shapes : Shapes) (policy : Policy) (call : Call) (edit : List Change)
        → AreSound shapes policy
        → refusal shapes call ≡ None
        → edit_by shapes policy call ≡ Some edit
        → passed shapes (edited edit policy) ≡ None
        → AreSound shapes (edited edit policy) }
{}

/// The law that the edit of a call that is not refused is admitted, where it applies and the tables after it pass no limit.
pub fn edits_are_admitted()
    ensures { (shapes : Shapes) (policy : Policy) (call : Call) (edit : List Change)
        → refusal shapes call ≡ None
        → edit_by shapes policy call ≡ Some edit
        → applies edit policy ≡ true
        → passed shapes (edited edit policy) ≡ None
        → admits shapes policy edit ≡ true }
{}

/// The law that changes that are admitted can be made, and leave sound tables.
pub fn admitted_edits_keep_sound()
    ensures applies { (shapes : Shapes) (policy : Policy) (changes : List Change)
        → admits shapes policy changes ≡ true
        → applies changes policy ≡ true }
    ensures sound { (shapes : Shapes) (policy : Policy) (changes : List Change)
        → AreSound shapes policy
        → admits shapes policy changes ≡ true
        → AreSound shapes (edited changes policy) }
{}

/// The law that two lists of edits are admitted one behind the other exactly where the first is admitted, and the second in
/// the tables after it.
pub fn admitted_edits_compose()
    ensures parts { (shapes : Shapes) (policy : Policy) (front back : List (List Change))
        → AreAdmitted shapes policy (front ++ back)
        → AreAdmitted shapes policy front × AreAdmitted shapes (replay front policy) back }
    ensures whole { (shapes : Shapes) (policy : Policy) (front back : List (List Change))
        → AreAdmitted shapes policy front
        → AreAdmitted shapes (replay front policy) back
        → AreAdmitted shapes policy (front ++ back) }
{}
