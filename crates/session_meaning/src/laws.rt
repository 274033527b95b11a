ghost use Rattle.std.specs.Prelude.{◌≡◌, ◌++◌, ◌≤◌, ℕ, All, List, Some, false, length, slice_get, true};
ghost use Rattle.std.specs.List.{Contains};
ghost use Rattle.answer_lines.specs.Told.{is_printable};
ghost use Rattle.answer_lines.specs.declared.answer.Answer as answer;
ghost use Rattle.answer_lines.specs.declared.answer.Line.{Line};
ghost use Rattle.edit_calls.specs.Admitted.{admits};
ghost use Rattle.refusal_meaning.specs.Unread.{AreUnreadable};
ghost use Rattle.model_conf.specs.ModelText.{ModelParts};
ghost use Rattle.perm_base.specs.Shapes.{AreValid};
ghost use Rattle.perm_base.specs.declared.shapes.Shapes.{Shapes};
ghost use Rattle.policy_table.specs.Limits.{AreSound};
ghost use Rattle.policy_table.specs.Tables.{AreOrdered, IsKept, Policy};
ghost use Rattle.policy_table.specs.declared.change.Change.{Change};
ghost use Rattle.script_read.specs.Named.{is_named};
ghost use Rattle.script_read.specs.Said.{Said};
ghost use Rattle.version_log.specs.Log.{most_versions};
ghost use Rattle.session_meaning.specs.Given.{given};
ghost use Rattle.session_meaning.specs.Plain.{AreLines, IsLine, IsPlain, all_refused, none_refused};
ghost use Rattle.session_meaning.specs.Replies.{IsReplyAt, is_decided};
ghost use Rattle.session_meaning.specs.Rounds.{AreOfRound, IsShared};
ghost use Rattle.session_meaning.specs.Versions.{is_publish, tables_at};

use edit_calls::{admitted_edits_keep_sound, edits_apply, edits_are_admitted};
use matcher_meaning::{
    case_verdict_is_there, case_verdict_is_unique, judged_is_the_verdict, order_of_rows_is_one,
};
use refusal_meaning::unreadable_patterns_are_refused_without_effect;

/// The law that each script has lines, one for each item.
pub fn lines_are_there()
    ensures there { (model : ModelParts) (shapes : Shapes) (opening : Policy) (items : List Said)
        → (lines : List Line) × IsPlain model shapes opening items (none_refused items) lines }
    ensures counted { (model : ModelParts) (shapes : Shapes) (opening : Policy)
        (items : List Said) (refused : List (List (List ℕ))) (lines : List Line)
        → IsPlain model shapes opening items refused lines
        → length lines ≡ length items }
{
    case_verdict_is_there();
}

/// The law that a script has the same lines each time, where nothing is refused but searches for patterns that cannot be read.
pub fn lines_are_one()
    ensures { (model : ModelParts) (shapes : Shapes) (opening : Policy) (items : List Said)
        (refused others : List (List (List ℕ))) (first second : List Line)
        → IsPlain model shapes opening items refused first
        → IsPlain model shapes opening items others second
        → AreUnreadable (all_refused refused) → AreUnreadable (all_refused others)
        → first ≡ second }
{
    case_verdict_is_unique();
    unreadable_patterns_are_refused_without_effect();
}

/// The law that the line of a request that is decided stays its line where more patterns were refused for it.
pub fn lines_stay()
    ensures { (model : ModelParts) (shapes : Shapes) (opening : Policy) (before : List Said)
        (item : Said) (few many : List (List ℕ)) (line : Line)
        → ((pattern : List ℕ) → Contains few pattern → Contains many pattern)
        → is_decided model item ≡ true
        → IsLine model shapes opening before item few line
        → IsLine model shapes opening before item many line }
{
    judged_is_the_verdict();
}

/// The law that what an item is answered can be printed: the rule that a verdict names is there, and where the item's table has
/// a name each table that is named has one.
pub fn replies_are_printable()
    ensures printable { (model : ModelParts) (shapes : Shapes) (opening : Policy)
        (refused : List (List ℕ)) (before : List Said) (version : ℕ) (tables : Policy)
        (item : Said) (reply : answer.Answer)
        → is_named item ≡ true
        → IsReplyAt model shapes opening refused before version tables item reply
        → is_printable reply ≡ true }
{
    order_of_rows_is_one();
}

/// The law that each script has lines with any number of workers, one for each item: its plain lines are among them. In a round
/// without a publish there are no others.
pub fn plain_lines_are_shared()
    ensures plain { (model : ModelParts) (shapes : Shapes) (opening : Policy) (workers : ℕ)
        (items : List Said) (refused : List (List (List ℕ))) (lines : List Line)
        → IsPlain model shapes opening items refused lines
        → IsShared model shapes opening workers items refused lines }
    ensures there { (model : ModelParts) (shapes : Shapes) (opening : Policy) (workers : ℕ)
        (items : List Said)
        → (lines : List Line)
        × IsShared model shapes opening workers items (none_refused items) lines }
    ensures counted { (model : ModelParts) (shapes : Shapes) (opening : Policy) (workers : ℕ)
        (items : List Said) (refused : List (List (List ℕ))) (lines : List Line)
        → IsShared model shapes opening workers items refused lines
        → length lines ≡ length items }
    ensures calm { (model : ModelParts) (shapes : Shapes) (opening : Policy) (workers : ℕ)
        (before round : List Said) (refused : List (List (List ℕ))) (lines : List Line)
        → All (λ item. is_publish item ≡ false) round
        → AreOfRound model shapes opening workers before round refused lines
        → AreLines model shapes opening before round refused lines }
{
    lines_are_there();
}

/// The law that the edits of a longer list of items begin with those of its front, and that there are never more than may be.
pub fn edits_stay_given()
    ensures begins { (shapes : Shapes) (opening : Policy) (front back : List Said)
        → (rest : List (List Change))
        × (given shapes opening (front ++ back) ≡ given shapes opening front ++ rest) }
    ensures few { (shapes : Shapes) (opening : Policy) (items : List Said)
        → length (given shapes opening items) ≤ most_versions }
{}

/// The law that over opening tables that are in order each edit is admitted in the tables of the version before it; and that
/// where they are sound the tables of each version are, so that no table of theirs has 2^32 rules.
pub fn given_edits_are_admitted()
    ensures admitted { (shapes : Shapes) (opening : Policy) (items : List Said) (at : ℕ)
        (edit : List Change)
        → AreValid shapes
        → AreOrdered opening
        → slice_get (given shapes opening items) at ≡ Some edit
        → admits shapes (tables_at shapes opening items at) edit ≡ true }
    ensures sound { (shapes : Shapes) (opening : Policy) (items : List Said) (version : ℕ)
        → AreValid shapes
        → AreOrdered opening
        → AreSound shapes opening
        → AreSound shapes (tables_at shapes opening items version) }
    ensures kept { (shapes : Shapes) (opening : Policy) (items : List Said) (version : ℕ)
        → AreValid shapes
        → AreOrdered opening
        → AreSound shapes opening
        → IsKept (tables_at shapes opening items version) }
{
    edits_apply();
    edits_are_admitted();
    admitted_edits_keep_sound();
}
