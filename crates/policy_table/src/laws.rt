ghost use Rattle.std.specs.Prelude.{◌≡◌, ◌&&◌, ◌++◌, List, None, length, true};
ghost use Rattle.perm_base.specs.declared.shapes.Shapes.{Shapes};
ghost use Rattle.perm_base.specs.declared.shapes.TableId.{TableId};
ghost use Rattle.policy_table.specs.Changes.{applies, edited, flat, own, replay};
ghost use Rattle.policy_table.specs.Limits.{HaveShapes, passed};
ghost use Rattle.policy_table.specs.Tables.{AreLists, AreOrdered, Policy, most_tables, rows};
ghost use Rattle.policy_table.specs.declared.change.Change.{Change};

/// The law that changes in two parts are made part by part, and apply where each part does at its turn.
pub fn edits_compose()
    ensures made { (front back : List Change) (policy : Policy)
        → edited (front ++ back) policy ≡ edited back (edited front policy) }
    ensures apply { (front back : List Change) (policy : Policy)
        → applies (front ++ back) policy
        ≡ (applies front policy && applies back (edited front policy)) }
{}

/// The law that an edit that applies leaves tables in which no rule stands twice and a ranked p stands in rising order of
/// rank, and that each edit leaves the mark of p and the number of tables.
pub fn edits_keep_order()
    ensures order { (changes : List Change) (policy : Policy)
        → AreOrdered policy
        → applies changes policy ≡ true
        → AreOrdered (edited changes policy) }
    ensures mark { (changes : List Change) (policy : Policy)
        → (edited changes policy).ranked ≡ policy.ranked }
    ensures number { (changes : List Change) (policy : Policy)
        → length (edited changes policy).lists ≡ length policy.lists }
{}

/// The law that the rules of a table after an edit are those after its own changes alone, which apply where the edit does.
pub fn edits_by_table()
    ensures rows { (changes : List Change) (policy : Policy) (table : TableId)
        → rows (edited changes policy) table ≡ rows (edited (own table changes) policy) table }
    ensures apply { (changes : List Change) (policy : Policy) (table : TableId)
        → applies changes policy ≡ true
        → applies (own table changes) policy ≡ true }
{}

/// The law that edits that are made one after the other are one edit, of all their changes.
pub fn replay_is_edited()
    ensures { (edits : List (List Change)) (policy : Policy)
        → replay edits policy ≡ edited (flat edits) policy }
{}

/// The law that no table within the limits has 2^32 rules.
pub fn tables_within_limits_are_lists()
    ensures { (shapes : Shapes) (policy : Policy)
        → length policy.lists ≡ most_tables
        → HaveShapes shapes policy
        → passed shapes policy ≡ None
        → AreLists policy.lists }
{}
