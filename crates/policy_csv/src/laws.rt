ghost use Rattle.std.specs.Prelude.{◌≡◌, ◌⊎◌, ℕ, List, IsUtf8};
ghost use Rattle.perm_base.specs.Shapes.{AreValid};
ghost use Rattle.perm_base.specs.declared.shapes.Shapes.{Shapes};
ghost use Rattle.perm_base.specs.declared.shapes.TableId.{TableId};
ghost use Rattle.policy_csv.specs.Faults.{IsPolicyFault};
ghost use Rattle.policy_csv.specs.Policy.{IsPolicy};
ghost use Rattle.policy_csv.specs.Printed.{HaveFields, printed};
ghost use Rattle.policy_csv.specs.declared.fault.PolicyFault.{PolicyFault};
ghost use Rattle.policy_table.specs.Limits.{AreSound};
ghost use Rattle.policy_table.specs.Tables.{IsKept, Policy};

/// The law that a text says one policy at most.
pub fn text_says_one_policy()
    ensures { (shapes : Shapes) (bytes : List ℕ) (first second : Policy)
        → IsPolicy shapes bytes first → IsPolicy shapes bytes second → first ≡ second }
{}

/// The law that a text has one first fault at most.
pub fn text_has_one_policy_fault()
    ensures { (shapes : Shapes) (bytes : List ℕ) (first second : PolicyFault)
        → IsPolicyFault shapes bytes first → IsPolicyFault shapes bytes second → first ≡ second }
{}

/// The law that a text with a fault is no policy.
pub fn faulty_text_is_no_policy()
    ensures { (shapes : Shapes) (bytes : List ℕ) (fault : PolicyFault) (policy : Policy)
        → IsPolicyFault shapes bytes fault → ¬ (IsPolicy shapes bytes policy) }
{}

/// The law that every text is a policy or has a fault.
pub fn every_text_is_a_policy_or_at_fault()
    ensures { (shapes : Shapes) (bytes : List ℕ)
        → ((policy : Policy) × IsPolicy shapes bytes policy)
        ⊎ ((fault : PolicyFault) × IsPolicyFault shapes bytes fault) }
{}

/// The law that the printed text of tables that have valid shapes says these tables, where no field holds a line end
/// and the text is UTF-8, as it is of all tables that are printed.
pub fn printed_policy_is_read()
    ensures { (shapes : Shapes) (policy : Policy) → AreValid shapes
        → IsKept policy → AreSound shapes policy → ((table : TableId) → HaveFields policy table)
        → IsUtf8 (printed policy) → IsPolicy shapes (printed policy) policy }
{}
