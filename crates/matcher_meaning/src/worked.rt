//! Worked cases, so that the definitions can be read beside what they say.

ghost use Rattle.std.specs.Prelude.{◌≡◌, ◌≢◌, ℕ, pos, true, List, [], ◌∷◌, Some, Ok};
ghost use Rattle.effect_fold.specs.declared.effect.Effect.TheVariants.{SubjectPriority};
ghost use Rattle.effect_fold.specs.declared.fault.Cause.TheVariants.{Kind, NoAttribute, RuleText};
ghost use Rattle.matcher_read.specs.Expression.{binary, evaluated, request, whole};
ghost use Rattle.matcher_read.specs.declared.tree.Operator.TheVariants.{Greater, Plus};
ghost use Rattle.model_conf.specs.ModelText.{ModelParts};
ghost use Rattle.model_conf.specs.RuleText.{IsNoRuleText};
ghost use Rattle.perm_value.specs.Datum.{Datum};
ghost use Rattle.perm_value.specs.Datum as datum;
ghost use Rattle.policy_table.specs.Tables.{Fields};
ghost use Rattle.role_meaning.specs.Depths.{by_depth};
ghost use Rattle.matcher_meaning.specs.Answers.{fails};
ghost use Rattle.matcher_meaning.specs.Cases.{Case, asked_value, row_text};
ghost use Rattle.matcher_meaning.specs.Comes.{ComesTo, RuleComesTo};
ghost use Rattle.matcher_meaning.specs.Order.{AreInOrder, in_order_of, numbered, numbered_from};
ghost use Rattle.matcher_meaning.specs.Verdicts.{case_of};
ghost use Rattle.matcher_meaning.specs.Worked.{subject_shapes, with_role};

/// Worked rules of a column and orders of rows. It does nothing when run.
pub fn worked_cases()
    // `r.age > 18` in a column, for the age 20.
    ensures truth { (case : Case) (age : List ℕ)
        → asked_value case age ≡ Some (datum.whole (pos 20))
        → RuleComesTo case 1 (binary 7 Greater (request 1 age []) (whole 9 (pos 18)))
        (Ok (datum.truth true)) }
    // `1 + 1` in a column is no truth, and that is told at the place of its `eval`.
    ensures other_kind { (case : Case)
        → RuleComesTo case 1 (binary 3 Plus (whole 1 (pos 1)) (whole 5 (pos 1))) (fails Kind 1) }
    // `r.sub.Age > 18` in a column, of a subject that is a text: the fault stands at its `eval`.
    ensures no_attribute { (case : Case) (sub age bytes : List ℕ)
        → asked_value case sub ≡ Some (datum.text bytes)
        → RuleComesTo case 4
        (binary 11 Greater (request 1 sub (age ∷ [])) (whole 13 (pos 18))) (fails NoAttribute 4) }
    // A field that says no rule is told at the place of its `eval`.
    ensures no_rule { (case : Case) (column : List ℕ)
        → IsNoRuleText case.model (row_text case column)
        → ComesTo case (evaluated 6 column) (fails RuleText 6) }
    // The deeper subjects first, and those of one depth as they stand.
    ensures order { (a b c d : Fields)
        → in_order_of (by_depth (1 ∷ 3 ∷ 0 ∷ 3 ∷ [])) (numbered_from 1 (a ∷ b ∷ c ∷ d ∷ []))
        ≡ numbered 2 b ∷ numbered 4 d ∷ numbered 1 a ∷ numbered 3 c ∷ [] }
    // Of two rows, that of the role and that of its user, the user's is judged first.
    ensures user_before_role { (model : ModelParts) (request : List Datum) (user role : List ℕ)
        → role ≢ user
        → AreInOrder (case_of model subject_shapes (with_role user role) request) SubjectPriority
        ((role ∷ []) ∷ (user ∷ []) ∷ [])
        (numbered 2 (user ∷ []) ∷ numbered 1 (role ∷ []) ∷ []) }
{}
