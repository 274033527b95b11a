//! Laws of what is judged where patterns count as refused.

ghost use Rattle.std.specs.Prelude.{◌≡◌, ℕ, false, List, [], None};
ghost use Rattle.std.specs.List.{Contains};
ghost use Rattle.effect_fold.specs.declared.verdict.Verdict.{Verdict};
ghost use Rattle.model_conf.specs.ModelText.{ModelParts};
ghost use Rattle.perm_base.specs.declared.shapes.Shapes.{Shapes};
ghost use Rattle.perm_value.specs.Datum.{Datum};
ghost use Rattle.policy_table.specs.Tables.{Policy};
ghost use Rattle.matcher_meaning.specs.Perm.{is_refusal};
ghost use Rattle.matcher_meaning.specs.Verdicts.{IsJudged, IsVerdict};

/// The law that what is judged is the verdict, unless it is the fault of a refused search, and
/// always where no pattern counts as refused; and that it stays judged where more patterns count.
pub fn judged_is_the_verdict()
    ensures unless_refused { (model : ModelParts) (shapes : Shapes) (policy : Policy)
        (request : List Datum) (bad : List (List ℕ)) (v : Verdict)
        → is_refusal v ≡ false
        → IsJudged model shapes policy request (Contains bad) v
        → IsVerdict model shapes policy request None v }
    ensures none_bad { (model : ModelParts) (shapes : Shapes) (policy : Policy)
        (request : List Datum) (v : Verdict)
        → IsJudged model shapes policy request (Contains []) v
        → IsVerdict model shapes policy request None v }
    ensures more_bad { (model : ModelParts) (shapes : Shapes) (policy : Policy)
        (request : List Datum) (bad worse : List (List ℕ)) (v : Verdict)
        → ((pattern : List ℕ) → Contains bad pattern → Contains worse pattern)
        → IsJudged model shapes policy request (Contains bad) v
        → IsJudged model shapes policy request (Contains worse) v }
{}
