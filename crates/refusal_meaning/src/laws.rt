//! The law of refused searches for patterns that cannot be read.

ghost use Rattle.std.specs.Prelude.{◌≡◌, ℕ, Bool, false, List, None, Result, Some};
ghost use Rattle.std.specs.List.{Contains};
ghost use Rattle.effect_fold.specs.declared.fault.Fault.{Fault};
ghost use Rattle.effect_fold.specs.declared.verdict.Verdict.{Verdict};
ghost use Rattle.perm_base.specs.declared.shapes.Shapes.{Shapes};
ghost use Rattle.perm_value.specs.Datum.{Datum};
ghost use Rattle.policy_table.specs.Tables.{Policy};
ghost use Rattle.regex_gate.specs.Found.{is_readable};
ghost use Rattle.matcher_read.specs.Expression.{Expression};
ghost use Rattle.model_conf.specs.ModelText.{ModelParts};
ghost use Rattle.matcher_meaning.specs.Answers.{Evaluation};
ghost use Rattle.matcher_meaning.specs.Cases.{Case, where_refused};
ghost use Rattle.matcher_meaning.specs.Comes.{ComesTo, TruthIs};
ghost use Rattle.matcher_meaning.specs.Perm.{Refusal};
ghost use Rattle.refusal_meaning.specs.Unread.{AreUnreadable};
ghost use Rattle.matcher_meaning.specs.Verdicts.{IsJudged, IsVerdict};

/// The law that a refused search for a pattern that cannot be read changes nothing: an answer, a truth and a verdict are as they
/// are where nothing is refused, and what is judged where only such patterns count as refused is the verdict.
pub fn unreadable_patterns_are_refused_without_effect()
    ensures value { (case : Case) (e : Expression) (at : ℕ) (pattern : List ℕ) (r : Evaluation)
        → is_readable pattern ≡ false
        → ComesTo (where_refused case (Some (at, pattern))) e r
        → ComesTo (where_refused case None) e r }
    ensures truth { (case : Case) (e : Expression) (at : ℕ) (pattern : List ℕ)
        (r : Result Bool Fault)
        → is_readable pattern ≡ false
        → TruthIs (where_refused case (Some (at, pattern))) e r
        → TruthIs (where_refused case None) e r }
    ensures verdict { (model : ModelParts) (shapes : Shapes) (policy : Policy)
        (request : List Datum) (refusal : Refusal) (v : Verdict)
        → is_readable refusal.pattern ≡ false
        → IsVerdict model shapes policy request (Some refusal) v
        → IsVerdict model shapes policy request None v }
    ensures judged { (model : ModelParts) (shapes : Shapes) (policy : Policy)
        (request : List Datum) (refused : List (List ℕ)) (v : Verdict)
        → AreUnreadable refused
        → IsJudged model shapes policy request (Contains refused) v
        → IsVerdict model shapes policy request None v }
{}
