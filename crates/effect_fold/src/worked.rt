ghost use Rattle.std.specs.Prelude.{◌≡◌, [], ◌∷◌, None, Some, false, true};
ghost use Rattle.effect_fold.specs.Verdict.{at_row, verdict};
ghost use Rattle.effect_fold.specs.declared.effect.Effect.TheVariants.{AllowOverride, DenyOverride, AllowAndDeny, Priority, SubjectPriority};
ghost use Rattle.effect_fold.specs.declared.fault.Fault.{Fault};
ghost use Rattle.effect_fold.specs.declared.outcome.Outcome.TheVariants.{Unmatched, Matched, Failed};
ghost use Rattle.effect_fold.specs.declared.verdict.Verdict.TheVariants.{Allow, Deny};
ghost use Rattle.effect_fold.specs.declared.verdict.Verdict.TheVariants as told;

/// Worked lists of outcomes and their verdicts, for each effect. It does nothing when run.
pub fn worked_verdicts()
    ensures allow_nothing { verdict AllowOverride [] ≡ Deny None }
    ensures allow_second { verdict AllowOverride
        (at_row 1 (Matched false) ∷ at_row 2 (Matched true) ∷ at_row 3 (Matched true) ∷ [])
        ≡ Allow (Some 2) }
    ensures allow_none { verdict AllowOverride (at_row 1 Unmatched ∷ at_row 2 (Matched false) ∷ [])
        ≡ Deny None }
    ensures allow_before_fault { (f : Fault)
        → verdict AllowOverride (at_row 1 (Matched true) ∷ at_row 2 (Failed f) ∷ [])
        ≡ Allow (Some 1) }
    ensures fault_before_allow { (f : Fault)
        → verdict AllowOverride
        (at_row 1 Unmatched ∷ at_row 2 (Failed f) ∷ at_row 3 (Matched true) ∷ [])
        ≡ told.Fault (Some 2) f }
    ensures deny_nothing { verdict DenyOverride [] ≡ Allow None }
    ensures deny_second { verdict DenyOverride
        (at_row 1 (Matched true) ∷ at_row 2 (Matched false) ∷ [])
        ≡ Deny (Some 2) }
    ensures deny_none { verdict DenyOverride (at_row 1 Unmatched ∷ at_row 2 (Matched true) ∷ [])
        ≡ Allow None }
    ensures fault_before_deny { (f : Fault)
        → verdict DenyOverride (at_row 1 (Failed f) ∷ at_row 2 (Matched false) ∷ [])
        ≡ told.Fault (Some 1) f }
    ensures both_nothing { verdict AllowAndDeny [] ≡ Deny None }
    ensures both_deny { verdict AllowAndDeny
        (at_row 1 (Matched true) ∷ at_row 2 (Matched false) ∷ [])
        ≡ Deny (Some 2) }
    ensures both_allow { verdict AllowAndDeny
        (at_row 1 Unmatched ∷ at_row 2 (Matched true) ∷ at_row 3 (Matched true) ∷ [])
        ≡ Allow (Some 2) }
    ensures both_fault_after_allow { (f : Fault)
        → verdict AllowAndDeny (at_row 1 (Matched true) ∷ at_row 2 (Failed f) ∷ [])
        ≡ told.Fault (Some 2) f }
    ensures priority_nothing { verdict Priority [] ≡ Deny None }
    ensures priority_deny { verdict Priority
        (at_row 1 Unmatched ∷ at_row 2 (Matched false) ∷ at_row 3 (Matched true) ∷ [])
        ≡ Deny (Some 2) }
    ensures priority_allow { verdict Priority
        (at_row 1 (Matched true) ∷ at_row 2 (Matched false) ∷ [])
        ≡ Allow (Some 1) }
    // The rows are given in the order in which they are taken, whatever their numbers.
    ensures subject_priority_nothing { verdict SubjectPriority [] ≡ Deny None }
    ensures subject_priority_none { verdict SubjectPriority
        (at_row 2 Unmatched ∷ at_row 1 Unmatched ∷ [])
        ≡ Deny None }
    ensures subject_priority_deny { verdict SubjectPriority
        (at_row 3 Unmatched ∷ at_row 2 (Matched false) ∷ at_row 1 (Matched true) ∷ [])
        ≡ Deny (Some 2) }
    ensures subject_priority_allow { verdict SubjectPriority
        (at_row 5 (Matched true) ∷ at_row 3 (Matched false) ∷ at_row 1 (Matched false) ∷ [])
        ≡ Allow (Some 5) }
    ensures subject_priority_fault { (f : Fault)
        → verdict SubjectPriority
        (at_row 2 Unmatched ∷ at_row 3 (Failed f) ∷ at_row 1 (Matched true) ∷ [])
        ≡ told.Fault (Some 3) f }
{}
