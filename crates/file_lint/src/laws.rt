ghost use Rattle.std.specs.Prelude.{◌≡◌, ◌∷◌, ℕ, List, None, false};
ghost use Rattle.file_lint.specs.Findings.{count_of};
ghost use Rattle.file_lint.specs.ModelErrors.{HasErrors, most_errors};
ghost use Rattle.file_lint.specs.ModelWords.{error_of};
ghost use Rattle.file_lint.specs.PolicyErrors.{LintsPolicy};
ghost use Rattle.file_lint.specs.declared.finding.Finding.{Finding};
ghost use Rattle.file_lint.specs.declared.finding.Level.TheVariants.{Error};
ghost use Rattle.model_conf.specs.ModelText.{ModelParts};
ghost use Rattle.perm_base.specs.declared.shapes.Shapes.{Shapes};
ghost use Rattle.model_conf.specs.declared.fault.ModelFault.{ModelFault};

/// The law that the errors of a text begin with the fault that is told of it first.
pub fn errors_begin_with_the_fault()
    ensures { (bytes : List ℕ) (first : ModelFault) (errors : List Finding)
        → HasErrors most_errors false bytes first errors
        → (others : List Finding) × (errors ≡ error_of first bytes ∷ others) }
{}

/// The law that a policy without a fault has no error among its findings.
pub fn policies_without_fault_have_no_errors()
    ensures { (model : ModelParts) (shapes : Shapes) (bytes : List ℕ) (findings : List Finding)
        → LintsPolicy model shapes bytes None findings → count_of Error findings ≡ 0 }
{}
