ghost use Rattle.std.specs.Prelude.{◌≡◌, ◌⊎◌, ℕ, List};
ghost use Rattle.policy_table.specs.declared.change.Change.{Change};
ghost use Rattle.version_log.specs.EditText.{IsEditFault, IsEditText};
ghost use Rattle.version_log.specs.declared.edit_fault.EditFault.{EditFault};

/// The law that a text is that of one edit at most.
pub fn text_says_one_edit()
    ensures { (bytes : List ℕ) (first second : List Change)
        → IsEditText bytes first → IsEditText bytes second → first ≡ second }
{}

/// The law that a text has one fault at most.
pub fn text_has_one_edit_fault()
    ensures { (bytes : List ℕ) (first second : EditFault)
        → IsEditFault bytes first → IsEditFault bytes second → first ≡ second }
{}

/// The law that a text with a fault is no edit's.
pub fn faulty_text_is_no_edit()
    ensures { (bytes : List ℕ) (fault : EditFault) (changes : List Change)
        → IsEditFault bytes fault → ¬ (IsEditText bytes changes) }
{}

/// The law that every text is an edit's or has a fault.
pub fn every_text_is_an_edit_or_at_fault()
    ensures { (bytes : List ℕ) → ((changes : List Change) × IsEditText bytes changes)
        ⊎ ((fault : EditFault) × IsEditFault bytes fault) }
{}
