ghost use Rattle.std.specs.Prelude.{◌≡◌, ◌⊎◌, ℕ, All, Bool, List, IsUtf8, true};
ghost use Rattle.script_read.specs.Named.{is_named};
ghost use Rattle.script_read.specs.Reads.{Reader};
ghost use Rattle.script_read.specs.Said.{Said};
ghost use Rattle.script_read.specs.Script.{IsRequests, IsScript, IsScriptFault};
ghost use Rattle.script_read.specs.declared.fault.ScriptFault.{ScriptFault};

/// The law that there is a reader of texts, and that all give the same.
pub fn texts_are_read_in_one_way()
    ensures always { (json : Bool) → Reader json }
    ensures fields { (json : Bool) (first second : Reader json) (text : List ℕ)
        → first.fields text ≡ second.fields text }
    ensures request { (json : Bool) (first second : Reader json) (text : List ℕ)
        → first.request text ≡ second.request text }
{}

/// The law that a text says one script at most.
pub fn text_says_one_script()
    ensures { (json : Bool) (bytes : List ℕ) (first second : List Said)
        → IsScript json bytes first → IsScript json bytes second → first ≡ second }
{}

/// The law that a text has one first fault at most.
pub fn text_has_one_script_fault()
    ensures { (json : Bool) (bytes : List ℕ) (first second : ScriptFault)
        → IsScriptFault json bytes first → IsScriptFault json bytes second → first ≡ second }
{}

/// The law that a text with a fault is no script.
pub fn faulty_text_is_no_script()
    ensures { (json : Bool) (bytes : List ℕ) (fault : ScriptFault) (items : List Said)
        → IsScriptFault json bytes fault → ¬ (IsScript json bytes items) }
{}

/// The law that every text is a script or has a fault.
pub fn every_text_is_a_script_or_at_fault()
    ensures { (json : Bool) (bytes : List ℕ)
        → ((items : List Said) × IsScript json bytes items)
        ⊎ ((fault : ScriptFault) × IsScriptFault json bytes fault) }
{}

/// The law that an input says one list of requests at most.
pub fn input_says_one_list_of_requests()
    ensures { (json : Bool) (bytes : List ℕ) (first second : List Said)
        → IsRequests json bytes first → IsRequests json bytes second → first ≡ second }
{}

/// The law that every input is requests or no UTF-8, and never both.
pub fn every_input_is_requests_or_at_fault()
    ensures always { (json : Bool) (bytes : List ℕ)
        → ((items : List Said) × IsRequests json bytes items) ⊎ (¬ (IsUtf8 bytes)) }
    ensures never_both { (json : Bool) (bytes : List ℕ) (items : List Said)
        → IsRequests json bytes items → IsUtf8 bytes }
{}

/// The law that the tables of the items that a text says have names, and that none is a want of memory.
pub fn items_are_named()
    ensures script { (json : Bool) (bytes : List ℕ) (items : List Said)
        → IsScript json bytes items → All (λ item. is_named item ≡ true) items }
    ensures requests { (json : Bool) (bytes : List ℕ) (items : List Said)
        → IsRequests json bytes items → All (λ item. is_named item ≡ true) items }
{}
