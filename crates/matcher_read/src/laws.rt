ghost use Rattle.std.specs.Prelude.{◌≡◌, ◌⊎◌, ℕ, List, Some};
ghost use Rattle.matcher_read.specs.Calls.{function_of, name_of};
ghost use Rattle.matcher_read.specs.Expression.{Expression};
ghost use Rattle.matcher_read.specs.Faults.{IsFault};
ghost use Rattle.matcher_read.specs.Matcher.{IsMatcher};
ghost use Rattle.matcher_read.specs.declared.fault.MatcherFault.{MatcherFault};
ghost use Rattle.matcher_read.specs.declared.tree.Function.{Function};

/// The law that a text says one matcher at most.
pub fn text_says_one_matcher()
    ensures { (bytes : List ℕ) (first second : Expression)
        → IsMatcher bytes first → IsMatcher bytes second → first ≡ second }
{}

/// The law that a text has one first fault at most.
pub fn text_has_one_fault()
    ensures { (bytes : List ℕ) (first second : MatcherFault)
        → IsFault bytes first → IsFault bytes second → first ≡ second }
{}

/// The law that a text with a fault is no matcher.
pub fn faulty_text_is_no_matcher()
    ensures { (bytes : List ℕ) (fault : MatcherFault) (e : Expression)
        → IsFault bytes fault → ¬ (IsMatcher bytes e) }
{}

/// The law that every text is a matcher or has a fault.
pub fn every_text_is_a_matcher_or_at_fault()
    ensures { (bytes : List ℕ) → ((e : Expression) × IsMatcher bytes e)
        ⊎ ((fault : MatcherFault) × IsFault bytes fault) }
{}

/// The law that each function is the function of its own name, and that no two have one name.
pub fn functions_have_names()
    ensures found { (called : Function) → function_of (name_of called) ≡ Some called }
    ensures distinct { (called other : Function) → name_of called ≡ name_of other
        → called ≡ other }
{}
