ghost use Rattle.std.specs.Prelude.{◌≡◌, ◌++◌, ℕ, Bool, List};
ghost use Rattle.item_stream.specs.Sections.{Section, sections_of, whole_sections};

/// The law that the sections of a longer stream begin with those that are whole in its front.
pub fn front_is_cut_first()
    ensures all { (follow : Bool) (front back : List ℕ) → (rest : List Section)
        × (sections_of follow (front ++ back) ≡ whole_sections follow front ++ rest) }
    ensures whole { (follow : Bool) (front back : List ℕ) → (rest : List Section)
        × (whole_sections follow (front ++ back) ≡ whole_sections follow front ++ rest) }
{}
