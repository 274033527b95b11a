ghost use Rattle.std.specs.Prelude.{◌≡◌, ◌==◌, ℕ, ◌<◌, AllPairs, List, nat_eq, true};
ghost use Rattle.std.specs.List.{before_first, list_any};
ghost use Rattle.key_match.specs.Names.{CoversAlike};
ghost use Rattle.key_match.specs.Patterns.{brace_pieces, colon_pieces, glob_pieces};
ghost use Rattle.key_match.specs.Pieces.{Covers};
ghost use Rattle.key_match.specs.Stars.{AgreesToStar};
ghost use Rattle.policy_table.specs.Tables.{Fields};
ghost use Rattle.policy_index.specs.Keys.{may_fit};
ghost use Rattle.policy_index.specs.Places.{has_text_at, places_of};
ghost use Rattle.policy_index.specs.declared.key.FrontKind.TheVariants.{Brace, Colon, CutBrace, Glob, Star};

/// The law that a number is among the places of a text exactly where the rule at that place has the text, and that places
/// rise.
pub fn places_are_exact()
    ensures exact { (column : ℕ) (text : List ℕ) (rules : List Fields) (at : ℕ)
        → list_any (nat_eq at) (places_of column text rules) ≡ has_text_at column text rules at }
    ensures rising { (column : ℕ) (text : List ℕ) (rules : List Fields)
        → AllPairs (λ first second. first < second) (places_of column text rules) }
{}

/// The law that a text which fits a pattern may fit it by its front.
pub fn fitting_text_may_fit()
    ensures star { (pattern text : List ℕ) → AgreesToStar text pattern
        → may_fit Star pattern text ≡ true }
    ensures colon { (pattern text : List ℕ) → Covers (colon_pieces pattern) text
        → may_fit Colon pattern text ≡ true }
    ensures brace { (pattern text : List ℕ) → Covers (brace_pieces pattern) text
        → may_fit Brace pattern text ≡ true }
    ensures alike { (pattern text : List ℕ) → CoversAlike (brace_pieces pattern) text
        → may_fit Brace pattern text ≡ true }
    ensures cut { (pattern text : List ℕ)
        → Covers (brace_pieces pattern) (before_first (λ byte. byte == 63) text)
        → may_fit CutBrace pattern text ≡ true }
    ensures glob { (pattern text : List ℕ) → Covers (glob_pieces pattern) text
        → may_fit Glob pattern text ≡ true }
{}
