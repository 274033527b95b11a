//! Laws: what a call of a function here comes to is there, and is one.

ghost use Rattle.std.specs.Prelude.{◌≡◌, ◌==◌, ◌++◌, ◌↔◌, ℕ, Bool, List, IsTrue};
ghost use Rattle.std.specs.List.{before_first};
ghost use Rattle.key_match.specs.Pieces.{Piece, Covers};
ghost use Rattle.key_match.specs.Stars.{AgreesToStar};
ghost use Rattle.key_match.specs.Names.{CoversAlike};
ghost use Rattle.key_match.specs.Patterns.{brace_pieces, colon_pieces, glob_pieces};
ghost use Rattle.key_match.specs.Signs.{BraceSign, ColonSign, GlobSign, IsKeyPattern, ReadsAs};
ghost use Rattle.key_match.specs.Fronts.{HasFront, brace_front, colon_front, glob_front, star_front};
ghost use Rattle.key_match.specs.Divisions.{LongerFirst, ShorterSegmentFirst, IsNamedPart};

/// The law that a pattern reads as the pieces that the functions take of it, and as no others.
pub fn pattern_reads_one_way()
    ensures colon { (pattern : List ℕ) (pieces : List Piece)
        → IsKeyPattern ColonSign pattern pieces ↔ (pieces ≡ colon_pieces pattern) }
    ensures brace { (pattern : List ℕ) (pieces : List Piece)
        → IsKeyPattern BraceSign pattern pieces ↔ (pieces ≡ brace_pieces pattern) }
    ensures glob { (pattern : List ℕ) (pieces : List Piece)
        → ReadsAs GlobSign 0 pattern pieces ↔ (pieces ≡ glob_pieces pattern) }
{}

/// The law that a key which fits begins with the front of its pattern, and is the pattern where this is all front.
pub fn fitting_key_has_front()
    ensures star { (pattern key : List ℕ) → AgreesToStar key pattern
        → HasFront (star_front pattern) pattern key }
    ensures colon { (pattern key : List ℕ) → Covers (colon_pieces pattern) key
        → HasFront (colon_front pattern) pattern key }
    ensures brace { (pattern key : List ℕ) → Covers (brace_pieces pattern) key
        → HasFront (brace_front pattern) pattern key }
    ensures cut { (pattern key : List ℕ)
        → Covers (brace_pieces pattern) (before_first (λ byte. byte == 63) key)
        → (behind : List ℕ) × (key ≡ brace_front pattern ++ behind) }
    ensures alike { (pattern key : List ℕ) → CoversAlike (brace_pieces pattern) key
        → HasFront (brace_front pattern) pattern key }
    ensures glob { (pattern key : List ℕ) → Covers (glob_pieces pattern) key
        → HasFront (glob_front pattern) pattern key }
{}

/// The law that a test tells whether a key agrees with a pattern up to its first `*`, whether pieces cover a text, and
/// whether they do so that equal names stand for equal parts.
pub fn covering_is_decided()
    ensures star { (key pattern : List ℕ) → (b : Bool) × (IsTrue b ↔ AgreesToStar key pattern) }
    ensures covers { (pieces : List Piece) (text : List ℕ)
        → (b : Bool) × (IsTrue b ↔ Covers pieces text) }
    ensures alike { (pieces : List Piece) (text : List ℕ)
        → (b : Bool) × (IsTrue b ↔ CoversAlike pieces text) }
{}

/// The law that pieces and a key give each name exactly one part, whichever of the two orders counts.
pub fn named_part_is_one()
    ensures longer_there { (pieces : List Piece) (key name : List ℕ)
        → (found : List ℕ) × IsNamedPart LongerFirst pieces key name found }
    ensures shorter_there { (pieces : List Piece) (key name : List ℕ)
        → (found : List ℕ) × IsNamedPart ShorterSegmentFirst pieces key name found }
    ensures longer_unique { (pieces : List Piece) (key name found other : List ℕ)
        → IsNamedPart LongerFirst pieces key name found
        → IsNamedPart LongerFirst pieces key name other → found ≡ other }
    ensures shorter_unique { (pieces : List Piece) (key name found other : List ℕ)
        → IsNamedPart ShorterSegmentFirst pieces key name found
        → IsNamedPart ShorterSegmentFirst pieces key name other → found ≡ other }
{}
