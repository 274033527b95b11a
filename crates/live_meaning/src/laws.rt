ghost use Rattle.std.specs.Prelude.{◌≡◌, ◌≤◌, ◌<◌, ◌⊎◌, ℕ, List, take};
ghost use Rattle.live_meaning.specs.Events.{cut};
ghost use Rattle.live_meaning.specs.Fronts.{IsLegal};
ghost use Rattle.live_meaning.specs.Laws.{IsAnswered, IsPublished};
ghost use Rattle.live_meaning.specs.declared.events.Event as event;
ghost use Rattle.live_meaning.specs.declared.events.Event.TheVariants as events;
ghost use Rattle.live_meaning.specs.declared.events.Reply.TheVariants.{Done, Entered, Noted};

/// The law that each entry is legal: its version was published at some place before, is no older than any that its seat was
/// shown, and is not above what is published.
pub fn entries_are_legal()
    ensures legal { (all : List event.Event) (at seat version : ℕ)
        → IsAnswered all at (events.Enter seat) (Entered version)
        → IsLegal (take at all) seat version }
{}

/// The law that the versions that one seat enters never fall.
pub fn versions_never_fall()
    ensures rising { (all : List event.Event) (first second seat older newer : ℕ)
        → first ≤ second
        → IsAnswered all first (events.Enter seat) (Entered older)
        → IsAnswered all second (events.Enter seat) (Entered newer)
        → older ≤ newer }
{}

/// The law that a seat that learned of a note enters no version that is older than the one published at that note.
pub fn entries_follow_notes()
    ensures follow { (all : List event.Event) (noted learned entered seat note version : ℕ)
        → learned < entered
        → IsAnswered all noted events.Note (Noted note)
        → IsAnswered all learned (events.Learn seat note) Done
        → IsAnswered all entered (events.Enter seat) (Entered version)
        → cut (take noted all) ≤ version }
{}

/// The law that each entry stands between whole publishes: its version has just the edits before some publish, or none.
pub fn entries_are_cuts()
    ensures whole { (all : List event.Event) (at seat version : ℕ)
        → IsAnswered all at (events.Enter seat) (Entered version)
        → (version ≡ 0) ⊎ IsPublished (take at all) version }
{}
