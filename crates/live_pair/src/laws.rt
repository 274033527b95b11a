ghost use Rattle.std.specs.Prelude.{◌≡◌, ◌+◌, ◌-◌, ◌≤◌, ◌++◌, ◌∷◌, [], ℕ, List, Ok, length, take};
ghost use mathlib.Core.List.{IsPrefix};
ghost use Rattle.live_meaning.specs.Fronts.{IsLegal, front};
ghost use Rattle.live_meaning.specs.Replies.{reply_of};
ghost use Rattle.live_meaning.specs.declared.events.Event as event;
ghost use Rattle.live_meaning.specs.declared.events.Event.TheVariants as events;
ghost use Rattle.live_meaning.specs.declared.events.Reply.TheVariants.{Published};
ghost use Rattle.live_pair.specs.Admins.{AdminSeen};
ghost use Rattle.live_pair.specs.Life.{HasLived, published};
ghost use Rattle.live_pair.specs.Seats.{version_of};
ghost use Rattle.live_pair.specs.Story.{edits_in};
ghost use Rattle.policy_state.specs.States.{StandsFor, State};
ghost use Rattle.policy_table.specs.Tables.{Policy};
ghost use Rattle.policy_table.specs.declared.change.Change.{Change};
ghost use Rattle.version_log.specs.Log.{versions};

/// The law that an entry of a pair is legal in the core of live edits (`live_meaning`): behind events of the core that lead to a
/// published history, a seat that knows of what the core showed to it may enter each prefix of the published history that
/// begins with its front. The core counts edits from the opening.
pub fn entries_are_legal()
    ensures legal { (first : List (List Change)) (all : List event.Event) (seat : ℕ)
        (before now : List (List (List Change)))
        → IsPrefix before now → IsPrefix now (published first all)
        → front all seat + length first ≤ version_of before
        → IsLegal all seat (version_of now - length first) }
{}

/// The law that a publish of a pair has the version that the core replies, counted from the opening.
pub fn publishes_are_counted()
    ensures counted { (first : List (List Change)) (all : List event.Event) (version : ℕ)
        → reply_of all events.Publish ≡ Ok (Published version)
        → version_of (published first (all ++ events.Publish ∷ [])) ≡ length first + version }
{}

/// The law that an administrator goes on as the core does: a call that changes something is an edit of the core, and what
/// `publish` promises of the published list and of the pending edits is a publish of the core.
pub fn administrators_live()
    ensures edit { (first : List (List Change)) (all : List event.Event) (before after : AdminSeen)
        (edit : List Change) → HasLived first all before
        → after.list ≡ before.list
        → after.desk.pending ≡ before.desk.pending ++ edit ∷ []
        → HasLived first (all ++ events.Edit edit ∷ []) after }
    ensures publish { (first : List (List Change)) (all : List event.Event)
        (before after : AdminSeen) → HasLived first all before
        → after.list ≡ before.list ++ before.desk.pending ∷ []
        → after.desk.pending ≡ []
        → HasLived first (all ++ events.Publish ∷ []) after }
{}

/// The law of fronts, of which one begins the other: the edits of both parts of a published history are those of the one and
/// then of the other; those of a front are the first so many of a longer one's; fronts of one length are one; and a policy
/// that stands for the edits of a front has its version, as has one that differs from it in room alone.
pub fn fronts_begin_each_other()
    ensures both { (front back : List (List (List Change)))
        → edits_in (front ++ back) ≡ edits_in front ++ edits_in back }
    ensures begin { (before now : List (List (List Change))) → IsPrefix before now
        → edits_in before ≡ take (version_of before) (edits_in now) }
    ensures whole { (before now : List (List (List Change))) → IsPrefix before now
        → length now ≤ length before → before ≡ now }
    ensures version { (state other : State) (opening : Policy) (front : List (List (List Change)))
        → StandsFor state opening (edits_in front)
        → other.log.start ≡ state.log.start
        → other.log.tail ≡ state.log.tail
        → versions other.log ≡ version_of front }
{}
