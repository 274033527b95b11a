ghost use Rattle.std.specs.Prelude.{◌≡◌, ◌≤◌, ℕ, List, length, map, suc};
ghost use Rattle.std.specs.List.{AllByRecursion, AllZip};
ghost use mathlib.Core.List.{IsPrefix};
ghost use Rattle.answer_lines.specs.Printed.{printed_line};
ghost use Rattle.answer_lines.specs.declared.answer.Line as line;
ghost use Rattle.answer_lines.specs.Printed as printed;
ghost use Rattle.live_pair.specs.Admins.{AdminSeen};
ghost use Rattle.live_pair.specs.Seats.{SeatSeen, version_of};
ghost use Rattle.live_rounds.specs.Administrators.{AreDoneBeside, AreReplies};
ghost use Rattle.live_rounds.specs.Answered.{AreAnsweredAt, Rise};
ghost use Rattle.live_rounds.specs.Lists.{last_from};
ghost use Rattle.live_rounds.specs.Merged.{merged};
ghost use Rattle.live_rounds.specs.Requests.{AreParts, requests};
ghost use Rattle.live_rounds.specs.Served.{AreServed};
ghost use Rattle.live_rounds.specs.Shares.{HasEach, in_turn};
ghost use Rattle.model_conf.specs.ModelText.{ModelParts};
ghost use Rattle.perm_base.specs.declared.shapes.Shapes.{Shapes};
ghost use Rattle.policy_table.specs.Tables.{Policy};
ghost use Rattle.policy_table.specs.declared.change.Change.{Change};
ghost use Rattle.script_read.specs.Said.{Reading, Said};
ghost use Rattle.session_meaning.specs.Plain.{all_refused};
ghost use Rattle.session_meaning.specs.Rounds.{AreOfRound};

/// The law that what is answered at a seat beside the administrator is answered at cuts of the round, in versions that do not
/// fall: where the seat knew of the administrator's publishes before the round, and is not above those behind it once it has
/// learned of them.
pub fn seats_answer_at_cuts()
    ensures cuts { (model : ModelParts) (shapes : Shapes) (opening : Policy)
        (before round : List Said) (old new : AdminSeen) (others : List printed.PrintedAnswer)
        (seat : SeatSeen) (seats : List SeatSeen) (refused : List (List (List ℕ)))
        (replies : List printed.PrintedAnswer) (readings : List Reading)
        (learned : List (List (List Change)))
        → AreDoneBeside shapes opening before round old new others
        → IsPrefix old.list seat.front
        → AreServed model shapes opening seat seats refused replies readings
        → IsPrefix (last_from seat seats).front learned
        → IsPrefix new.list learned
        → version_of learned ≤ version_of new.list
        → AreAnsweredAt model shapes opening before round
        (map (λ (s : SeatSeen). version_of s.front) seats) refused replies readings }
    ensures rise { (model : ModelParts) (shapes : Shapes) (opening : Policy) (seat : SeatSeen)
        (seats : List SeatSeen) (refused : List (List (List ℕ))) (replies : List printed.PrintedAnswer)
        (readings : List Reading)
        → AreServed model shapes opening seat seats refused replies readings
        → Rise (version_of seat.front) (map (λ (s : SeatSeen). version_of s.front) seats) }
{}

/// The law that replies to all requests of a round, at cuts of it that do not fall within the parts of the workers, and replies
/// to its other items are together its lines.
pub fn replies_are_the_lines_of_a_round()
    ensures { (model : ModelParts) (shapes : Shapes) (opening : Policy)
        (before round : List Said) (others low : ℕ) (parts : List (List Said))
        (lists : List (List ℕ)) (refused : List (List (List ℕ)))
        (asked replies : List printed.PrintedAnswer)
        → AreParts others round parts
        → AllZip HasEach parts lists
        → AllByRecursion (Rise low) lists
        → AreAnsweredAt model shapes opening before round (in_turn lists) refused asked
        (requests round)
        → length asked ≡ length (requests round)
        → AreReplies shapes opening before round replies
        → (of_items : List (List (List ℕ))) × (lines : List line.Line)
        × AreOfRound model shapes opening (suc others) before round of_items lines
        × (merged (length before) round asked replies ≡ map printed_line lines)
        × (all_refused of_items ≡ all_refused refused) }
{}
