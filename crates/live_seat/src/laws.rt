ghost use Rattle.std.specs.Prelude.{◌≡◌, [], List};
ghost use mathlib.Core.List.{IsPrefix};
ghost use Rattle.answer_cache.specs.Cached.{Cached, entries_of};
ghost use Rattle.answer_cache.specs.Good.{AreJudged};
ghost use Rattle.live_pair.specs.Story.{edits_in};
ghost use Rattle.live_seat.specs.Caches.{ServesAt};
ghost use Rattle.model_conf.specs.ModelText.{ModelParts};
ghost use Rattle.perm_base.specs.declared.shapes.Shapes.{Shapes};
ghost use Rattle.policy_state.specs.States.{StandsFor, State, tables};
ghost use Rattle.policy_table.specs.Tables.{Policy};
ghost use Rattle.policy_table.specs.declared.change.Change.{Change};
ghost use Rattle.version_log.specs.Log.{versions};

/// The law of a cache beside seats: one without verdicts serves each seat; one that serves a seat serves it where it knows of
/// more publishes, by an entry or by learning of them; and one that was asked over a policy that stands for the edits of publishes
/// serves a seat that knows of these.
pub fn caches_serve_seats()
    ensures empty { (model : ModelParts) (shapes : Shapes) (opening : Policy)
        (front : List (List (List Change))) (cache : Cached)
        → cache.entries ≡ [] → ServesAt model shapes opening front cache }
    ensures longer { (model : ModelParts) (shapes : Shapes) (opening : Policy)
        (before now : List (List (List Change))) (cache : Cached)
        → IsPrefix before now
        → ServesAt model shapes opening before cache
        → ServesAt model shapes opening now cache }
    ensures asked { (model : ModelParts) (opening : Policy)
        (front : List (List (List Change))) (state : State) (cache : Cached)
        → StandsFor state opening (edits_in front)
        → cache.version ≡ versions state.log
        → AreJudged model state.shapes (tables state) (entries_of cache)
        → ServesAt model state.shapes opening front cache }
{}
