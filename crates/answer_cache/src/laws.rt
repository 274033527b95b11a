ghost use Rattle.std.specs.Prelude.{◌≡◌, List};
ghost use Rattle.model_conf.specs.ModelText.{ModelParts};
ghost use Rattle.policy_state.specs.States.{State, tables};
ghost use Rattle.policy_table.specs.Tables.{Policy};
ghost use Rattle.policy_table.specs.declared.change.Change.{Change};
ghost use Rattle.version_log.specs.Log.{versions};
ghost use Rattle.answer_cache.specs.Cached.{Cached};
ghost use Rattle.answer_cache.specs.Good.{Serves};
ghost use Rattle.answer_cache.specs.Seats.{AreOfOneSeat};

/// The law of a cache for each seat: where two policies that one seat enters have the same version, their edits are the same
/// lists and their tables are equal, since the edits of the earlier begin those of the later. So a cache that serves for the
/// policy of one entry serves for that of each later one.
pub fn caches_serve_their_seats()
    ensures edits { (opening : Policy) (older newer : List (List Change)) (before now : State)
        → AreOfOneSeat opening older newer before now
        → versions before.log ≡ versions now.log → older ≡ newer }
    ensures tables { (opening : Policy) (older newer : List (List Change)) (before now : State)
        → AreOfOneSeat opening older newer before now
        → versions before.log ≡ versions now.log → tables before ≡ tables now }
    ensures serves { (opening : Policy) (older newer : List (List Change)) (before now : State)
        (model : ModelParts) (cache : Cached)
        → AreOfOneSeat opening older newer before now
        → Serves model before cache → Serves model now cache }
{}
