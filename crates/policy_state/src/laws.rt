ghost use Rattle.std.specs.Prelude.{◌≡◌, List, length};
ghost use Rattle.policy_state.specs.States.{StandsFor, State, tables};
ghost use Rattle.policy_table.specs.Changes.{replay};
ghost use Rattle.policy_table.specs.Tables.{Policy};
ghost use Rattle.policy_table.specs.declared.change.Change.{Change};
ghost use Rattle.version_log.specs.Log.{versions};

/// The law that the tables of a policy that stands for a history are the opening tables after that history, and its version is
/// the number of its edits.
pub fn states_stand_for_their_history()
    ensures tables { (state : State) (opening : Policy) (history : List (List Change))
        → StandsFor state opening history → tables state ≡ replay history opening }
    ensures version { (state : State) (opening : Policy) (history : List (List Change))
        → StandsFor state opening history → versions state.log ≡ length history }
{}
