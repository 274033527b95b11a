//! What edits and publishes a policy.
ghost use Rattle.std.specs.Prelude.{◌≡◌, ⊤, IfOk, MatchResult, OnErr, OnOk, Some};
ghost use Rattle.edit_calls.specs.Told.{IsTold};
ghost use Rattle.policy_desk.specs.Answers.{IsAnswered, desk_answer};
ghost use Rattle.policy_desk.specs.Desks.{Work, floor_after};
ghost use Rattle.policy_desk.specs.Transitions.{IsBegun, IsPublished, after_call};
ghost use Rattle.policy_query.specs.Answers.{IsAnswer};
ghost use Rattle.policy_query.specs.Names.{users_answer};
ghost use Rattle.policy_state.specs.States.{tables};
ghost use Rattle.version_log.specs.Log.{versions};

use crate::desk::Desk;
use edit_calls::{Call, CallRefused};
use outside::{NoMemory, Text};
use perm_base::Rule;
use policy_query::QueryRefused;
use std::alloc::Global;

/// What edits and publishes a policy at a desk: the desk alone, or the administrator of a pair of copies. By `R` a publish may
/// wait. What it has beside the desk is told by two relations: `stays` where nothing is published, and `grows` behind a publish.
pub trait Editor<R> {
    /// The desk.
    ghost work: { Self → Work };

    /// What it has beside the desk stays as it is.
    ghost stays: { Self → Self → Type 0 };

    /// What it has beside the desk got one publish more.
    ghost grows: { Self → Self → Type 0 };

    /// The desk.
    fn desk(&self) -> &Desk
        ensures desk { result.now ≡ work self.now }
        ensures same { stays self.now self.now };

    /// Makes a management call (`Desk::call`).
    fn call(&mut self, alloc: Global, call: &Call) -> Result<bool, CallRefused>
        ensures answered { MatchResult result
            (IsAnswered (desk_answer (work self.old) call.now))
            (IsTold (desk_answer (work self.old) call.now)) }
        ensures done { IfOk result (λ _. work self.new
            ≡ after_call (desk_answer (work self.old) call.now) (work self.old)) }
        ensures refused { OnErr result (work self.new ≡ work self.old) }
        ensures stays { stays self.old self.new };

    /// The users that have a role in the published policy (`Desk::users_of`).
    fn users_of(
        &mut self,
        alloc: Global,
        relation: u8,
        role: &Text,
        domain: &Option<Text>,
    ) -> Result<Rule, QueryRefused>
        ensures answer { IsAnswer (users_answer (work self.old).state.shapes
            (tables (work self.old).state) relation role.now domain.now) result }
        ensures same { work self.new ≡ work self.old }
        ensures stays { stays self.old self.new };

    /// Publishes the pending edits (`Desk::publish`), and says the new version. It may wait.
    fn publish(&mut self, rt: &R, alloc: Global) -> Result<u32, NoMemory>
        ensures version { IfOk result (λ version.
            version ≡ versions (work self.new).state.log) }
        ensures published { OnOk result
            (IsPublished (floor_after (work self.old)) (work self.old) (work self.new)) }
        ensures refused { OnErr result (IsBegun (work self.old) (work self.new)) }
        ensures grows { OnOk result (grows self.old self.new) }
        ensures stays { OnErr result (stays self.old self.new) };

    /// Lets later publishes keep so many edits (`Desk::keep`).
    fn keep(&mut self, edits: u32)
        ensures kept { work self.new ≡ record (work self.old) { kept = Some edits } }
        ensures stays { stays self.old self.new };
}

impl<R> Editor<R> for Desk {
    ghost use Rattle.std.specs.Prelude.{⊤};

    ghost work = { λ desk. desk };

    ghost stays = { λ _ _. ⊤ };

    ghost grows = { λ _ _. ⊤ };

    fn desk(&self) -> &Desk {
        self
    }

    fn call(&mut self, alloc: Global, call: &Call) -> Result<bool, CallRefused> {
        Desk::call(self, alloc, call)
    }

    fn users_of(
        &mut self,
        alloc: Global,
        relation: u8,
        role: &Text,
        domain: &Option<Text>,
    ) -> Result<Rule, QueryRefused> {
        Desk::users_of(self, alloc, relation, role, domain)
    }

    fn publish(&mut self, _rt: &R, alloc: Global) -> Result<u32, NoMemory> {
        Desk::publish(self, alloc)
    }

    fn keep(&mut self, edits: u32) {
        Desk::keep(self, edits);
    }
}
