//! The administrator as what edits and publishes a policy.
use crate::admin::AdminOver;
use crate::history_line::SideWriter;
use crate::naming::Naming;
use edit_calls::{Call, CallRefused};
use outside::{NoMemory, Text};
use perm_base::Rule;
use policy_desk::{Desk, Editor};
use policy_query::QueryRefused;
use std::alloc::Global;
use std::sync::Wait;

impl<J: Naming, R: Wait> Editor<R> for AdminOver<J, SideWriter<J>> {
    ghost use Rattle.std.specs.Prelude.{◌≡◌, ◌++◌, ◌∷◌, []};

    ghost work = { λ admin. admin.desk };

    ghost stays = { λ old new. new.list ≡ old.list };

    ghost grows = { λ old new. new.list ≡ old.list ++ old.desk.pending ∷ [] };

    fn desk(&self) -> &Desk {
        AdminOver::desk(self)
    }

    fn call(&mut self, alloc: Global, call: &Call) -> Result<bool, CallRefused> {
        AdminOver::call(self, alloc, call)
    }

    fn users_of(
        &mut self,
        alloc: Global,
        relation: u8,
        role: &Text,
        domain: &Option<Text>,
    ) -> Result<Rule, QueryRefused> {
        AdminOver::users_of(self, alloc, relation, role, domain)
    }

    fn publish(&mut self, rt: &R, alloc: Global) -> Result<u32, NoMemory> {
        let front = AdminOver::publish(self, rt, alloc)?;
        Ok(front.version())
    }

    fn keep(&mut self, edits: u32) {
        AdminOver::keep(self, edits);
    }
}
