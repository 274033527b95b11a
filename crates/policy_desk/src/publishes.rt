ghost use Rattle.std.specs.Prelude.{◌≡◌, ◌≤◌, [], IfOk, OnErr, OnOk};
ghost use Rattle.policy_desk.specs.Desks.{floor_after};
ghost use Rattle.policy_desk.specs.Ready.{IsPreparedFor};
ghost use Rattle.policy_desk.specs.Transitions.{IsBegun, IsPublished};
ghost use Rattle.version_log.specs.Log.{versions};

use crate::desk::Desk;
use outside::NoMemory;
use policy_state::PreparedParts;
use policy_table::Edit;
use std::alloc::Global;
use std::mem;

impl Desk {
    /// Publishes the pending edits: they follow the others of the log, in their order, and none is pending afterwards. It says
    /// the new version. The floor is raised to what is to be kept, whatever the answer, and the log starts there afterwards.
    /// Where memory runs out nothing is published, and it may be tried again. Its time grows with the pending edits, with the
    /// distances between roles that they change and, where its start moves, with the edits of the log, and not with the tables.
    pub fn publish(&mut self, alloc: Global) -> Result<u32, NoMemory>
        ensures version { IfOk result (λ version. version ≡ versions self.new.state.log) }
        ensures published { OnOk result (IsPublished (floor_after self.old) self.old self.new) }
        ensures refused { OnErr result (IsBegun self.old self.new) }
    {
        let prepared = self.begin_publish(alloc)?;
        Ok(self.end_publish(prepared))
    }

    /// The first half of a publish: it raises the floor, and makes the rest ready, so that `end_publish` needs no memory.
    /// Nothing is published yet. What is ready may be dropped, and is of no use after another call.
    pub fn begin_publish(&mut self, alloc: Global) -> Result<PreparedParts, NoMemory>
        ensures ready { IfOk result (IsPreparedFor self.new) }
        ensures begun { IsBegun self.old self.new }
    {
        self.floor = self.next_floor();
        self.state.prepare_parts(alloc, &self.pending, self.floor)
    }

    /// The second half of a publish. It takes no memory and cannot be refused: the pending edits go into the log themselves.
    pub fn end_publish(&mut self, prepared: PreparedParts) -> u32
        requires ready { IsPreparedFor self.old prepared }
        ensures version { result ≡ versions self.new.state.log }
        ensures published { IsPublished self.old.floor self.old self.new }
    {
        let pending = take_all(&mut self.pending);
        self.state.commit_parts(prepared, pending);
        self.state.version()
    }

    // The floor after a publish that begins now.
    fn next_floor(&self) -> u32
        ensures value { result ≡ floor_after self.now }
        ensures from { self.now.floor ≤ result }
        ensures until { result ≤ versions self.now.state.log }
    {
        match self.kept {
            Some(edits) => self.floor.max(self.state.version().saturating_sub(edits)),
            None => self.floor,
        }
    }
}

// Takes all edits out of a list.
fn take_all(edits: &mut Vec<Edit>) -> Vec<Edit>
    ensures taken { result.items ≡ edits.old.items }
    ensures none { edits.new.items ≡ [] }
{
    let alloc = *edits.allocator();
    mem::replace(edits, Vec::new(alloc))
}
