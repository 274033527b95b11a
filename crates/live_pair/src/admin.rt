//! The administrator.
ghost use Rattle.std.specs.Prelude.{◌≡◌, ◌++◌, ◌∷◌, [], IfOk, MatchResult, OnErr, OnOk, Some};
ghost use Rattle.edit_calls.specs.Told.{IsTold};
ghost use Rattle.live_pair.specs.Helps.Lines.{IsAdmin};
ghost use Rattle.live_pair.specs.Seats.{version_of};
ghost use Rattle.live_pair.specs.Story.{edits_in, publishes};
ghost use Rattle.policy_desk.specs.Answers.{IsAnswered, desk_answer};
ghost use Rattle.policy_desk.specs.Desks.{floor_after};
ghost use Rattle.policy_desk.specs.Transitions.{IsBegun, IsPublished, after_call};
ghost use Rattle.policy_query.specs.Answers.{IsAnswer};
ghost use Rattle.policy_query.specs.Names.{users_answer};
ghost use Rattle.policy_state.specs.States.{StandsFor, tables};
ghost use Rattle.version_log.specs.Log.{versions};

use crate::front::Front;
use crate::history_line::{HistoryLine, Shows, SideWriter, show};
use crate::naming::Naming;
use edit_calls::{Call, CallRefused};
use outside::{NoMemory, Text};
use perm_base::Rule;
use policy_desk::Desk;
use policy_query::QueryRefused;
use std::alloc::Global;
use std::marker::Model;
use std::sync::Wait;

/// The administrator of a pair: its desk, and the copies that seats read. It is not `Drop`: end it by `close`.
pub type Admin<J> = AdminOver<J, SideWriter<J>>;

/// The administrator over copies of a type, since no struct has the copies of a pair for every `J`. Contracts see the publishes
/// so far, those of the copy that readers take, and the desk.
pub struct AdminOver<J: Naming, W: Shows> {
    copies: W,
    desk: Desk,
    line: HistoryLine<J>,
    front: Front<J>,
}

impl<J: Naming, W: Shows> Model for AdminOver<J, W> {
    ghost use Rattle.live_pair.specs.Admins.{AdminSeen};
    ghost use Rattle.live_pair.specs.Helps.Lines.{IsAdmin};
    ghost use Rattle.live_pair.specs.Story.{publishes};

    ghost Value = { AdminSeen };

    ghost view = { λ a. record {
      list = a.front;
      shown = publishes J.first (W.shown a.copies);
      desk = a.desk;
    } };

    ghost invariant = { λ a.
        IsAdmin J.shapes J.opening J.first a.line (W.shown a.copies) a.front a.desk };
}

impl<J: Naming, W: Shows> AdminOver<J, W> {
    pub(crate) fn new(
        copies: W,
        desk: Desk,
        line: HistoryLine<J>,
        front: Front<J>,
    ) -> AdminOver<J, W>
        requires { IsAdmin J.shapes J.opening J.first line (W.shown copies) front desk }
        ensures { result ≡ record {
          list = front;
          shown = publishes J.first (W.shown copies);
          desk = desk;
        } }
    {
        AdminOver {
            copies,
            desk,
            line,
            front,
        }
    }

    /// Makes a management call at the desk (`Desk::call`). No seat sees anything of it before a publish.
    pub fn call(&mut self, alloc: Global, call: &Call) -> Result<bool, CallRefused>
        ensures answered { MatchResult result
            (IsAnswered (desk_answer self.old.desk call.now))
            (IsTold (desk_answer self.old.desk call.now)) }
        ensures done { IfOk result (λ _. self.new ≡ record self.old {
          desk = after_call (desk_answer self.old.desk call.now) self.old.desk;
        }) }
        ensures refused { OnErr result (self.new ≡ self.old) }
    {
        self.desk.call(alloc, call)
    }

    /// The users that have a role in the desk's policy (`Desk::users_of`).
    pub fn users_of(
        &mut self,
        alloc: Global,
        relation: u8,
        role: &Text,
        domain: &Option<Text>,
    ) -> Result<Rule, QueryRefused>
        ensures answer { IsAnswer (users_answer self.old.desk.state.shapes
            (tables self.old.desk.state) relation role.now domain.now) result }
        ensures same { self.new ≡ self.old }
    {
        self.desk.users_of(alloc, relation, role, domain)
    }

    /// Lets later publishes keep so many edits (`Desk::keep`). It takes no memory.
    pub fn keep(&mut self, edits: u32)
        ensures kept { self.new
            ≡ record self.old { desk = record self.old.desk { kept = Some edits } } }
    {
        self.desk.keep(edits);
    }

    /// The desk: its policy has the shapes of the policy that was opened, and stands for the edits of the publishes.
    pub fn desk(&self) -> &Desk
        ensures desk { result.now ≡ self.now.desk }
        ensures shapes { self.now.desk.state.shapes ≡ J.shapes }
        ensures stands { StandsFor self.now.desk.state J.opening (edits_in self.now.list) }
    {
        &self.desk
    }

    /// The publishes so far, which are those of the copy that readers take. It takes no memory.
    pub fn front(&self) -> Front<J>
        ensures front { result ≡ self.now.list }
        ensures shown { self.now.shown ≡ self.now.list }
    {
        self.front.again()
    }
}

impl<J: Naming> AdminOver<J, SideWriter<J>> {
    /// Publishes the pending edits, at one step for all seats: they are one publish more, whole and in their order, also at
    /// the desk, at which none is pending afterwards (`Desk::publish`). Where memory runs out nothing is published: the copy
    /// that readers take has the publishes that it had, and it may be tried again, when the whole pending list is published
    /// once. It may wait for seats that are inside.
    pub fn publish<R: Wait>(&mut self, rt: &R, alloc: Global) -> Result<Front<J>, NoMemory>
        ensures front { IfOk result (λ front. front ≡ self.new.list) }
        ensures version { IfOk result (λ front.
            version_of front ≡ versions self.new.desk.state.log) }
        ensures list { OnOk result
            (self.new.list ≡ self.old.list ++ self.old.desk.pending ∷ []) }
        ensures published { OnOk result
            (IsPublished (floor_after self.old.desk) self.old.desk self.new.desk) }
        ensures refused_list { OnErr result (self.new.list ≡ self.old.list) }
        ensures refused { OnErr result (IsBegun self.old.desk self.new.desk) }
        ensures shown { self.new.shown ≡ self.new.list }
    {
        let prepared = self.desk.begin_publish(alloc)?;
        self.line.hand_over(alloc, &mut self.copies, &self.desk)?;
        show(&mut self.copies, rt)?;
        let Some(front) = self.line.settle(&self.copies) else {
            return Err(NoMemory);
        };
        self.front = front.again();
        self.desk.end_publish(prepared);
        Ok(front)
    }

    /// Ends the pair, and gives its desk as it stands. It may wait for seats that are inside.
    pub fn close<R: Wait>(self, rt: &R) -> Desk
        ensures desk { result ≡ self.desk }
    {
        let Self {
            copies,
            desk,
            line: _line,
            front: _front,
        } = self;
        drop(copies.take(rt));
        desk
    }
}

// What may move to another thread.
trait Movable: Send {}

impl<J: Naming + Send + Sync> Movable for AdminOver<J, SideWriter<J>> {}
