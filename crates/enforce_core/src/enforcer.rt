ghost use Rattle.std.specs.Prelude.{◌≡◌, IfOk};
ghost use Rattle.std.specs.Arc.{arc_value};
ghost use Rattle.decision.specs.Programs.{Suits};
ghost use Rattle.policy_csv.specs.Printed.{printed};
ghost use Rattle.policy_state.specs.States.{tables};
ghost use Rattle.version_log.specs.Log.{versions};
ghost use Rattle.enforce_core.specs.Called.{CallsTo, PublishesTo};
ghost use Rattle.enforce_core.specs.Helps.Held.{place_of};
ghost use Rattle.enforce_core.specs.Places.{at_desk, state_at};
ghost use Rattle.enforce_core.specs.Seen.{IsSnapshotOf, none_refused};
ghost use Rattle.enforce_core.specs.Shown.{rule_text};

use crate::place::Place;
use crate::stops::{CallStop, Called};
use decision::{Program, Scratch};
use outside::{NoMemory, Text};
use perm_base::{TableId, print_fields};
use policy_csv::print_policy;
use policy_desk::Desk;
use policy_table::Tables;
use regex_keep::KeepingFinder;
use std::alloc::Global;
use std::marker::Model;
use std::sync::Arc;

/// An enforcer (Casbin, the enforcer): it judges requests by the policy that is published. Opened from texts it has one owner, who
/// edits drafts and publishes them; a snapshot of it judges by what was published then, and is never edited. Contracts see the
/// model, the desk or the policy of a snapshot, and what its finder has refused.
pub struct Enforcer {
    pub(crate) program: Arc<Program>,
    pub(crate) place: Place,
    pub(crate) finder: KeepingFinder,
    pub(crate) scratch: Scratch,
}

// Written out, so that a caller's proof sees one call and not the drop of each field.
impl Drop for Enforcer {
    fn drop(self) {
        let Enforcer {
            program: _program,
            place: _place,
            finder: _finder,
            scratch: _scratch,
        } = self;
    }
}

impl Model for Enforcer {
    ghost use Rattle.std.specs.Arc.{arc_value};
    ghost use Rattle.std.specs.Coded.{codes};
    ghost use Rattle.decision.specs.Programs.{Suits};
    ghost use Rattle.decision.specs.contracts.program.Program as program_row;
    ghost use Rattle.policy_desk.specs.contracts.desk.Desk as desk_row;
    ghost use Rattle.policy_state.specs.contracts.state.PolicyState as state_row;
    ghost use Rattle.enforce_core.specs.Helps.Held.{place_of};
    ghost use Rattle.enforce_core.specs.Places.{state_at};
    ghost use Rattle.enforce_core.specs.Seen.{Enforcing};

    ghost Value = { Enforcing };

    ghost coded = { Prim.hlevel (codes, program_row.the_row.coded, desk_row.the_row.coded, state_row.the_row.coded) };

    ghost view = { λ e. record {
      model = arc_value e.program;
      place = place_of e.place;
      refusals = e.finder;
    } };

    ghost invariant = { λ e.
        Suits (arc_value e.program) (state_at (place_of e.place)).shapes };
}

impl Enforcer {
    // One that judges so, and has refused nothing yet.
    fn over(alloc: Global, program: Arc<Program>, place: Place) -> Result<Enforcer, NoMemory>
        requires { Suits (arc_value program) (state_at (place_of place)).shapes }
        ensures { IfOk result (λ made. made ≡ record {
          model = arc_value program;
          place = place_of place;
          refusals = none_refused;
        }) }
    {
        let finder = KeepingFinder::new(alloc)?;
        let scratch = Scratch::for_program(alloc, &program);
        Ok(Enforcer {
            program,
            place,
            finder,
            scratch,
        })
    }

    /// One that owns a desk.
    pub(crate) fn owning(alloc: Global, program: Program, desk: Desk) -> Result<Enforcer, NoMemory>
        requires { Suits program desk.state.shapes }
        ensures { IfOk result (λ made. made ≡ record {
          model = program;
          place = at_desk desk;
          refusals = none_refused;
        }) }
    {
        let program = Arc::new(alloc, program)?;
        Enforcer::over(alloc, program, Place::Owned(desk))
    }

    /// The version of the policy by which it judges.
    pub fn version(&self) -> u32
        ensures { result ≡ versions (state_at self.now.place).log }
    {
        self.place.state().version()
    }

    /// A snapshot of what is published, which has a finder of its own. Of an owner it copies the policy: its time and memory grow
    /// with the rows, and with the edits that are kept. Of a snapshot it shares the policy, and takes memory for its finder alone.
    pub fn snapshot(&self, alloc: Global) -> Result<Enforcer, NoMemory>
        ensures { IfOk result (IsSnapshotOf self.now) }
    {
        let program = Arc::try_clone(&self.program)?;
        let state = self.place.shared(alloc)?;
        Enforcer::over(alloc, program, Place::Shared(state))
    }

    /// Does the one item that the text says: a call, a batch, a query or a publish, as in a script (Casbin, management API; here
    /// its calls wait for a publish). Calls are answered by the drafts, queries by what is published. A refused call changes
    /// nothing, and a snapshot takes none.
    pub fn call(&mut self, alloc: Global, text: &[u8]) -> Result<Called, CallStop>
        ensures ends { CallsTo self.old.place self.new.place text.now result }
        ensures others { self.new ≡ record self.old { place = self.new.place } }
    {
        self.place.call(alloc, text)
    }

    /// Publishes the pending edits (`Desk::publish`), and says the new version. Where memory runs out nothing is published, and it
    /// may be tried again. A snapshot publishes nothing.
    pub fn publish(&mut self, alloc: Global) -> Result<u32, CallStop>
        ensures ends { PublishesTo self.old.place self.new.place result }
        ensures others { self.new ≡ record self.old { place = self.new.place } }
    {
        self.place.publish(alloc)
    }

    /// The policy by which it judges, as the text that `format` writes; it can be read again.
    pub fn policy_text(&self, alloc: Global) -> Result<Text, NoMemory>
        ensures { IfOk result (λ text. text ≡ printed (tables (state_at self.now.place))) }
    {
        print_policy(alloc, self.place.state().tables())
    }

    /// The fields of the rule of p with this number, counted from 1, where there is one.
    pub fn rule_text(&self, alloc: Global, row: u32) -> Result<Option<Text>, NoMemory>
        ensures { IfOk result (λ text. text
            ≡ rule_text (tables (state_at self.now.place)) row) }
    {
        text_of_rule(alloc, self.place.state().tables(), row)
    }
}

// The text of the rule of p with this number, where there is one.
fn text_of_rule(alloc: Global, tables: &Tables, row: u32) -> Result<Option<Text>, NoMemory>
    ensures { IfOk result (λ text. text ≡ rule_text tables.now.policy row) }
{
    if row == 0 {
        return Ok(None);
    }
    let Some(rule) = tables.get(TableId::P, row - 1) else {
        return Ok(None);
    };
    let text = print_fields(alloc, rule)?;
    Ok(Some(text))
}

// What may move to another thread.
trait Movable: Send {}

impl Movable for Enforcer {}
