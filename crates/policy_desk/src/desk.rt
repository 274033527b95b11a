ghost use Rattle.std.specs.Prelude.{◌≡◌, [], IfOk, None, Some};
ghost use Rattle.policy_desk.specs.Desks.{IsDesk};
ghost use Rattle.policy_state.specs.States.{tables};

use crate::drafts::Drafts;
use outside::{NoMemory, Share};
use policy_state::PolicyState;
use policy_table::Edit;
use std::alloc::Global;
use std::marker::Model;

/// The desk of one administrator: a published policy, the edits that are pending, and drafts, which are the published tables
/// after these edits (Casbin, management API; here its calls wait for a publish). Contracts see these, how many edits are to
/// be kept, and the version before which edits may be let go.
pub struct Desk {
    pub(crate) state: PolicyState,
    pub(crate) pending: Vec<Edit>,
    pub(crate) drafts: Drafts,
    // How many edits are to be kept, where that was said.
    pub(crate) kept: Option<u32>,
    pub(crate) floor: u32,
}

// Written out, so that a caller's proof sees one call and not the drop of each field.
impl Drop for Desk {
    fn drop(self) {
        let Desk {
            state: _state,
            pending: _pending,
            drafts: _drafts,
            kept: _kept,
            floor: _floor,
        } = self;
    }
}

impl Model for Desk {
    ghost use Rattle.policy_desk.specs.Desks.{IsDesk, Work};

    ghost Value = { Work };

    ghost view = { λ d. record {
      state = d.state;
      pending = d.pending.items;
      drafts = d.drafts;
      kept = d.kept;
      floor = d.floor;
    } };

    ghost invariant = { λ d. IsDesk (record {
      state = d.state;
      pending = d.pending.items;
      drafts = d.drafts;
      kept = d.kept;
      floor = d.floor;
    }) };
}

/// A desk over a policy, at which no edit is pending. It copies the tables once. Where memory runs out the policy is dropped.
pub fn open_desk(alloc: Global, state: PolicyState) -> Result<Desk, NoMemory>
    ensures state { IfOk result (λ desk. desk.state ≡ state) }
    ensures pending { IfOk result (λ desk. desk.pending ≡ []) }
    ensures drafts { IfOk result (λ desk. desk.drafts ≡ tables state) }
    ensures kept { IfOk result (λ desk. desk.kept ≡ None) }
    ensures floor { IfOk result (λ desk. desk.floor ≡ state.log.start) }
{
    state.kept();
    let tables = state.tables().copy(alloc)?;
    let drafts = Drafts::new(alloc, tables);
    let floor = state.start();
    Ok(Desk {
        state,
        pending: Vec::new(alloc),
        drafts,
        kept: None,
        floor,
    })
}

impl Desk {
    /// The published policy.
    pub fn state(&self) -> &PolicyState
        ensures state { result.now ≡ self.now.state }
    {
        &self.state
    }

    /// The pending edits, one for each call that changed something.
    pub fn pending(&self) -> &[Edit]
        ensures pending { result.now ≡ self.now.pending }
    {
        &self.pending
    }

    /// The version before which edits may be let go. Publishes raise it, and nothing lowers it.
    pub fn floor(&self) -> u32
        ensures floor { result ≡ self.now.floor }
    {
        self.floor
    }

    /// What a desk keeps: its drafts are the published tables after the pending edits and are sound, each pending edit is
    /// admitted in the tables before it, and there are at most 4,000,000,000 edits, published and pending.
    pub fn holds(&self)
        ensures desk { IsDesk self.now }
    {
        let _pending = &self.pending;
    }

    /// Lets later publishes keep so many edits before the version at which they begin; until this is called they keep all.
    /// It takes no memory, and moves nothing yet.
    pub fn keep(&mut self, edits: u32)
        ensures kept { self.new ≡ record self.old { kept = Some edits } }
    {
        self.kept = Some(edits);
    }
}

impl Share for Desk {}
