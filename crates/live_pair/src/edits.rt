ghost use Rattle.std.specs.Prelude.{◌≡◌, ◌≤◌, IfOk, drop, length};

use outside::NoMemory;
use policy_table::{Edit, copy_edits};
use std::alloc::Global;
use std::marker::Model;

/// Edits in their order.
#[derive(Drop)]
pub struct Edits {
    edits: Vec<Edit>,
}

impl Model for Edits {
    ghost use Rattle.std.specs.Prelude.{List};
    ghost use Rattle.policy_table.specs.declared.change.Change.{Change};

    ghost Value = { List (List Change) };

    ghost view = { λ e. e.edits.items };
}

/// What the history of a pair consists of.
#[derive(Drop)]
pub enum HistoryEvent {
    /// Edits were handed over that are in no publish yet.
    Staged(Edits),
    /// All edits that were in none are one publish.
    Publish,
}

impl Edits {
    /// The edits from a place on, counted from 0, once more.
    pub(crate) fn copy_from(alloc: Global, edits: &[Edit], from: usize) -> Result<Edits, NoMemory>
        requires { from ≤ length edits.now }
        ensures { IfOk result (λ copy. copy ≡ drop from edits.now) }
    {
        Edits::copy_of(alloc, &edits[from..])
    }

    // These edits once more.
    fn copy_of(alloc: Global, edits: &[Edit]) -> Result<Edits, NoMemory>
        ensures { IfOk result (λ copy. copy ≡ edits.now) }
    {
        let copy = copy_edits(alloc, edits)?;
        Ok(Edits { edits: copy })
    }

    pub(crate) fn as_slice(&self) -> &[Edit]
        ensures { result.now ≡ self.now }
    {
        &self.edits
    }

    /// How many they are.
    pub(crate) fn len(&self) -> usize
        ensures { result ≡ length self.now }
    {
        self.edits.len()
    }
}
