ghost use Rattle.std.specs.Prelude.{◌≡◌, ◌≤◌, ◌<◌, ◌++◌, ◌∷◌, [], false};
ghost use Rattle.command_words.specs.Fits.{AreNamedOnce, AreRelations, has_relation};

use perm_base::Fit;
use std::marker::Model;

/// Role relations by their numbers, 1 for `g` and 2 to 8 for `g2` to `g8`, each with the function by which its names or
/// its domains are compared, none of them twice. Contracts see the list of these, in the order given. It takes no memory.
#[derive(Drop)]
pub struct RelationFits {
    slots: [(u8, Fit); 8],
    count: usize,
}

impl Model for RelationFits {
    ghost use Rattle.std.specs.Prelude.{◌≤◌, ℕ, List, take};
    ghost use Rattle.command_words.specs.Fits.{AreNamedOnce, AreRelations};
    ghost use Rattle.perm_base.specs.declared.shapes.Fit.{Fit};

    ghost Value = { List (ℕ × Fit) };

    ghost view = { λ f. take f.count f.slots };

    ghost invariant = { λ f. (f.count ≤ 8) × AreNamedOnce (take f.count f.slots)
        × AreRelations (take f.count f.slots) };
}

impl RelationFits {
    // No relation.
    pub(crate) fn new() -> RelationFits
        ensures { result ≡ [] }
    {
        RelationFits {
            slots: [(0, Fit::Exact); 8],
            count: 0,
        }
    }

    /// The relations with their functions, in the order given.
    pub fn as_slice(&self) -> &[(u8, Fit)]
        ensures value { result.now ≡ self.now }
        ensures once { AreNamedOnce self.now }
        ensures relations { AreRelations self.now }
    {
        &self.slots[..self.count]
    }

    // Whether the relation is one of these.
    pub(crate) fn has(&self, relation: u8) -> bool
        ensures { result ≡ has_relation self.now relation }
    {
        self.as_slice().iter().any(|fit| relation == fit.0)
    }

    // One more at the end. There is room, since there are eight relations.
    pub(crate) fn push(&mut self, relation: u8, fit: Fit)
        requires relation { (0 < relation) × (relation ≤ 8) }
        requires fresh { has_relation self.old relation ≡ false }
        ensures { self.new ≡ self.old ++ (relation, fit) ∷ [] }
    {
        self.slots[self.count] = (relation, fit);
        self.count += 1;
    }
}
