ghost use Rattle.std.specs.Prelude.{◌≡◌, ◌↔◌, ◌<◌, IsTrue, option_copied};
ghost use Rattle.policy_state.specs.Asked.{IsAskedOf};
ghost use Rattle.policy_state.specs.States.{tables};
ghost use Rattle.matcher_meaning.specs.Cases.{IsLinkedBy};

use matcher_code::Links;
use policy_state::PolicyState;
use role_domain::Steps;
use std::marker::Brand;
use std::sync::ledger::{Blank, Ledger};

/// The role relations of a policy as what a part asks.
#[derive(Drop)]
pub(crate) struct StateLinks<'a> {
    pub(crate) state: &'a PolicyState,
}

impl<'a> Links for StateLinks<'a> {
    ghost use Rattle.policy_state.specs.States.{tables};

    ghost shapes = { λ links. links.state.now.shapes };

    ghost policy = { λ links. tables links.state.now };

    fn linked(&self, relation: u8, x: &[u8], y: &[u8], domain: Option<&[u8]>) -> bool {
        let Some(shape) = self.state.shapes().roles.find(relation) else {
            return false;
        };
        if shape.with_domain != domain.is_some() {
            return false;
        }
        linked::<Brand>(self.state, relation, x, y, domain, Blank::new(1))
    }
}

// Whether a relation that is asked in its way links the one name to the other; the steps are counted from nothing.
fn linked<L: Ledger>(
    state: &PolicyState,
    relation: u8,
    x: &[u8],
    y: &[u8],
    domain: Option<&[u8]>,
    blank: Blank,
) -> bool
    requires asked { IsAskedOf state.now.shapes relation (option_copied domain) }
    requires name { blank.name ≡ L.name }
    requires parts { blank.parts ≡ L.parts }
    requires some { 0 < L.parts }
    ensures { IsTrue result ↔ IsLinkedBy state.now.shapes (tables state.now) relation
        x.now y.now (option_copied domain.entry) }
{
    let mut steps = Steps::<L>::new(blank);
    state.linked(relation, x, y, domain, &mut steps)
}
