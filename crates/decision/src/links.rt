ghost use Rattle.std.specs.Prelude.{◌≡◌, ◌↔◌, ◌<◌, IsTrue, option_copied, true};
ghost use Rattle.policy_state.specs.Asked.{IsAskedOf};
ghost use Rattle.policy_state.specs.States.{tables};
ghost use Rattle.matcher_meaning.specs.Cases.{IsLinkedBy};

use matcher_code::Links;
use policy_state::PolicyState;
use role_domain::{Reach, Steps};
use std::marker::{Brand, Model};
use std::sync::ledger::{Blank, Ledger};

/// A name that role questions ask about, in a relation and in a domain or without one, and what it reaches there.
#[derive(Drop)]
pub(crate) struct AskedName<'a> {
    pub(crate) relation: u8,
    pub(crate) name: &'a [u8],
    pub(crate) domain: Option<&'a [u8]>,
    pub(crate) reach: Reach<'a>,
}

/// The role relations of a policy as what a matcher asks. Questions about the asked name read what it reaches. Contracts see the
/// policy.
#[derive(Drop)]
pub(crate) struct StateLinks<'a> {
    pub(crate) state: &'a PolicyState,
    pub(crate) asked_name: Option<&'a AskedName<'a>>,
}

impl<'a> Model for StateLinks<'a> {
    ghost use Rattle.std.specs.Prelude.{IfSome, option_copied};
    ghost use Rattle.policy_state.specs.States.{State};
    ghost use Rattle.decision.specs.Helps.ReachedNames.{KnowsLinks};

    ghost Value = { State };

    ghost view = { λ l. l.state.now };

    ghost invariant = { λ l. IfSome (option_copied l.asked_name) (KnowsLinks l.state.now) };
}

impl<'a> Links for StateLinks<'a> {
    ghost use Rattle.policy_state.specs.States.{tables};

    ghost shapes = { λ links. links.shapes };

    ghost policy = { λ links. tables links };

    fn linked(&self, relation: u8, x: &[u8], y: &[u8], domain: Option<&[u8]>) -> bool {
        if let Some(known) = self.asked_name {
            if is_of(known, relation, x, domain) {
                return known.reach.has(y);
            }
        }
        ask(self.state, relation, x, y, domain)
    }
}

// Whether a name is asked as it is asked here.
fn is_of(known: &AskedName, relation: u8, x: &[u8], domain: Option<&[u8]>) -> bool
    ensures relation { result ≡ true → known.now.relation ≡ relation }
    ensures name { result ≡ true → known.now.name.now ≡ x.now }
    ensures domain { result ≡ true
        → option_copied known.now.domain ≡ option_copied domain.entry }
{
    if known.relation != relation {
        return false;
    }
    if known.name != x {
        return false;
    }
    match (known.domain, domain) {
        (Some(one), Some(other)) => one == other,
        (None, None) => true,
        (Some(_), None) | (None, Some(_)) => false,
    }
}

// Whether a relation links the one name to the other, in a domain or without one; one that is not there, or is asked in the
// other way, links none.
fn ask(state: &PolicyState, relation: u8, x: &[u8], y: &[u8], domain: Option<&[u8]>) -> bool
    ensures { IsTrue result ↔ IsLinkedBy state.now.shapes (tables state.now) relation
        x.now y.now (option_copied domain.entry) }
{
    let Some(shape) = state.shapes().roles.find(relation) else {
        return false;
    };
    if shape.with_domain != domain.is_some() {
        return false;
    }
    linked::<Brand>(state, relation, x, y, domain, Blank::new(1))
}

// Whether a relation that is asked in its way links the one name to the other; the steps are counted from nothing.
fn linked<L: Ledger>(
    state: &PolicyState,
    relation: u8,
    x: &[u8],
    y: &[u8],
    domain: Option<&[u8]>,
    blank: Blank,
) -> bool
    requires asked { IsAskedOf state.now.shapes relation (option_copied domain) }
    requires name { blank.name ≡ L.name }
    requires parts { blank.parts ≡ L.parts }
    requires some { 0 < L.parts }
    ensures { IsTrue result ↔ IsLinkedBy state.now.shapes (tables state.now) relation
        x.now y.now (option_copied domain.entry) }
{
    let mut steps = Steps::<L>::new(blank);
    state.linked(relation, x, y, domain, &mut steps)
}
