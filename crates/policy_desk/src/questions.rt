ghost use Rattle.std.specs.Prelude.{◌≡◌, [], IfSome, None, false};
ghost use Rattle.std.specs.Option.{option_copied};
ghost use Rattle.perm_base.specs.declared.shapes.TableId.TheVariants as table_of;
ghost use Rattle.policy_query.specs.Answers.{IsAnswer};
ghost use Rattle.policy_query.specs.Found.{FindAsked};
ghost use Rattle.policy_query.specs.Names.{names_refusal, users_answer};
ghost use Rattle.policy_state.specs.States.{tables};
ghost use Rattle.policy_table.specs.Tables.{rows};

use crate::desk::Desk;
use outside::Text;
use perm_base::Rule;
use policy_query::{QueryRefused, names_refusal, users_at};
use policy_table::Edit;
use std::alloc::Global;

impl Desk {
    /// The users that have a role in the published policy (`PolicyState::users_of`). Where no edit is pending, its time grows with these
    /// users and the logarithm of the table, behind the first question that names a domain and the first that names none; else it goes
    /// over all rules of the relation.
    pub fn users_of(
        &mut self,
        alloc: Global,
        relation: u8,
        role: &Text,
        domain: &Option<Text>,
    ) -> Result<Rule, QueryRefused>
        ensures answer { IsAnswer (users_answer self.old.state.shapes (tables self.old.state) relation
            role.now domain.now) result }
        ensures same { self.new ≡ self.old }
    {
        match self.known_users(alloc, relation, role, domain) {
            Some(places) => self.users_there(alloc, relation, places.as_slice(), role, domain),
            None => self.users_sought(alloc, relation, role, domain),
        }
    }

    // Places at which all rules of a relation stand that give a role, where that is known; others may be among them.
    fn known_users(
        &mut self,
        alloc: Global,
        relation: u8,
        role: &Text,
        domain: &Option<Text>,
    ) -> Option<Vec<u32>>
        ensures same { self.new ≡ self.old }
        ensures passes { IfSome result (λ _.
            names_refusal self.old.state.shapes relation domain.now ≡ None) }
        ensures published { IfSome result (λ _. self.old.drafts ≡ tables self.old.state) }
        ensures found { IfSome result (λ places. FindAsked 1 role.now domain.now
            (rows self.old.drafts (table_of.G relation)) places.items) }
    {
        if has_edits(&self.pending) {
            return None;
        }
        let None = names_refusal(self.state.shapes(), relation, bytes_of(domain)) else {
            return None;
        };
        self.drafts.known_users(alloc, relation, role, domain)
    }

    // The users in the rules at these places that give a role.
    fn users_there(
        &self,
        alloc: Global,
        relation: u8,
        places: &[u32],
        role: &Text,
        domain: &Option<Text>,
    ) -> Result<Rule, QueryRefused>
        requires passes { names_refusal self.now.state.shapes relation domain.now ≡ None }
        requires published { self.now.drafts ≡ tables self.now.state }
        requires found { FindAsked 1 role.now domain.now
            (rows self.now.drafts (table_of.G relation)) places.now }
        ensures { IsAnswer (users_answer self.now.state.shapes (tables self.now.state) relation
            role.now domain.now) result }
    {
        let tables = self.drafts.tables();
        Ok(users_at(
            alloc,
            tables,
            relation,
            places,
            role.bytes(),
            bytes_of(domain),
        )?)
    }

    // The users in all rules that give a role.
    fn users_sought(
        &self,
        alloc: Global,
        relation: u8,
        role: &Text,
        domain: &Option<Text>,
    ) -> Result<Rule, QueryRefused>
        ensures { IsAnswer (users_answer self.now.state.shapes (tables self.now.state) relation
            role.now domain.now) result }
    {
        let state = self.state();
        state.users_of(alloc, relation, role.bytes(), bytes_of(domain))
    }
}

// Whether there are some edits.
fn has_edits(edits: &[Edit]) -> bool
    ensures { result ≡ false → edits.now ≡ [] }
{
    !edits.is_empty()
}

// The bytes of a text that may be there.
fn bytes_of(text: &Option<Text>) -> Option<&[u8]>
    ensures { option_copied result ≡ text.now }
{
    match text {
        Some(text) => Some(text.bytes()),
        None => None,
    }
}
