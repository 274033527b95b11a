ghost use Rattle.std.specs.Prelude.{◌≡◌, IfOk, MatchResult, Some};
ghost use Rattle.std.specs.Option.{option_copied};
ghost use Rattle.policy_query.specs.Answers.{IsAnswer};
ghost use Rattle.policy_query.specs.Edits.{IsEdit, edit_refusal};
ghost use Rattle.policy_query.specs.Names.{roles_answer, users_answer};
ghost use Rattle.policy_query.specs.Rules.{has_answer, rows_answer};
ghost use Rattle.policy_state.specs.States.{tables};
ghost use Rattle.version_log.specs.EditText.{NameRules};

use crate::state::PolicyState;
use perm_base::{Rule, Rules, TableId};
use policy_query::{
    QueryRefused, edit_of, has_rule, names_refusal, roles_among, rows_of, users_of,
};
use policy_table::Edit;
use std::alloc::Global;

impl PolicyState {
    /// Whether a rule stands in a table (Casbin, HasPolicy and HasGroupingPolicy). Refused are a table that the shapes lack
    /// and a rule with another number of fields than the table has columns. It takes no memory, and is never refused for
    /// want of it.
    pub fn has_rule(&self, table: TableId, rule: &Rule) -> Result<bool, QueryRefused>
        ensures answer { result ≡ has_answer self.now.shapes (tables self.now) table rule.now }
    {
        has_rule(&self.tables, &self.shapes, table, rule)
    }

    /// The rules of a table that fit a filter, in their order: from the column `at` on, counted from 0, each value that is
    /// not empty equals the rule's field. No values fit every rule (Casbin, GetFilteredPolicy and GetPolicy). Refused are a
    /// table that the shapes lack and values that go past its columns. It copies the rules that fit, and takes memory for
    /// that alone.
    pub fn rows_of(
        &self,
        alloc: Global,
        table: TableId,
        at: u32,
        values: &Rule,
    ) -> Result<Rules, QueryRefused>
        ensures answer { IsAnswer (rows_answer self.now.shapes (tables self.now) table at values.now)
            result }
    {
        rows_of(alloc, &self.tables, &self.shapes, table, at, values)
    }

    /// The roles that a name has in a relation by rules of its own, in one domain where the relation has domains: each once,
    /// in the order of its first rule. Names and domains are compared byte by byte (Casbin, GetRolesForUser and
    /// GetRolesForUserInDomain). Refused are a relation that the shapes lack, a domain where it has none, and none where it
    /// has one. Its time grows with the roles that the name has there, by rows with patterns too, and with the logarithm of
    /// the table; it takes memory for these roles alone.
    pub fn roles_of(
        &self,
        alloc: Global,
        relation: u8,
        name: &[u8],
        domain: Option<&[u8]>,
    ) -> Result<Rule, QueryRefused>
        ensures answer { IsAnswer (roles_answer self.now.shapes (tables self.now) relation name.now
            (option_copied domain.entry)) result }
    {
        self.kept();
        if let Some(refused) = names_refusal(self.shapes(), relation, domain) {
            return Err(refused);
        }
        let roles = self.section(relation).roles_of(name, domain);
        Ok(roles_among(alloc, self.tables(), relation, name, domain, roles)?)
    }

    /// The users that have a role in a relation by rules of their own, in one domain where the relation has domains: each
    /// once, in the order of its first rule. Names and domains are compared byte by byte (Casbin, GetUsersForRole and
    /// GetUsersForRoleInDomain). Refused are a relation that the shapes lack, a domain where it has none, and none where it
    /// has one. It goes over all rules of the relation, and takes memory for these users alone.
    pub fn users_of(
        &self,
        alloc: Global,
        relation: u8,
        name: &[u8],
        domain: Option<&[u8]>,
    ) -> Result<Rule, QueryRefused>
        ensures answer { IsAnswer (users_answer self.now.shapes (tables self.now) relation name.now
            (option_copied domain.entry)) result }
    {
        users_of(alloc, &self.tables, &self.shapes, relation, name, domain)
    }

    /// The edit of a number; edits are numbered from 1, one a version. Refused are a number that no edit has and one whose
    /// edit is dropped. It takes no memory, and is never refused for want of it. The text of the edit is read back.
    pub fn history(&self, number: u32) -> Result<&Edit, QueryRefused>
        ensures answer { MatchResult result (λ edit. IsEdit self.now.log number edit.now)
            (λ refused. edit_refusal self.now.log number ≡ Some refused) }
        ensures names { IfOk result (λ edit. NameRules edit.now) }
    {
        edit_of(&self.log, number)
    }
}
