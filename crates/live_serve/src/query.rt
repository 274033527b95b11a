ghost use Rattle.std.specs.Prelude.{◌≡◌, ◌≢◌, IfOk, MatchOption, OnErr, Some, false, true};
ghost use Rattle.answer_lines.specs.declared.answer.Answer.TheVariants as answer;
ghost use Rattle.decision.specs.Programs.{Suits};
ghost use Rattle.desk_session.specs.Requests.{Refuses};
ghost use Rattle.policy_query.specs.declared.refused.QueryRefused.TheVariants as query;
ghost use Rattle.script_read.specs.Named.{is_named};
ghost use Rattle.script_read.specs.Said.{has, recalls, roles, rows, seen, users};
ghost use Rattle.live_serve.specs.Followed.{is_leaders};
ghost use Rattle.live_serve.specs.Helps.Asked.{IsAsked, IsQueried};

use answer_lines::Answer;
use decision::{Program, Scratch};
use desk_session::{answer_text, bytes_of, refusal_answer};
use outside::{NoMemory, Text};
use perm_base::{Rule, TableId};
use policy_query::QueryRefused;
use policy_state::PolicyState;
use policy_table::copy_edit;
use regex_gate::Finder;
use script_read::Item;
use std::alloc::Global;

/// What an item is answered by a policy of its version, unless only a leader does it.
pub(crate) fn answer_query<P: Finder>(
    alloc: Global,
    state: &PolicyState,
    program: &Program,
    item: &Item,
    finder: &mut P,
    scratch: &mut Scratch,
) -> Result<Option<Answer>, NoMemory>
    requires suits { Suits program.now state.now.shapes }
    requires has_name { is_named (seen item.now) ≡ true }
    ensures asked { IfOk result (λ reply. MatchOption reply (is_leaders (seen item.now) ≡ true)
        (IsAsked program.now state.now (P.refusals finder.old) (P.refusals finder.new)
        (seen item.now))) }
    ensures unasked { IfOk result (λ reply. MatchOption reply
        (P.refusals finder.new ≡ P.refusals finder.old) (λ _. is_leaders (seen item.now) ≡ false)) }
    ensures refused { OnErr result (Refuses program.now
        (P.refusals finder.old) (P.refusals finder.new) (seen item.now)) }
{
    match item {
        Item::Ask(asked) => {
            let reply = answer_text(alloc, state, program, asked, finder, scratch)?;
            Ok(Some(reply))
        }
        Item::Sync => Ok(Some(Answer::Synced(state.version()))),
        Item::Has { table, rule } => query_has(state, *table, rule),
        Item::Rows { table, at, values } => query_rows(alloc, state, *table, *at, values),
        Item::Roles {
            relation,
            name,
            domain,
        } => query_roles(alloc, state, *relation, name, domain),
        Item::Users {
            relation,
            name,
            domain,
        } => query_users(alloc, state, *relation, name, domain),
        Item::History(number) => query_history(alloc, state, *number),
        Item::Edit(_) | Item::Publish | Item::Keep(_) => Ok(None),
    }
}

// Whether a rule stands.
fn query_has(state: &PolicyState, table: TableId, rule: &Rule) -> Result<Option<Answer>, NoMemory>
    requires { is_named (has table rule.now) ≡ true }
    ensures { IfOk result (IsQueried state.now (has table rule.now)) }
{
    let version = state.version();
    match state.has_rule(table, rule) {
        Ok(stands) => Ok(Some(Answer::Has { version, stands })),
        Err(refused) => told(refused),
    }
}

// The rules of a table that fit a filter.
fn query_rows(
    alloc: Global,
    state: &PolicyState,
    table: TableId,
    at: u32,
    values: &Rule,
) -> Result<Option<Answer>, NoMemory>
    requires { is_named (rows table at values.now) ≡ true }
    ensures { IfOk result (IsQueried state.now (rows table at values.now)) }
{
    let version = state.version();
    match state.rows_of(alloc, table, at, values) {
        Ok(rules) => Ok(Some(Answer::Rows {
            version,
            table,
            rules,
        })),
        Err(refused) => told(refused),
    }
}

// The roles of a name.
fn query_roles(
    alloc: Global,
    state: &PolicyState,
    relation: u8,
    name: &Text,
    domain: &Option<Text>,
) -> Result<Option<Answer>, NoMemory>
    requires { is_named (roles relation name.now domain.now) ≡ true }
    ensures { IfOk result (IsQueried state.now (roles relation name.now domain.now)) }
{
    let version = state.version();
    match state.roles_of(alloc, relation, name.bytes(), bytes_of(domain)) {
        Ok(names) => Ok(Some(Answer::Roles { version, names })),
        Err(refused) => told(refused),
    }
}

// The names that have a role.
fn query_users(
    alloc: Global,
    state: &PolicyState,
    relation: u8,
    name: &Text,
    domain: &Option<Text>,
) -> Result<Option<Answer>, NoMemory>
    requires { is_named (users relation name.now domain.now) ≡ true }
    ensures { IfOk result (IsQueried state.now (users relation name.now domain.now)) }
{
    let version = state.version();
    match state.users_of(alloc, relation, name.bytes(), bytes_of(domain)) {
        Ok(names) => Ok(Some(Answer::Users { version, names })),
        Err(refused) => told(refused),
    }
}

// The edit of a number.
fn query_history(
    alloc: Global,
    state: &PolicyState,
    number: u32,
) -> Result<Option<Answer>, NoMemory>
    ensures { IfOk result (IsQueried state.now (recalls number)) }
{
    let version = state.version();
    match state.history(number) {
        Ok(edit) => {
            let edit = copy_edit(alloc, edit)?;
            Ok(Some(Answer::Recorded {
                version,
                number,
                edit,
            }))
        }
        Err(refused) => told(refused),
    }
}

// Why a query is refused, as its answer; want of memory is handed on.
fn told(refused: QueryRefused) -> Result<Option<Answer>, NoMemory>
    ensures { IfOk result (λ reply. (reply ≡ Some (answer.Query refused))
        × (refused ≢ query.NoMemory)) }
{
    let answer = refusal_answer(refused)?;
    Ok(Some(answer))
}
