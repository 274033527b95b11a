ghost use Rattle.std.specs.Prelude.{◌≡◌, ◌≢◌, IfOk, OnErr};
ghost use Rattle.std.specs.Option.{option_copied};
ghost use Rattle.answer_lines.specs.declared.answer.Answer.TheVariants as answer;
ghost use Rattle.policy_query.specs.declared.refused.QueryRefused.TheVariants as query;
ghost use Rattle.script_read.specs.Said.{has, recalls, roles, rows, syncs, users};
ghost use Rattle.desk_session.specs.Steps.{IsPlainStep, IsStopped};

use answer_lines::Answer;
use outside::{NoMemory, Text};
use perm_base::{Rule, TableId};
use policy_desk::{Desk, Editor};
use policy_query::QueryRefused;
use policy_table::copy_edit;
use std::alloc::Global;

/// Says which version is published.
pub(crate) fn answer_sync(desk: &Desk) -> Answer
    ensures { IsPlainStep syncs desk.now desk.now result }
{
    Answer::Synced(desk.state().version())
}

/// Whether a rule stands.
pub(crate) fn answer_has(desk: &Desk, table: TableId, rule: &Rule) -> Result<Answer, NoMemory>
    ensures { IfOk result (IsPlainStep (has table rule.now) desk.now desk.now) }
{
    let state = desk.state();
    let version = state.version();
    match state.has_rule(table, rule) {
        Ok(stands) => Ok(Answer::Has { version, stands }),
        Err(refused) => refusal_answer(refused),
    }
}

/// The rules of a table that fit a filter.
pub(crate) fn answer_rows(
    alloc: Global,
    desk: &Desk,
    table: TableId,
    at: u32,
    values: &Rule,
) -> Result<Answer, NoMemory>
    ensures { IfOk result (IsPlainStep (rows table at values.now) desk.now desk.now) }
{
    let state = desk.state();
    let version = state.version();
    match state.rows_of(alloc, table, at, values) {
        Ok(rules) => Ok(Answer::Rows {
            version,
            table,
            rules,
        }),
        Err(refused) => refusal_answer(refused),
    }
}

/// The roles of a name.
pub(crate) fn answer_roles(
    alloc: Global,
    desk: &Desk,
    relation: u8,
    name: &Text,
    domain: &Option<Text>,
) -> Result<Answer, NoMemory>
    ensures { IfOk result (IsPlainStep (roles relation name.now domain.now) desk.now desk.now) }
{
    let state = desk.state();
    let version = state.version();
    match state.roles_of(alloc, relation, name.bytes(), bytes_of(domain)) {
        Ok(names) => Ok(Answer::Roles { version, names }),
        Err(refused) => refusal_answer(refused),
    }
}

/// The names that have a role.
pub(crate) fn answer_users<R, E: Editor<R>>(
    alloc: Global,
    editor: &mut E,
    relation: u8,
    name: &Text,
    domain: &Option<Text>,
) -> Result<Answer, NoMemory>
    ensures step { IfOk result (IsPlainStep (users relation name.now domain.now)
        (E.work editor.old) (E.work editor.new)) }
    ensures shapes { (E.work editor.new).state.shapes ≡ (E.work editor.old).state.shapes }
    ensures stopped { OnErr result (IsStopped (E.work editor.old) (E.work editor.new)) }
    ensures stays { E.stays editor.old editor.new }
{
    let version = editor.desk().state().version();
    match editor.users_of(alloc, relation, name, domain) {
        Ok(names) => Ok(Answer::Users { version, names }),
        Err(refused) => refusal_answer(refused),
    }
}

/// The edit of a number.
pub(crate) fn answer_history(alloc: Global, desk: &Desk, number: u32) -> Result<Answer, NoMemory>
    ensures { IfOk result (IsPlainStep (recalls number) desk.now desk.now) }
{
    let state = desk.state();
    let version = state.version();
    match state.history(number) {
        Ok(edit) => {
            let edit = copy_edit(alloc, edit)?;
            Ok(Answer::Recorded {
                version,
                number,
                edit,
            })
        }
        Err(refused) => refusal_answer(refused),
    }
}

/// Why a query is refused, as its answer; want of memory is handed on.
pub fn refusal_answer(refused: QueryRefused) -> Result<Answer, NoMemory>
    ensures { IfOk result (λ reply. (reply ≡ answer.Query refused)
        × (refused ≢ query.NoMemory)) }
{
    match refused {
        QueryRefused::NoMemory => Err(NoMemory),
        QueryRefused::NoTable { .. }
        | QueryRefused::Columns { .. }
        | QueryRefused::FilterPlace
        | QueryRefused::NoEdit { .. }
        | QueryRefused::Dropped { .. } => Ok(Answer::Query(refused)),
    }
}

/// The bytes of a text that may be there.
pub fn bytes_of(text: &Option<Text>) -> Option<&[u8]>
    ensures { option_copied result ≡ text.now }
{
    match text {
        Some(text) => Some(text.bytes()),
        None => None,
    }
}
