ghost use Rattle.std.specs.Prelude.{◌≡◌, ◌≤◌, IfErr, IfOk, OnOk, option_map, string_bytes, true};
ghost use Rattle.std.specs.Option.{option_copied};
ghost use Rattle.answer_lines.specs.LineText.{Appends, line_text};
ghost use Rattle.answer_lines.specs.Told.{is_printable};
ghost use Rattle.answer_lines.specs.declared.answer.Answer.TheVariants as answer;
ghost use Rattle.outside.specs.Faults.{Rose};
ghost use Rattle.perm_base.specs.declared.shapes.TableId.TheVariants.{P};
ghost use Rattle.policy_query.specs.Names.{names_refusal};
ghost use Rattle.policy_state.specs.States.{tables};
ghost use Rattle.rbac_query.specs.Asked.{AreImplicitRoles, AreImplicitUsers, hierarchy};
ghost use Rattle.rbac_query.specs.Permissions.{AreImplicitPermissions};
ghost use Rattle.loaded_work.specs.Helps.TaskSteps.{IsReady, Showed, TextStops};
ghost use Rattle.loaded_work.specs.Roles.{IsImplied, IsReplied, line_of};

use crate::loaded::Loaded;
use crate::opened::open_state;
use answer_lines::{Answer, Line, push_line};
use command_words::Subject;
use desk_session::refusal_answer;
use model_conf::Model;
use outside::{NoMemory, Sink, push_all};
use perm_base::TableId;
use policy_state::PolicyState;
use rbac_query::{implicit_permissions, implicit_roles, implicit_users};
use run_status::Stop;
use std::alloc::Global;

// The number of the relation g.
const HIERARCHY: u8 = 1;

/// Tells the implied roles of a name in g, the users that have it as an implied role, and the rules that count for it.
pub fn implicit<K: Sink>(
    alloc: Global,
    loaded: Loaded,
    subject: &Subject<'_>,
    out: &mut K,
) -> Result<(), Stop>
    requires { IsReady loaded }
    ensures shown { OnOk result (Showed
        (IsImplied loaded.model loaded.shapes loaded.tables.policy subject.now)
        (K.taken out.old) (K.taken out.new)) }
    ensures stopped { IfErr result (TextStops
        (IsImplied loaded.model loaded.shapes loaded.tables.policy subject.now)
        (K.taken out.old) (K.taken out.new) (Rose (K.faults out.old) (K.faults out.new))) }
    ensures counted { K.faults out.old ≤ K.faults out.new }
{
    let text = told_text(alloc, loaded, subject)?;
    push_all(out, text.as_bytes())?;
    Ok(())
}

// The lines of these, over what was loaded.
fn told_text(alloc: Global, loaded: Loaded, subject: &Subject<'_>) -> Result<String, NoMemory>
    requires { IsReady loaded }
    ensures { IfOk result (λ text.
        IsImplied loaded.model loaded.shapes loaded.tables.policy subject.now (string_bytes text)) }
{
    let state = open_state(alloc, loaded.shapes, loaded.tables)?;
    implied_text(alloc, &loaded.model, &state, subject)
}

// The lines of these.
fn implied_text(
    alloc: Global,
    model: &Model,
    state: &PolicyState,
    subject: &Subject<'_>,
) -> Result<String, NoMemory>
    ensures { IfOk result (λ text. IsImplied model.now state.now.shapes (tables state.now)
        subject.now (string_bytes text)) }
{
    let name = subject.name.as_bytes();
    let domain = bytes_of(subject.domain);
    let roles = roles(alloc, state, name, domain)?;
    let users = users(alloc, state, name, domain)?;
    let rules = rules(alloc, model, state, name, domain)?;
    let mut text = String::new(alloc);
    push_reply(&mut text, 1, roles)?;
    push_reply(&mut text, 2, users)?;
    push_reply(&mut text, 3, rules)?;
    Ok(text)
}

// Appends the line of an answer.
fn push_reply(text: &mut String, number: u32, answer: Answer) -> Result<(), NoMemory>
    requires { is_printable answer ≡ true }
    ensures { OnOk result (Appends text.old text.new (line_text (line_of number answer))) }
{
    push_line(text, &Line { number, answer })
}

// The implied roles of a name.
fn roles(
    alloc: Global,
    state: &PolicyState,
    name: &[u8],
    domain: Option<&[u8]>,
) -> Result<Answer, NoMemory>
    ensures reply { IfOk result (IsReplied
        (names_refusal state.now.shapes hierarchy (option_copied domain.entry))
        (AreImplicitRoles state.now.shapes (tables state.now) hierarchy
        (option_copied domain.entry) name.now) (answer.Roles 0)) }
    ensures printable { IfOk result (λ reply. is_printable reply ≡ true) }
{
    match implicit_roles(alloc, state, HIERARCHY, name, domain) {
        Ok(names) => Ok(Answer::Roles { version: 0, names }),
        Err(refused) => refusal_answer(refused),
    }
}

// The users that have a name as an implied role.
fn users(
    alloc: Global,
    state: &PolicyState,
    name: &[u8],
    domain: Option<&[u8]>,
) -> Result<Answer, NoMemory>
    ensures reply { IfOk result (IsReplied
        (names_refusal state.now.shapes hierarchy (option_copied domain.entry))
        (AreImplicitUsers state.now.shapes (tables state.now) hierarchy
        (option_copied domain.entry) name.now) (answer.Users 0)) }
    ensures printable { IfOk result (λ reply. is_printable reply ≡ true) }
{
    match implicit_users(alloc, state, HIERARCHY, name, domain) {
        Ok(names) => Ok(Answer::Users { version: 0, names }),
        Err(refused) => refusal_answer(refused),
    }
}

// The rules that count for a name.
fn rules(
    alloc: Global,
    model: &Model,
    state: &PolicyState,
    name: &[u8],
    domain: Option<&[u8]>,
) -> Result<Answer, NoMemory>
    ensures reply { IfOk result (IsReplied
        (names_refusal state.now.shapes hierarchy (option_copied domain.entry))
        (AreImplicitPermissions model.now state.now.shapes (tables state.now)
        (option_copied domain.entry) name.now) (answer.Rows 0 P)) }
    ensures printable { IfOk result (λ reply. is_printable reply ≡ true) }
{
    match implicit_permissions(alloc, model, state, name, domain) {
        Ok(rules) => Ok(Answer::Rows {
            version: 0,
            table: TableId::P,
            rules,
        }),
        Err(refused) => refusal_answer(refused),
    }
}

// The bytes of a text that may be there.
fn bytes_of(text: Option<&str>) -> Option<&[u8]>
    ensures { option_copied result ≡ option_map (λ text. text.now) text.entry }
{
    match text {
        Some(text) => Some(text.as_bytes()),
        None => None,
    }
}
