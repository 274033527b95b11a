ghost use Rattle.std.specs.Prelude.{◌≡◌, ◌++◌, OnErr, OnOk, codes, true};
ghost use Rattle.answer_lines.specs.LineText.{Appends, IsKept, call_text, most, name_text, query_text, request_text, wanted_text};
ghost use Rattle.answer_lines.specs.Told.{has_name, is_call_told, is_query_told, is_request_told};

use crate::pieces::{push_at, push_number, push_text};
use edit_calls::CallRefused;
use outside::NoMemory;
use perm_base::TableId;
use perm_value::RequestFault;
use policy_query::QueryRefused;
use policy_table::Limit;

/// Appends that a request has another number of fields than is wanted.
pub(crate) fn push_arity(text: &mut String, got: u32, want: u32) -> Result<(), NoMemory>
    ensures appended { OnOk result (Appends text.old text.new
        (codes "refused: " ++ wanted_text got (codes "fields") want)) }
    ensures kept { OnErr result (IsKept text.old text.new) }
{
    text.push_str("refused: ")?;
    push_wanted(text, got, "fields", want)
}

/// Appends why a line is no request.
pub(crate) fn push_fault(text: &mut String, fault: RequestFault) -> Result<(), NoMemory>
    requires { is_request_told fault ≡ true }
    ensures appended { OnOk result (Appends text.old text.new (codes "refused: " ++ request_text fault)) }
    ensures kept { OnErr result (IsKept text.old text.new) }
{
    text.push_str("refused: ")?;
    match fault {
        RequestFault::Quote { column } => push_at(text, "quote at ", column),
        RequestFault::TooMany => push_text(text, "more than 34 fields"),
        RequestFault::Syntax => push_text(text, "not JSON"),
        RequestFault::NotAnArray => push_text(text, "not an array"),
        RequestFault::TooDeep { field } => push_at(text, "too deep in field ", field),
        RequestFault::NotWhole { field } => push_at(text, "not a whole number in field ", field),
        RequestFault::NoMemory => unreachable!(),
    }
}

/// Appends why a call is refused.
pub(crate) fn push_call(text: &mut String, refused: CallRefused) -> Result<(), NoMemory>
    requires { is_call_told refused ≡ true }
    ensures appended { OnOk result (Appends text.old text.new (codes "refused: " ++ call_text refused)) }
    ensures kept { OnErr result (IsKept text.old text.new) }
{
    text.push_str("refused: ")?;
    match refused {
        CallRefused::NoTable { table } => push_no_table(text, table),
        CallRefused::Columns { want, got } => push_wanted(text, got, "columns", want),
        CallRefused::FilterPlace => push_text(text, "filter place"),
        CallRefused::EmptyFilter => push_text(text, "empty filter"),
        CallRefused::FieldTooLong => push_text(text, "field too long"),
        CallRefused::Full { what } => push_at(text, "full, limit ", most(what)),
        CallRefused::NoMemory => unreachable!(),
    }
}

/// Appends why a query is refused.
pub(crate) fn push_query(text: &mut String, refused: QueryRefused) -> Result<(), NoMemory>
    requires { is_query_told refused ≡ true }
    ensures appended { OnOk result (Appends text.old text.new (codes "refused: " ++ query_text refused)) }
    ensures kept { OnErr result (IsKept text.old text.new) }
{
    text.push_str("refused: ")?;
    match refused {
        QueryRefused::NoTable { table } => push_no_table(text, table),
        QueryRefused::Columns { want, got } => push_wanted(text, got, "columns", want),
        QueryRefused::FilterPlace => push_text(text, "filter place"),
        QueryRefused::NoMemory => unreachable!(),
        QueryRefused::NoEdit { version } => push_at(text, "no edit, version ", version),
        QueryRefused::Dropped { start } => push_at(text, "dropped, start ", start),
    }
}

// Appends that there is another number than is wanted, of what `these` says.
fn push_wanted(text: &mut String, got: u32, these: &str, want: u32) -> Result<(), NoMemory>
    ensures appended { OnOk result (Appends text.old text.new (wanted_text got these.now want)) }
    ensures kept { OnErr result (IsKept text.old text.new) }
{
    push_number(text, got)?;
    text.push_str(" ")?;
    text.push_str(these)?;
    push_at(text, ", ", want)?;
    push_text(text, " wanted")
}

// Appends that there is no such table.
fn push_no_table(text: &mut String, table: TableId) -> Result<(), NoMemory>
    requires { has_name table ≡ true }
    ensures appended { OnOk result (Appends text.old text.new (codes "no table " ++ name_text table)) }
    ensures kept { OnErr result (IsKept text.old text.new) }
{
    let Some(name) = table.name() else {
        unreachable!()
    };
    text.push_str("no table ")?;
    push_text(text, name)
}

// The greatest number that a limit admits.
fn most(limit: Limit) -> u32
    ensures { result ≡ most limit }
{
    match limit {
        Limit::PolicyRows | Limit::RoleRows => 200_000,
        Limit::PatternRows => 64,
        Limit::Domains => 16_384,
        Limit::Edits => 4_000_000_000,
    }
}
