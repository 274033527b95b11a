ghost use Rattle.std.specs.Prelude.{◌≡◌, option_copied};
ghost use Rattle.answer_lines.specs.Told.{comes_with_rule, has_name, is_call_told, is_printable};
ghost use Rattle.answer_lines.specs.Told.{is_query_told, is_request_told};

use edit_calls::CallRefused;
use effect_fold::Verdict;
use outside::Share;
use perm_base::{Rule, Rules, TableId};
use perm_value::RequestFault;
use policy_query::QueryRefused;
use policy_table::Edit;

/// An answer, and the number of its line.
#[derive(Drop)]
pub struct Line {
    pub number: u32,
    pub answer: Answer,
}

/// What is answered to an item of a script: a request, a call, a publish or a query (Casbin, enforce and management API). A
/// version is that of the policy by which it was answered.
#[derive(Drop)]
pub enum Answer {
    /// The verdict on a request, and the rule of the row that it names, where it names one and is no fault.
    Decided {
        version: u32,
        verdict: Verdict,
        rule: Option<Rule>,
    },
    /// The request has another number of values than the model has columns.
    Arity {
        got: u32,
        want: u32,
    },
    /// Why a line is no request.
    Request(RequestFault),
    /// Why a call is refused.
    Call(CallRefused),
    /// Why a query is refused.
    Query(QueryRefused),
    /// Whether a call changes the policy.
    Truth(bool),
    /// The version that was published.
    Published(u32),
    /// The version that is published, once all that was asked before is answered.
    Synced(u32),
    /// Whether a rule stands.
    Has {
        version: u32,
        stands: bool,
    },
    /// Rules of a table.
    Rows {
        version: u32,
        table: TableId,
        rules: Rules,
    },
    /// The roles that a name has.
    Roles {
        version: u32,
        names: Rule,
    },
    /// The names that have a role.
    Users {
        version: u32,
        names: Rule,
    },
    /// So many edits are kept.
    Kept(u32),
    /// The edit of this number.
    Recorded {
        version: u32,
        number: u32,
        edit: Edit,
    },
}

impl Answer {
    /// Whether the answer can be printed: it is no want of memory, a table that it names has a name, and an allow or deny
    /// that names a row comes with its rule. It takes no memory.
    pub fn is_printable(&self) -> bool
        ensures { result ≡ is_printable self.now }
    {
        match self {
            Answer::Decided { verdict, rule, .. } => comes_with_rule(*verdict, rule.as_ref()),
            Answer::Request(fault) => is_request_told(*fault),
            Answer::Call(refused) => is_call_told(*refused),
            Answer::Query(refused) => is_query_told(*refused),
            Answer::Rows { table, .. } => has_name(*table),
            _ => true,
        }
    }
}

impl Share for Line {}

impl Share for Answer {}

// Whether a verdict that names a row, and is no fault, comes with a rule.
fn comes_with_rule(verdict: Verdict, rule: Option<&Rule>) -> bool
    ensures { result ≡ comes_with_rule verdict (option_copied rule.entry) }
{
    match verdict {
        Verdict::Allow(row) | Verdict::Deny(row) => row.is_none() || rule.is_some(),
        Verdict::Fault { .. } => true,
    }
}

fn is_request_told(fault: RequestFault) -> bool
    ensures { result ≡ is_request_told fault }
{
    !matches!(fault, RequestFault::NoMemory)
}

fn is_call_told(refused: CallRefused) -> bool
    ensures { result ≡ is_call_told refused }
{
    match refused {
        CallRefused::NoTable { table } => has_name(table),
        CallRefused::NoMemory => false,
        _ => true,
    }
}

fn is_query_told(refused: QueryRefused) -> bool
    ensures { result ≡ is_query_told refused }
{
    match refused {
        QueryRefused::NoTable { table } => has_name(table),
        QueryRefused::NoMemory => false,
        _ => true,
    }
}

fn has_name(table: TableId) -> bool
    ensures { result ≡ has_name table }
{
    table.name().is_some()
}
