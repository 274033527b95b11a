use edit_calls::Call;
use outside::{LineText, Share, Text};
use perm_base::{Rule, TableId};
use perm_value::{Request, RequestFault};

/// A request, or why the line is none.
#[derive(Drop)]
pub enum RequestLine {
    Request(Request),
    Refused(RequestFault),
}

/// A request as it stands in a script. `read_text` reads it.
#[derive(Drop)]
pub struct RequestText {
    /// It is JSON.
    pub json: bool,
    /// What stands behind `ask`.
    pub line: LineText,
}

/// What one line of a script says, or one block of lines.
#[derive(Drop)]
pub enum Item {
    /// Asks for the decision on a request.
    Ask(RequestText),
    /// Makes a management call.
    Edit(Call),
    /// Publishes the edits so far as a version.
    Publish,
    /// Waits for what was asked.
    Sync,
    /// Asks whether a rule stands.
    Has {
        table: TableId,
        rule: Rule,
    },
    /// Asks for the rules that fit a filter: values from a column on, of which the empty ones are
    /// left open.
    Rows {
        table: TableId,
        at: u32,
        values: Rule,
    },
    /// Asks for the roles of a name under a role relation, by the relation's number.
    Roles {
        relation: u8,
        name: Text,
        domain: Option<Text>,
    },
    /// Asks for the names that have a role under a role relation, by the relation's number.
    Users {
        relation: u8,
        name: Text,
        domain: Option<Text>,
    },
    /// Keeps so many edits.
    Keep(u32),
    /// Asks for the edit of this number.
    History(u32),
}

impl Share for RequestLine {}

impl Share for RequestText {}

impl Share for Item {}
