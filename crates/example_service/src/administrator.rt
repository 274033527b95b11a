//! What the administrator does.

use crate::bulletin::Bulletin;
use edit_calls::Call;
use live_pair::{Admin, Front, Naming};
use outside::{NoMemory, Text};
use perm_base::{Rule, TableId};
use std::alloc::Global;
use std::sync::Wait;

/// How many users become readers. Version n has made user n one.
pub(crate) const USERS: u32 = 100;

/// Makes one user after the other a reader and publishes it, and tells each front.
pub(crate) fn publish_users<J: Naming, R: Wait>(
    rt: &R,
    alloc: Global,
    admin: &mut Admin<J>,
    bulletin: &Bulletin<J>,
) -> Result<(), NoMemory> {
    for user in 0..USERS {
        let rule = reader_rule(alloc, user + 1)?;
        let front = publish_role(rt, alloc, admin, rule)?;
        bulletin.tell(rt, front);
    }
    Ok(())
}

// Adds a rule of g, and publishes it.
fn publish_role<J: Naming, R: Wait>(
    rt: &R,
    alloc: Global,
    admin: &mut Admin<J>,
    rule: Rule,
) -> Result<Front<J>, NoMemory> {
    let table = TableId::G(1);
    let Ok(_) = admin.call(alloc, &Call::Add { table, rule }) else {
        return Err(NoMemory);
    };
    admin.publish(rt, alloc)
}

// The rule that the user of this number is a reader.
fn reader_rule(alloc: Global, user: u32) -> Result<Rule, NoMemory> {
    let name = format!(in alloc; "user{user}")?;
    let fields = vec![in alloc;
        Text::from_str(alloc, name.as_str())?,
        Text::from_str(alloc, "reader")?,
    ]?;
    let Ok(rule) = Rule::from_fields(fields) else {
        return Err(NoMemory);
    };
    Ok(rule)
}
