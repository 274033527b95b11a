//! What an auditor asks of a policy: the roles and users of a name by links, the rules that count for it, and a report of
//! all users with all their roles.
#![tactic(auto)]

mod distances;
mod fields;
mod laws;
mod names;
mod permissions;
mod records;
mod reports;
mod stop;
mod subjects;

pub use laws::{permissions_are_one, relation_has_one_report};
pub use names::{implicit_roles, implicit_users};
pub use permissions::implicit_permissions;
pub use policy_query::QueryRefused;
pub use reports::report;
pub use stop::ReportStop;
