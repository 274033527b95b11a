ghost use Rattle.std.specs.Prelude.{◌≡◌, ◌++◌, ◌≤◌, IfErr, IfOk, List, OnOk, length, map};
ghost use Rattle.csv.specs.Writing.{default_writer, row_text};
ghost use Rattle.policy_state.specs.States.{tables};
ghost use Rattle.policy_table.specs.Tables.{Fields};
ghost use Rattle.role_domain.specs.Sections.{IsSectionOf};
ghost use Rattle.rbac_query.specs.Helps.Entries.{AddsEntries, AddsRoles, AddsSubject, StopsEntries, StopsRoles, StopsSubject, user_in};
ghost use Rattle.rbac_query.specs.Helps.Runs.{AreInOrder};
ghost use Rattle.rbac_query.specs.Helps.Stops.{IsStop};
ghost use Rattle.rbac_query.specs.Helps.Subjects.{shown};
ghost use Rattle.rbac_query.specs.Report.{IsReport, IsReportStop, header};

use crate::distances::{Run, asked, run_at};
use crate::laws::relation_has_one_report;
use crate::records::{push_record, push_role};
use crate::stop::ReportStop;
use crate::subjects::subjects_of;
use outside::Text;
use perm_base::TableId;
use policy_state::PolicyState;
use role_domain::RoleSection;
use std::alloc::Global;
use std::collections::BTreeSet;

/// The number of the relation `g`, which is reported.
const REPORTED: u8 = 1;

/// The report of g as records of CSV (RFC 4180, each line ended by LF): a header `user,domain,role,links`, and for each user
/// and domain of one and the same row that are no patterns, by bytes of the user, then of the domain, a record for each role
/// that the user has there by links, as `implicit_roles` lists them, with the number of links. Where g has no domains, that
/// field is empty. The report is refused where there is no relation g, and where it has more than `most` bytes. The roles of a
/// user are found at once, and how far they are by some questions for each distance: three, or as the logarithm of the roles
/// that are so far. It takes memory for the report and for a user and domain of each row.
pub fn report(alloc: Global, state: &PolicyState, most: u64) -> Result<Vec<u8>, ReportStop>
    ensures report { IfOk result (λ text.
        IsReport state.now.shapes (tables state.now) text.items) }
    ensures within { IfOk result (λ text. length text.items ≤ most) }
    ensures stop { IfErr result (IsReportStop state.now.shapes (tables state.now) most) }
{
    relation_has_one_report();
    let Some(shape) = state.shapes().roles.find(REPORTED) else {
        return Err(ReportStop::NoTable);
    };
    let rows = state.tables().rows(TableId::G(REPORTED));
    let subjects = subjects_of(alloc, shape, rows)?;
    let mut text = Vec::new(alloc);
    push_header(alloc, &mut text, most)?;
    push_entries(alloc, &mut text, state.section(REPORTED), &subjects, most)?;
    Ok(text)
}

// The header of the report.
fn push_header(alloc: Global, text: &mut Vec<u8>, most: u64) -> Result<(), ReportStop>
    ensures took { OnOk result (text.new.items ≡ text.old.items
        ++ row_text default_writer header) }
    ensures within { OnOk result (length text.new.items ≤ most) }
    ensures stop { IfErr result (IsStop most (text.old.items ++ row_text default_writer header)) }
{
    push_record(alloc, text, "user", "domain", "role", "links", most)
}

// Appends the records of subjects.
fn push_entries(
    alloc: Global,
    text: &mut Vec<u8>,
    section: &RoleSection,
    subjects: &BTreeSet<(&str, &str)>,
    most: u64,
) -> Result<(), ReportStop>
    requires { length text.old.items ≤ most }
    ensures took { OnOk result ((rows : List Fields) → IsSectionOf section.now rows
        → AddsEntries section.now.shape rows section.now.limit text.old.items
        (map shown subjects.now.keys) text.new.items) }
    ensures within { OnOk result (length text.new.items ≤ most) }
    ensures stop { IfErr result (λ stop. (rows : List Fields) → IsSectionOf section.now rows
        → StopsEntries section.now.shape rows section.now.limit most text.old.items
        (map shown subjects.now.keys) stop) }
{
    for subject in subjects.iter() {
        push_subject(alloc, text, section, subject.0, subject.1, most)?;
    }
    Ok(())
}

// Appends the records of a user in a domain.
fn push_subject(
    alloc: Global,
    text: &mut Vec<u8>,
    section: &RoleSection,
    user: &str,
    domain: &str,
    most: u64,
) -> Result<(), ReportStop>
    requires { length text.old.items ≤ most }
    ensures took { OnOk result ((rows : List Fields) → IsSectionOf section.now rows
        → AddsSubject section.now.shape rows section.now.limit (user_in user.now domain.now)
        text.old.items text.new.items) }
    ensures within { OnOk result (length text.new.items ≤ most) }
    ensures stop { IfErr result (λ stop. (rows : List Fields) → IsSectionOf section.now rows
        → StopsSubject section.now.shape rows section.now.limit (user_in user.now domain.now)
        most text.old.items stop) }
{
    let asked = asked(section.shape(), domain);
    let names = section.roles_within(alloc, user.as_bytes(), asked)?;
    push_roles(alloc, text, section, user, domain, names.fields(), most)
}

// Appends a record for each of these roles of a user in a domain, of which the nearer are listed first.
fn push_roles(
    alloc: Global,
    text: &mut Vec<u8>,
    section: &RoleSection,
    user: &str,
    domain: &str,
    names: &[Text],
    most: u64,
) -> Result<(), ReportStop>
    requires { length text.old.items ≤ most }
    ensures took { OnOk result ((rows : List Fields) → IsSectionOf section.now rows
        → AreInOrder section.now.shape rows (user_in user.now domain.now) names.now
        → AddsRoles section.now.shape rows (user_in user.now domain.now) text.old.items
        names.now text.new.items) }
    ensures within { OnOk result (length text.new.items ≤ most) }
    ensures stop { IfErr result (λ stop. (rows : List Fields) → IsSectionOf section.now rows
        → AreInOrder section.now.shape rows (user_in user.now domain.now) names.now
        → StopsRoles section.now.shape rows (user_in user.now domain.now) most text.old.items
        names.now stop) }
{
    let mut run = Run { links: 0, end: 0 };
    for (at, name) in names.iter().enumerate() {
        run = run_at(section, user, domain, names, at, run);
        push_role(alloc, text, user, domain, name.as_str(), run.links, most)?;
    }
    Ok(())
}
