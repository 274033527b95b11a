//! Rows that are taken out of a graph, those of one user that stand behind each other at once.

ghost use Rattle.std.specs.Prelude.{◌≡◌, ◌+◌, ◌<◌, ◌≤◌, ℕ, All, List, [], IfOk, OnOk, get_or, length, take, true};
ghost use Rattle.policy_table.specs.Tables.{Fields};
ghost use Rattle.role_graph.specs.Groups.{times};
ghost use Rattle.role_graph.specs.Helps.Edits.{IsRun, counted_rows, standing};
ghost use Rattle.role_graph.specs.Helps.Roles.{count_of};
ghost use Rattle.role_meaning.specs.Links.{user_of};

use crate::edits::Edits;
use crate::link_groups::LinkGroups;
use crate::name::Name;
use crate::roles::Roles;
use outside::NoMemory;
use perm_base::Rule;
use std::alloc::Global;

/// Takes rows out that stand. Its time is that of the rows, and for each run of rows of one user that of the roles which the user
/// has.
pub(crate) fn remove_all(
    edits: &mut Edits,
    links: &LinkGroups,
    alloc: Global,
    rows: &[Rule],
) -> Result<(), NoMemory>
    requires two { All (λ row. length row ≡ 2) rows.now }
    requires stand { (row : Fields) → times row rows.now ≤ standing links.now edits.old row }
    ensures { OnOk result ((row : Fields) → standing links.now edits.new row + times row rows.now
        ≡ standing links.now edits.old row) }
{
    let mut at = 0;
    while at < rows.len() {
        at = remove_run(edits, links, alloc, rows, at)?;
    }
    Ok(())
}

// Takes the rows of one user out that stand from a place on behind each other; the place behind them.
fn remove_run(
    edits: &mut Edits,
    links: &LinkGroups,
    alloc: Global,
    rows: &[Rule],
    from: usize,
) -> Result<usize, NoMemory>
    requires from { from < length rows.now }
    requires two { All (λ row. length row ≡ 2) rows.now }
    requires stand { (row : Fields) → times row rows.now
        ≤ standing links.now edits.old row + times row (take from rows.now) }
    ensures further { IfOk result (λ to. (from < to) × (to ≤ length rows.now)) }
    ensures rows { IfOk result (λ to. (one : Fields) → standing links.now edits.new one
        + times one (take to rows.now) ≡ standing links.now edits.old one
        + times one (take from rows.now)) }
{
    let user = user_at(rows, from);
    let mut gone = Roles::new(alloc);
    let to = count_run(alloc, rows, from, user, &mut gone)?;
    edits.remove_counted(links, alloc, user, gone)?;
    Ok(to)
}

// Counts the roles of the rows of a user from a place on, up to the first of another; the place behind them.
fn count_run(
    alloc: Global,
    rows: &[Rule],
    from: usize,
    user: &str,
    gone: &mut Roles,
) -> Result<usize, NoMemory>
    requires from { from < length rows.now }
    requires two { All (λ row. length row ≡ 2) rows.now }
    requires user { user_of (get_or rows.now from []) ≡ user.now }
    requires none { (role : List ℕ) → count_of gone.old role ≡ 0 }
    ensures { IfOk result (λ to. IsRun user.now rows.now from to gone.new) }
{
    count_role(alloc, rows, from, user, gone)?;
    for at in from + 1..rows.len() {
        if !is_same(user_at(rows, at), user) {
            return Ok(at);
        }
        count_role(alloc, rows, at, user, gone)?;
    }
    Ok(rows.len())
}

// Counts the role of the row at a place.
fn count_role(
    alloc: Global,
    rows: &[Rule],
    at: usize,
    _user: &str,
    gone: &mut Roles,
) -> Result<(), NoMemory>
    requires at { at < length rows.now }
    requires two { All (λ row. length row ≡ 2) rows.now }
    requires user { user_of (get_or rows.now at []) ≡ _user.now }
    requires few { (role : List ℕ) → count_of gone.old role ≤ at }
    ensures { OnOk result ((one : Fields) → times one (take (at + 1) rows.now)
        + counted_rows _user.now gone.old one ≡ times one (take at rows.now)
        + counted_rows _user.now gone.new one) }
{
    let role = row_at(rows, at).text(1);
    gone.reserve(1)?;
    gone.add(Name::from_str(alloc, role)?);
    Ok(())
}

// Whether the one text is the other.
fn is_same(one: &str, other: &str) -> bool
    ensures { result ≡ true → one.now ≡ other.now }
{
    one == other
}

// The user of the row at a place.
fn user_at(rows: &[Rule], at: usize) -> &str
    requires at { at < length rows.now }
    requires two { All (λ row. length row ≡ 2) rows.now }
    ensures { result.now ≡ user_of (get_or rows.now at []) }
{
    row_at(rows, at).text(0)
}

// The row at a place.
fn row_at(rows: &[Rule], at: usize) -> &Rule
    requires { at < length rows.now }
    ensures { result.now ≡ get_or rows.now at [] }
{
    &rows[at]
}
