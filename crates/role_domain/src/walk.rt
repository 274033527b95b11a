//! Walks over rows whose domain is a pattern, from a name, level by level: in a domain that no row
//! names only such rows count.

ghost use Rattle.std.specs.Prelude.{◌≡◌, ◌<◌, ◌≤◌, ◌↔◌, ℕ, All, List, [], IsTrue, Some, false, get_or, length};
ghost use Rattle.role_meaning.specs.Depths.{IsDepth};
ghost use Rattle.role_meaning.specs.Fits.{Fits};
ghost use Rattle.role_meaning.specs.Links.{HasRoles, domain_of, role_of, user_of};
ghost use Rattle.role_domain.specs.Helps.Walks.{Enters, Extends, GoesOn, HasTop, IsDistance, IsMarked, IsNext, IsRoleAt, inner, walk_of};

use crate::rows::domain_of;
use crate::terms::Terms;
use perm_base::Rule;
use role_meaning::fits;

/// The greatest number of rows.
const MOST: usize = 64;

/// Which rows are marked, by their places.
type Marks = [bool; MOST];

/// The least number of links, up to `most`, by which one name reaches the other in the domain of a
/// text. It takes no memory.
pub(crate) fn distance(
    terms: Terms,
    rows: &[Rule],
    text: &[u8],
    x: &[u8],
    y: &[u8],
    most: u8,
) -> Option<u8>
    requires few { length rows.now ≤ 64 }
    requires columns { All (λ row. 2 ≤ length row) rows.now }
    requires most { most ≤ 254 }
    ensures { IsDistance (walk_of terms rows.now text.now) x.now y.now most result }
{
    if x == y {
        return Some(0);
    }
    let mut reached = [false; MOST];
    let mut fresh = [false; MOST];
    enter(terms, rows, text, x, &mut reached, &mut fresh);
    for level in 0..most {
        if !has_some(&fresh) {
            return None;
        }
        if has_role(rows, y, &fresh) {
            return Some(level + 1);
        }
        fresh = step(terms, rows, text, &fresh, &mut reached);
    }
    None
}

/// The least number of links, up to `most`, by which a name reaches one without roles in the domain
/// of a text, and one more than `most` where it reaches none. It takes no memory.
pub(crate) fn depth(terms: Terms, rows: &[Rule], text: &[u8], x: &[u8], most: u8) -> u8
    requires few { length rows.now ≤ 64 }
    requires columns { All (λ row. 2 ≤ length row) rows.now }
    requires most { most ≤ 254 }
    ensures { IsDepth (inner terms) rows.now most (Some text.now) x.now result }
{
    if !has_roles(terms, rows, text, x) {
        return 0;
    }
    let mut reached = [false; MOST];
    let mut fresh = [false; MOST];
    enter(terms, rows, text, x, &mut reached, &mut fresh);
    for level in 0..most {
        if !has_some(&fresh) {
            return most + 1;
        }
        if has_top(terms, rows, text, &fresh) {
            return level + 1;
        }
        fresh = step(terms, rows, text, &fresh, &mut reached);
    }
    most + 1
}

/// Whether a name fits the user of a row that counts in the domain of a text. It takes no memory.
pub(crate) fn has_roles(terms: Terms, rows: &[Rule], text: &[u8], name: &[u8]) -> bool
    requires { All (λ row. 2 ≤ length row) rows.now }
    ensures { IsTrue result ↔ HasRoles (inner terms) rows.now (Some text.now) name.now }
{
    rows.iter().any(|row| enters(terms, row, text, name))
}

// Whether a name fits the user of a row, which counts in the domain of a text.
fn enters(terms: Terms, row: &Rule, text: &[u8], name: &[u8]) -> bool
    requires { 2 ≤ length row.now }
    ensures { IsTrue result ↔ (Fits terms.names name.now (user_of row.now)
        × Fits terms.domains text.now (domain_of row.now)) }
{
    fits(terms.names, name, row.field(0)) && fits(terms.domains, text, domain_of(row))
}

// Marks the rows that a name enters, and notes as new those that were not marked.
fn enter(
    terms: Terms,
    rows: &[Rule],
    text: &[u8],
    name: &[u8],
    reached: &mut Marks,
    fresh: &mut Marks,
)
    requires few { length rows.now ≤ 64 }
    requires columns { All (λ row. 2 ≤ length row) rows.now }
    ensures marked { let walk = walk_of terms rows.now text.now in (at : ℕ)
        → Enters walk name.now at → IsMarked reached.new at }
    ensures marks { let walk = walk_of terms rows.now text.now in
        Extends (λ at. Enters walk name.now at) reached.old fresh.old reached.new fresh.new }
{
    for (at, row) in rows.iter().enumerate() {
        if reached[at] {
            continue;
        }
        if !enters(terms, row, text, name) {
            continue;
        }
        reached[at] = true;
        fresh[at] = true;
    }
}

// Goes one link on from rows, and tells which were not reached before.
fn step(terms: Terms, rows: &[Rule], text: &[u8], from: &Marks, reached: &mut Marks) -> Marks
    requires few { length rows.now ≤ 64 }
    requires columns { All (λ row. 2 ≤ length row) rows.now }
    ensures marked { let walk = walk_of terms rows.now text.now in
        (place at : ℕ) (role : List ℕ) → IsMarked from.now place → IsRoleAt walk role place
        → Enters walk role at → IsMarked reached.new at }
    ensures marks { let walk = walk_of terms rows.now text.now in
        IsNext (λ at. GoesOn walk from.now at) reached.old reached.new result }
{
    let mut fresh = [false; MOST];
    for (at, row) in rows.iter().enumerate() {
        if !from[at] {
            continue;
        }
        enter(terms, rows, text, row.field(1), reached, &mut fresh);
    }
    fresh
}

// Whether a name is the role of a marked row.
fn has_role(rows: &[Rule], name: &[u8], marks: &Marks) -> bool
    requires few { length rows.now ≤ 64 }
    requires columns { All (λ row. 2 ≤ length row) rows.now }
    ensures { IsTrue result ↔ ((at : ℕ) × (at < length rows.now) × IsMarked marks.now at
        × (role_of (get_or rows.now at []) ≡ name.now)) }
{
    for (at, row) in rows.iter().enumerate() {
        if !marks[at] {
            continue;
        }
        if row.field(1) == name {
            return true;
        }
    }
    false
}

// Whether the role of a marked row has no roles.
fn has_top(terms: Terms, rows: &[Rule], text: &[u8], marks: &Marks) -> bool
    requires few { length rows.now ≤ 64 }
    requires columns { All (λ row. 2 ≤ length row) rows.now }
    ensures { IsTrue result ↔ HasTop (walk_of terms rows.now text.now) marks.now }
{
    for (at, row) in rows.iter().enumerate() {
        if !marks[at] {
            continue;
        }
        if !has_roles(terms, rows, text, row.field(1)) {
            return true;
        }
    }
    false
}

// Whether some row is marked.
fn has_some(marks: &Marks) -> bool
    ensures { result ≡ false → (at : ℕ) → IsMarked marks.now at → ⊥ }
{
    marks.iter().any(|mark| *mark)
}
