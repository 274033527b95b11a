//! How far the listed roles of a user are.

ghost use Rattle.std.specs.Prelude.{◌≡◌, ◌+◌, ◌<◌, ◌≤◌, List, [], get_or, is_some, length};
ghost use Rattle.std.specs.Option.{option_copied};
ghost use Rattle.policy_table.specs.Tables.{Fields};
ghost use Rattle.role_domain.specs.Sections.{IsSectionOf};
ghost use Rattle.role_meaning.specs.Distances.{IsFar};
ghost use Rattle.rbac_query.specs.Helps.Entries.{user_in};
ghost use Rattle.rbac_query.specs.Helps.Runs.{AreAsFar, AreInOrder};
ghost use Rattle.rbac_query.specs.Report.{asked};

use outside::Text;
use perm_base::RoleShape;
use role_domain::{RoleSection, Steps};
use std::marker::Brand;
use std::sync::ledger::{Blank, Ledger};

/// Roles that are listed one behind the other and are as far: by how many links, and up to which place.
#[derive(Clone, Copy)]
pub(crate) struct Run {
    pub(crate) links: u8,
    pub(crate) end: usize,
}

/// The run of the listed role at a place: the one so far, where the place is within it. Where the nearer roles are listed
/// first, few of them are asked for.
pub(crate) fn run_at(
    section: &RoleSection,
    user: &str,
    domain: &str,
    names: &[Text],
    at: usize,
    run: Run,
) -> Run
    requires { at < length names.now }
    ensures end { at < result.end }
    ensures far { (rows : List Fields) → IsSectionOf section.now rows
        → AreInOrder section.now.shape rows (user_in user.now domain.now) names.now
        → AreAsFar section.now.shape rows (user_in user.now domain.now) names.now at
        run.end run.links
        → AreAsFar section.now.shape rows (user_in user.now domain.now) names.now at
        result.end result.links }
{
    let so_far = run.end;
    if at < so_far {
        return run;
    }
    let before = run.links;
    let links = links_at(section, user, domain, names, at);
    if links != before {
        return Run { links, end: at + 1 };
    }
    let end = end_of(section, user, domain, names, at, links);
    Run { links, end }
}

// Up to which place the listed roles from a place on are as far as the one there: those of one distance rise by bytes, so
// the last that does is asked first.
fn end_of(
    section: &RoleSection,
    user: &str,
    domain: &str,
    names: &[Text],
    at: usize,
    links: u8,
) -> usize
    requires { at < length names.now }
    ensures end { at < result }
    ensures far { (rows : List Fields) → IsSectionOf section.now rows
        → AreInOrder section.now.shape rows (user_in user.now domain.now) names.now
        → IsFar section.now.shape rows (asked section.now.shape domain.now) user.now
        (get_or names.now at []) links
        → AreAsFar section.now.shape rows (user_in user.now domain.now) names.now at result
        links }
{
    let last = last_rising(names, at);
    if last == at {
        return at + 1;
    }
    let far = links_at(section, user, domain, names, last);
    if far == links {
        return last + 1;
    }
    end_between(section, user, domain, names, at, last, links)
}

// The last place up to which texts rise by bytes from a place on.
fn last_rising(texts: &[Text], from: usize) -> usize
    requires { from < length texts.now }
    ensures from { from ≤ result }
    ensures within { result < length texts.now }
{
    for at in from + 1..texts.len() {
        if !is_before(text_at(texts, at - 1), text_at(texts, at)) {
            return at - 1;
        }
    }
    texts.len() - 1
}

// Whether the one text comes before the other by bytes.
fn is_before(one: &[u8], other: &[u8]) -> bool {
    one.cmp(other).is_lt()
}

// The same where the one at a later place is farther. It is found by steps that double, and by halving.
fn end_between(
    section: &RoleSection,
    user: &str,
    domain: &str,
    names: &[Text],
    at: usize,
    farther: usize,
    links: u8,
) -> usize
    requires behind { at < farther }
    requires within { farther < length names.now }
    ensures end { at < result }
    ensures far { (rows : List Fields) → IsSectionOf section.now rows
        → AreInOrder section.now.shape rows (user_in user.now domain.now) names.now
        → IsFar section.now.shape rows (asked section.now.shape domain.now) user.now
        (get_or names.now at []) links
        → AreAsFar section.now.shape rows (user_in user.now domain.now) names.now at result
        links }
{
    let mut low = at;
    let mut high = farther;
    while high - low > 1 {
        let middle = tested_next(at, low, high);
        let far = links_at(section, user, domain, names, middle);
        if far == links {
            low = middle;
        } else {
            high = middle;
        }
    }
    low + 1
}

// The place that is tested next between two: as far behind the lower as that one is behind the first, but at most halfway.
fn tested_next(first: usize, low: usize, high: usize) -> usize
    requires first { first ≤ low }
    requires apart { low + 1 < high }
    ensures behind { low < result }
    ensures before { result < high }
{
    let known = low - first + 1;
    let half = (high - low) / 2;
    if known < half {
        return low + known;
    }
    low + half
}

// By how many links a user reaches the listed role at a place.
fn links_at(section: &RoleSection, user: &str, domain: &str, names: &[Text], at: usize) -> u8
    requires { at < length names.now }
    ensures { (rows : List Fields) → IsSectionOf section.now rows
        → IsFar section.now.shape rows (asked section.now.shape domain.now) user.now
        (get_or names.now at []) result }
{
    let asked = asked(section.shape(), domain);
    let role = text_at(names, at);
    far::<Brand>(section, user.as_bytes(), role, asked, Blank::new(1))
}

// How far the one name is from the other; the steps are counted from nothing.
fn far<L: Ledger>(
    section: &RoleSection,
    x: &[u8],
    y: &[u8],
    domain: Option<&[u8]>,
    blank: Blank,
) -> u8
    requires name { blank.name ≡ L.name }
    requires parts { blank.parts ≡ L.parts }
    requires some { 0 < L.parts }
    requires asked { is_some domain ≡ section.now.shape.with_domain }
    ensures { (rows : List Fields) → IsSectionOf section.now rows
        → IsFar section.now.shape rows (option_copied domain.entry) x.now y.now result }
{
    let mut steps = Steps::<L>::new(blank);
    section.far(x, y, domain, &mut steps)
}

// The text at a place.
fn text_at(texts: &[Text], at: usize) -> &[u8]
    requires { at < length texts.now }
    ensures { result.now ≡ get_or texts.now at [] }
{
    texts[at].bytes()
}

/// The domain that is asked for, where rows have one.
pub(crate) fn asked<'a>(shape: RoleShape, domain: &'a str) -> Option<&'a [u8]>
    ensures domain { option_copied result ≡ asked shape domain.now }
    ensures there { is_some result ≡ shape.with_domain }
{
    if shape.with_domain {
        Some(domain.as_bytes())
    } else {
        None
    }
}
