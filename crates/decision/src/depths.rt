ghost use Rattle.std.specs.Prelude.{◌≡◌, ◌<◌, [], All, IfSome, Some, get_or, option_copied, true};
ghost use Rattle.perm_base.specs.RoleShapes.{shape_of};
ghost use Rattle.perm_base.specs.declared.shapes.RoleShape.{RoleShape};
ghost use Rattle.perm_base.specs.declared.shapes.TableId.TheVariants.{G};
ghost use Rattle.policy_state.specs.Asked.{IsAskedOf};
ghost use Rattle.policy_state.specs.States.{tables};
ghost use Rattle.policy_table.specs.Tables.{rows};
ghost use Rattle.role_meaning.specs.Depths.{IsDepth};
ghost use Rattle.matcher_meaning.specs.Order.{domain_of_row};
ghost use Rattle.decision.specs.Helps.Asked.{IsAsked, case_in};
ghost use Rattle.decision.specs.Helps.Firsts.{IsDepthOf, IsKnownIn};

use crate::asking::Asking;
use perm_base::{RoleShape, Rule};
use policy_index::{hash_with, start_hash};
use policy_state::PolicyState;
use role_domain::Steps;
use std::marker::Brand;
use std::sync::ledger::{Blank, Ledger};
use subject_rank::depth;

/// The number of the relation `g`, by which subjects are deep.
const HIERARCHY: u8 = 1;

/// How many depths are known at a time.
pub(crate) const PLACES: usize = 128;

/// A depth that is known: that of a subject in a domain, or without one.
#[derive(Clone, Copy)]
pub(crate) struct Known<'a> {
    pub(crate) subject: &'a [u8],
    pub(crate) domain: Option<&'a [u8]>,
    pub(crate) depth: u8,
}

/// Depths that are known, each at a place from that of its subject's hash on.
pub(crate) type Depths<'a> = [Option<Known<'a>>; PLACES];

/// The depth of a row: that of its subject in the row's own domain. It is worked out once for each such pair, where there
/// are no more pairs than places.
pub(crate) fn depth_of<'a>(asking: &Asking<'a>, row: &'a Rule, depths: &mut Depths<'a>) -> u8
    requires asked { IsAsked asking.now }
    requires known { All (λ one. IfSome one (IsKnownIn (case_in asking.now))) depths.old }
    ensures depth { IsDepthOf (case_in asking.now) row.now result }
    ensures known { All (λ one. IfSome one (IsKnownIn (case_in asking.now))) depths.new }
{
    let shapes = asking.state.shapes();
    let Some(shape) = shapes.roles.find(HIERARCHY) else {
        return 0;
    };
    let subject = field_or_empty(row, shapes.subject_column);
    let domain = domain_of_row(asking, shape, row);
    let at = place_of(depths, subject, domain);
    if let Some(known) = known_at(asking, depths, at) {
        if is_of(known, subject, domain) {
            return known.depth;
        }
    }
    let depth = depth_in::<Brand>(asking.state, subject, domain, Blank::new(1));
    depths[at] = Some(Known {
        subject,
        domain,
        depth,
    });
    depth
}

// The place of the depth of a subject in a domain: where it is known, or else the first that is free from that of the
// subject's hash on, or that one, where all are taken by others.
fn place_of(depths: &Depths<'_>, subject: &[u8], domain: Option<&[u8]>) -> usize
    ensures { result < 128 }
{
    let first = (hash_with(start_hash(), subject) % PLACES as u64) as usize;
    for step in 0..PLACES {
        let at = (first + step) % PLACES;
        let Some(known) = depths[at] else {
            return at;
        };
        if is_of(known, subject, domain) {
            return at;
        }
    }
    first
}

// What is known at a place.
fn known_at<'a>(_asking: &Asking<'a>, depths: &Depths<'a>, at: usize) -> Option<Known<'a>>
    requires known { All (λ one. IfSome one (IsKnownIn (case_in _asking.now))) depths.now }
    requires at { at < 128 }
    ensures { IfSome result (IsKnownIn (case_in _asking.now)) }
{
    depths[at]
}

// Whether a known depth is that of this subject in this domain.
fn is_of(known: Known, subject: &[u8], domain: Option<&[u8]>) -> bool
    ensures subject { result ≡ true → known.entry.subject.now ≡ subject.now }
    ensures domain { result ≡ true
        → option_copied known.entry.domain ≡ option_copied domain.entry }
{
    if known.subject != subject {
        return false;
    }
    match (known.domain, domain) {
        (Some(one), Some(other)) => one == other,
        (None, None) => true,
        (Some(_), None) | (None, Some(_)) => false,
    }
}

// The domain of a row, where the relation has domains: its field in the column `dom`.
fn domain_of_row<'a>(asking: &Asking<'a>, shape: RoleShape, row: &'a Rule) -> Option<&'a [u8]>
    requires { IsAsked asking.now }
    ensures { option_copied result ≡ domain_of_row (case_in asking.now) shape row.now }
{
    if !shape.with_domain {
        return None;
    }
    match asking.domain_place {
        Some(at) => Some(field_or_empty(row, at)),
        None => Some(b""),
    }
}

// The field at a place, or the empty text behind the last.
fn field_or_empty(row: &Rule, at: u32) -> &[u8]
    ensures { result.now ≡ get_or row.now at [] }
{
    if at < row.len() { row.field(at) } else { b"" }
}

// The depth of a subject in a domain; the steps are counted from nothing.
fn depth_in<L: Ledger>(
    state: &PolicyState,
    subject: &[u8],
    domain: Option<&[u8]>,
    blank: Blank,
) -> u8
    requires asked { IsAskedOf state.now.shapes HIERARCHY (option_copied domain) }
    requires name { blank.name ≡ L.name }
    requires parts { blank.parts ≡ L.parts }
    requires some { 0 < L.parts }
    ensures { (shape : RoleShape) → shape_of state.now.shapes.roles HIERARCHY ≡ Some shape
        → IsDepth shape (rows (tables state.now) (G HIERARCHY)) state.now.shapes.limit
        (option_copied domain.entry) subject.now result }
{
    let mut steps = Steps::<L>::new(blank);
    depth(state.section(HIERARCHY), subject, domain, &mut steps)
}
