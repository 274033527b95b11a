ghost use Rattle.std.specs.Prelude.{◌≡◌, ◌<◌, ◌^◌, IfOk, length, true};
ghost use Rattle.std.specs.List.{count_by};
ghost use Rattle.std.specs.Map.{keys_of};
ghost use Rattle.perm_base.specs.declared.shapes.TableId.TheVariants as table;
ghost use Rattle.policy_table.specs.Changes.{applies, edited};
ghost use Rattle.policy_table.specs.Helps.Counts.{pairs_of, patterns_of};
ghost use Rattle.policy_table.specs.Helps.Moves.{is_gone, is_new};
ghost use Rattle.policy_table.specs.Limits.{domain_pairs, domains_of, pattern_rows};
ghost use Rattle.policy_table.specs.Tables.{AreLists, rows};

use crate::change::Edit;
use crate::domains::Domains;
use crate::moved::{Way, moved_domains};
use crate::tables::Tables;
use outside::{NoMemory, Text};
use perm_base::{RoleShape, Shapes, TableId};
use std::alloc::Global;

/// What the limits need of a relation's domains.
#[derive(Clone, Copy)]
pub(crate) struct DomainCounts {
    pub(crate) patterns: u64,
    pub(crate) pairs: u64,
}

/// The counts of all relations' domains after an edit. It takes memory for the domains of the edit.
pub(crate) fn counts_after(
    alloc: Global,
    edit: &Edit,
    tables: &Tables,
    shapes: &Shapes,
) -> Result<DomainCounts, NoMemory>
    requires possible { applies edit.now tables.now.policy ≡ true }
    requires few { AreLists (edited edit.now tables.now.policy).lists }
    ensures patterns { IfOk result (λ counts. counts.patterns
        ≡ pattern_rows shapes.now (edited edit.now tables.now.policy)) }
    ensures pairs { IfOk result (λ counts. counts.pairs
        ≡ domain_pairs shapes.now (edited edit.now tables.now.policy)) }
{
    let (mut patterns, mut pairs) = (0, 0);
    for shape in shapes.roles.as_slice() {
        let counts = relation_after(alloc, edit, tables, *shape)?;
        patterns += counts.patterns;
        pairs += counts.pairs;
    }
    Ok(DomainCounts { patterns, pairs })
}

// The counts of a relation's domains after an edit.
fn relation_after(
    alloc: Global,
    edit: &Edit,
    tables: &Tables,
    shape: RoleShape,
) -> Result<DomainCounts, NoMemory>
    requires possible { applies edit.now tables.now.policy ≡ true }
    requires few { AreLists (edited edit.now tables.now.policy).lists }
    ensures patterns { IfOk result (λ counts. counts.patterns
        ≡ patterns_of (edited edit.now tables.now.policy) shape) }
    ensures pairs { IfOk result (λ counts. counts.pairs
        ≡ pairs_of (edited edit.now tables.now.policy) shape) }
    ensures few_patterns { IfOk result (λ counts. counts.patterns < 2 ^ 32) }
    ensures few_pairs { IfOk result (λ counts. counts.pairs < 2 ^ 32) }
{
    if !shape.with_domain {
        return Ok(DomainCounts {
            patterns: 0,
            pairs: 0,
        });
    }
    tables.kept();
    let (number, fit) = (shape.number, shape.domains);
    let changes = edit.as_slice();
    let put = moved_domains(alloc, changes, Way::In, TableId::G(number))?;
    let taken = moved_domains(alloc, changes, Way::Out, TableId::G(number))?;
    put.kept();
    taken.kept();
    let patterns = tables.patterns(number, fit) + put.patterns(fit) - taken.patterns(fit);
    let pairs = tables.domains(number) + new_domains(tables, number, &put, &taken)
        - gone_domains(tables, number, &put, &taken);
    Ok(DomainCounts { patterns, pairs })
}

// How many domains are new in a relation with those that are put in and taken out.
fn new_domains(tables: &Tables, number: u8, put: &Domains, taken: &Domains) -> u64
    ensures value { result
        ≡ count_by (is_new (domains_of (rows tables.now.policy (table.G number))) put.now taken.now)
        (keys_of put.now.entries) }
    ensures few { result < 2 ^ 63 }
{
    let mut count = 0;
    for text in put.texts() {
        count += u64::from(is_new(tables, number, put, taken, text));
    }
    count
}

// How many are gone.
fn gone_domains(tables: &Tables, number: u8, put: &Domains, taken: &Domains) -> u64
    ensures { result
        ≡ count_by (is_gone (domains_of (rows tables.now.policy (table.G number))) put.now taken.now)
        (keys_of taken.now.entries) }
{
    let mut count = 0;
    for text in taken.texts() {
        count += u64::from(is_gone(tables, number, put, taken, text));
    }
    count
}

fn is_new(tables: &Tables, number: u8, put: &Domains, taken: &Domains, text: &Text) -> bool
    ensures { result
        ≡ is_new (domains_of (rows tables.now.policy (table.G number))) put.now taken.now text.now }
{
    tables.domain_count(number, text) == 0 && taken.count(text) < put.count(text)
}

fn is_gone(tables: &Tables, number: u8, put: &Domains, taken: &Domains, text: &Text) -> bool
    ensures { result
        ≡ is_gone (domains_of (rows tables.now.policy (table.G number))) put.now taken.now text.now }
{
    let before = tables.domain_count(number, text);
    let gone = taken.count(text);
    0 < before && gone >= before && gone - before == put.count(text)
}
