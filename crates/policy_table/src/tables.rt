ghost use Rattle.std.specs.Prelude.{◌≡◌, ℕ, ◌+◌, ◌<◌, ◌≤◌, ◌^◌, [], ◌∷◌, IfOk, IsSome, List, OnErr, OnOk, Some, false, filter, if◌then◌else◌, get_or, length, not, position, replicate, slice_get, true};
ghost use Rattle.std.specs.List.{IsDistinct, count_by};
ghost use Rattle.std.specs.Option.{option_copied};
ghost use Rattle.std.specs.Str.{bytes_eq};
ghost use Rattle.perm_base.specs.Patterns.{is_pattern};
ghost use Rattle.perm_base.specs.declared.shapes.TableId.TheVariants as table;
ghost use Rattle.policy_table.specs.Changes.{applies, changed, edited, flat, is_possible, ranked_policy};
ghost use Rattle.policy_table.specs.Held.{HasRoom, IsPreparedFor};
ghost use Rattle.policy_table.specs.Helps.Rows.{counted_of, counting, lists_of, slots_of, spare_of};
ghost use Rattle.policy_table.specs.Limits.{different, domains_of};
ghost use Rattle.policy_table.specs.Slots.{AreSlots, slots, slots_changed, slots_edited};
ghost use Rattle.policy_table.specs.Tables.{AreLists, IsKept, Policy, is_ranked, most_tables, place, rows, same, stands, without_rules};
ghost use Rattle.policy_table.specs.declared.change.Change.{Change};

use crate::change::{Change, Edit};
use crate::counted_table::CountedTable;
use crate::prepared::{PreparedTables, TableStep};
use crate::rows::Rows;
use outside::{NoMemory, Share, Text};
use perm_base::{Fit, Rule, TableId};
use std::alloc::Global;
use std::marker::Model;

const TABLES: usize = 9;

/// The tables of a policy: for p and for each of the relations g to g8 an ordered list of rules without repeats, fewer
/// than 2^32. p may be ranked: then its rules stand in rising order of rank, the number of their first field, and a rule
/// whose first field is no number ranks behind every number. Each rule is kept in a slot, a number below that of the
/// rules, which stays whatever happens to other rules, but for one case: where a rule is taken out, that of the last slot
/// comes into its slot. Contracts see the lists, the mark, the room of each, and the rules by their slots. A change costs
/// about a block of 512 rows and the number of blocks, and finds the place of a rank by halving.
pub struct Tables {
    // That of p, then those of g to g8.
    tables: [CountedTable; TABLES],
    // Whether p is ranked.
    ranked: bool,
}

// Written out, so that a caller's proof sees one call and not the drop of each field.
impl Drop for Tables {
    fn drop(self) {
        let Tables {
            tables: _tables,
            ranked: _ranked,
        } = self;
    }
}

impl Model for Tables {
    ghost use Rattle.policy_table.specs.Held.{Held};
    ghost use Rattle.policy_table.specs.Helps.Rows.{AreTables, held_of};

    ghost Value = { Held };

    ghost view = { λ t. held_of t.ranked t.tables };

    ghost invariant = { λ t. AreTables t.ranked t.tables };
}

/// Tables without rules, and p is not ranked.
pub fn no_tables(alloc: Global) -> Tables
    ensures rows { (table : TableId) → rows result.policy table ≡ [] }
    ensures unranked { result.policy.ranked ≡ false }
    ensures policy { result.policy ≡ without_rules false }
{
    Tables {
        tables: empty(alloc),
        ranked: false,
    }
}

/// Tables without rules, and p is ranked.
pub fn ranked_tables(alloc: Global) -> Tables
    ensures rows { (table : TableId) → rows result.policy table ≡ [] }
    ensures ranked { result.policy.ranked ≡ true }
    ensures policy { result.policy ≡ without_rules true }
{
    Tables {
        tables: empty(alloc),
        ranked: true,
    }
}

impl Tables {
    /// Whether p is ranked.
    pub fn is_ranked(&self) -> bool
        ensures { result ≡ self.now.policy.ranked }
    {
        self.ranked
    }

    /// Whether a rule stands in a table.
    pub fn has(&self, table: TableId, rule: &Rule) -> bool
        ensures { result ≡ stands rule.now (rows self.now.policy table) }
    {
        match place(table) {
            Some(at) => self.tables[at].has(rule),
            None => false,
        }
    }

    /// What the tables keep: there are nine of them, each of fewer than 2^32 rules, no rule stands twice in one, and a
    /// ranked p stands in rising order of rank.
    pub fn kept(&self)
        ensures { IsKept self.now.policy }
    {
        let _tables = &self.tables;
    }

    /// How many rules a table has.
    pub fn len(&self, table: TableId) -> u32
        ensures value { result ≡ length (rows self.now.policy table) }
        ensures kept { AreLists self.now.policy.lists }
    {
        let tables = &self.tables;
        match place(table) {
            Some(at) => tables[at].len(),
            None => 0,
        }
    }

    /// The rule of a table at a place, counted from 0, where there is one. It is found by halving; to go over all rules,
    /// `rows` is for.
    pub fn get(&self, table: TableId, at: u32) -> Option<&Rule>
        ensures { option_copied result ≡ slice_get (rows self.now.policy table) at }
    {
        if at >= self.len(table) {
            return None;
        }
        Some(self.row(table, at))
    }

    /// The rule of a table at a place, counted from 0. It is found by halving.
    pub fn row(&self, table: TableId, at: u32) -> &Rule
        requires { at < length (rows self.now.policy table) }
        ensures { slice_get (rows self.now.policy table) at ≡ Some result.now }
    {
        let Some(there) = place(table) else {
            unreachable!()
        };
        self.tables[there].row(at)
    }

    /// The rules of a table in their order, none of them twice. To go over all of them costs about two steps for each rule
    /// that the table has room for at most.
    pub fn rows(&self, table: TableId) -> Rows<'_>
        ensures value { result ≡ rows self.now.policy table }
        ensures once { IsDistinct same (rows self.now.policy table) }
        ensures few { length (rows self.now.policy table) < 2 ^ 32 }
    {
        match place(table) {
            Some(at) => self.tables[at].rows(),
            None => Rows::none(),
        }
    }

    /// The place of a rule in its table, counted from 0, where it stands. Its time does not grow with the table.
    pub fn number_of(&self, table: TableId, rule: &Rule) -> Option<u32>
        ensures { result ≡ position (same rule.now) (rows self.now.policy table) }
    {
        match place(table) {
            Some(at) => self.tables[at].number_of(rule),
            None => None,
        }
    }

    /// The rules of a table by their slots, in no order of theirs: each rule of the table has one slot.
    pub fn by_slot(&self, table: TableId) -> &[Rule]
        ensures value { result.now ≡ slots self.now table }
        ensures stand { AreSlots (slots self.now table) (rows self.now.policy table) }
        ensures few { length (slots self.now table) < 2 ^ 32 }
        ensures nine { length self.now.slots ≡ most_tables }
    {
        match place(table) {
            Some(at) => self.tables[at].by_slot(),
            None => &[],
        }
    }

    /// The slot of a rule, where it stands. Its time does not grow with the table.
    pub fn slot_of(&self, table: TableId, rule: &Rule) -> Option<u32>
        ensures { result ≡ position (same rule.now) (slots self.now table) }
    {
        match place(table) {
            Some(at) => self.tables[at].slot_of(rule),
            None => None,
        }
    }

    /// The place of the rule in a slot, counted from 0. Its time does not grow with the table.
    pub fn place_of_slot(&self, table: TableId, slot: u32) -> u32
        requires { slot < length (slots self.now table) }
        ensures within { result < length (rows self.now.policy table) }
        ensures same { slice_get (rows self.now.policy table) result
            ≡ slice_get (slots self.now table) slot }
    {
        let Some(there) = place(table) else {
            unreachable!()
        };
        self.tables[there].place_of_slot(slot)
    }

    /// The slot of the rule at a place, counted from 0. It is found by halving.
    pub fn slot_at(&self, table: TableId, at: u32) -> u32
        requires { at < length (rows self.now.policy table) }
        ensures within { result < length (slots self.now table) }
        ensures same { slice_get (slots self.now table) result
            ≡ slice_get (rows self.now.policy table) at }
    {
        let Some(there) = place(table) else {
            unreachable!()
        };
        self.tables[there].slot_at(at)
    }

    /// How many rules of a relation have a domain that is a pattern.
    pub(crate) fn patterns(&self, number: u8, fit: Fit) -> u64
        ensures value { result ≡ length (filter (is_pattern fit)
            (domains_of (rows self.now.policy (table.G number)))) }
        ensures few { result < 2 ^ 32 }
    {
        match place(TableId::G(number)) {
            Some(at) => self.tables[at].patterns(fit),
            None => 0,
        }
    }

    /// How many different domains the rules of a relation have.
    pub(crate) fn domains(&self, number: u8) -> u64
        ensures value { result
            ≡ length (different (domains_of (rows self.now.policy (table.G number)))) }
        ensures few { result < 2 ^ 32 }
    {
        match place(TableId::G(number)) {
            Some(at) => self.tables[at].domains(),
            None => 0,
        }
    }

    /// How many rules of a relation have a domain.
    pub(crate) fn domain_count(&self, number: u8, domain: &Text) -> u64
        ensures { result ≡ count_by (bytes_eq domain.now)
            (domains_of (rows self.now.policy (table.G number))) }
    {
        match place(TableId::G(number)) {
            Some(at) => self.tables[at].count(domain),
            None => 0,
        }
    }

    /// Whether a change can be made in these tables: an inserted rule and a new one are absent, a removed rule and an old
    /// one stand, and its table is p or one of g to g8.
    pub fn allows(&self, change: &Change) -> bool
        ensures { result ≡ is_possible change.now self.now.policy }
    {
        let Some(at) = place(change.table()) else {
            return false;
        };
        let table = &self.tables[at];
        match change {
            Change::Insert { rule, .. } => !table.has(rule),
            Change::Remove { rule, .. } => table.has(rule),
            Change::Replace { old, new, .. } => table.has(old) && !table.has(new),
        }
    }

    /// Puts a rule behind the others of its table, in a ranked p behind the last whose rank is not above its own, unless
    /// it stands there already; whether it did so. Where memory runs out the rules are as before, and the rule is dropped.
    pub fn insert(&mut self, table: TableId, rule: Rule) -> Result<bool, NoMemory>
        requires table { IsSome (place table) }
        requires few { length (rows self.old.policy table) + 1 < 2 ^ 32 }
        ensures inserted { IfOk result (λ new.
            new ≡ not (stands rule (rows self.old.policy table))) }
        ensures policy { IfOk result (λ new. self.new.policy
            ≡ (if new then changed (Change.Insert table rule) self.old.policy
            else self.old.policy)) }
        ensures refused { OnErr result (self.new.policy ≡ self.old.policy) }
    {
        let Some(at) = place(table) else {
            return Ok(false);
        };
        let ranked = is_ranked(self.ranked, table);
        self.tables[at].insert(ranked, rule)
    }

    /// Makes edits ready, so that `commit` needs no memory. The rules are as before, whatever the answer, and edits that
    /// were prepared before stay so.
    pub fn prepare(&mut self, alloc: Global, edits: &[Edit]) -> Result<PreparedTables, NoMemory>
        requires possible { applies (flat edits.now) self.old.policy ≡ true }
        requires few { AreLists (edited (flat edits.now) self.old.policy).lists }
        ensures unchanged { self.new.policy ≡ self.old.policy }
        ensures slots { self.new.slots ≡ self.old.slots }
        ensures edits { IfOk result (λ prepared. prepared ≡ flat edits.now) }
        ensures ready { IfOk result (IsPreparedFor self.new) }
        ensures stays { (changes : List Change)
            → IsPreparedFor self.old changes → IsPreparedFor self.new changes }
    {
        let prepared = PreparedTables::of_edits(alloc, edits)?;
        reserve(&mut self.tables, &prepared)?;
        Ok(prepared)
    }

    /// Makes the edits that were prepared for these tables as they stand. It takes no memory. A caller that keeps slots
    /// takes the edits apart by `into_steps` and follows each step, before `make` makes it.
    pub fn commit(&mut self, prepared: PreparedTables)
        requires { IsPreparedFor self.old prepared }
        ensures policy { self.new.policy ≡ edited prepared self.old.policy }
        ensures slots { self.new.slots ≡ slots_edited prepared self.old.slots }
    {
        for step in prepared.into_steps() {
            self.make(step);
        }
    }

    /// Makes one step, the first of changes that were prepared for these tables as they stand; the others are prepared for
    /// them afterwards. It takes no memory. Which slots it moves is told by `slots_changed`: it puts a rule into the next
    /// slot, or the rule of the last slot into that of the rule that it takes out, or a new rule into that of the old one.
    pub fn make(&mut self, step: TableStep)
        requires { (changes : List Change) × IsPreparedFor self.old (step ∷ changes) }
        ensures policy { self.new.policy ≡ changed step self.old.policy }
        ensures slots { self.new.slots ≡ slots_changed step self.old.slots }
        ensures ready { (changes : List Change)
            → IsPreparedFor self.old (step ∷ changes) → IsPreparedFor self.new changes }
    {
        let table = step.table();
        let Some(at) = place(table) else {
            unreachable!()
        };
        let ranked = is_ranked(self.ranked, table);
        self.tables[at].make(ranked, step);
    }

    /// The same tables with p ranked: its rules are put into rising order of rank, those of one rank in the order in which
    /// they stand. It sorts once, and takes memory for that; where rules of p do not stand in the order of their slots, it
    /// copies them first.
    pub fn ranked(self) -> Result<Tables, NoMemory>
        ensures { IfOk result (λ tables. tables.policy ≡ ranked_policy self.policy) }
    {
        let Tables {
            mut tables,
            ranked: _ranked,
        } = self;
        tables[0].rank()?;
        let ranked = true;
        Ok(Tables { tables, ranked })
    }

    /// The same rules once more, in the same slots.
    pub fn copy(&self, alloc: Global) -> Result<Tables, NoMemory>
        ensures policy { IfOk result (λ copy. copy.policy ≡ self.now.policy) }
        ensures slots { IfOk result (λ copy. copy.slots ≡ self.now.slots) }
    {
        let mut tables = empty(alloc);
        for at in 0..TABLES {
            tables[at] = self.tables[at].copy(alloc)?;
        }
        let ranked = self.ranked;
        Ok(Tables { tables, ranked })
    }
}

impl Share for Tables {}

/// The place of a table among the nine.
pub(crate) fn place(table: TableId) -> Option<usize>
    ensures { result ≡ place table }
{
    match table {
        TableId::P => Some(0),
        TableId::G(number) => {
            let at = usize::from(number);
            if 0 < at && at < TABLES {
                Some(at)
            } else {
                None
            }
        }
    }
}

// Nine tables without rules.
fn empty(alloc: Global) -> [CountedTable; TABLES]
    ensures rules { lists_of result ≡ replicate most_tables [] }
    ensures counted { counted_of result ≡ counting }
{
    [
        CountedTable::new(alloc, false),
        CountedTable::new(alloc, true),
        CountedTable::new(alloc, true),
        CountedTable::new(alloc, true),
        CountedTable::new(alloc, true),
        CountedTable::new(alloc, true),
        CountedTable::new(alloc, true),
        CountedTable::new(alloc, true),
        CountedTable::new(alloc, true),
    ]
}

// Whether a table is ranked, where p has this mark.
fn is_ranked(ranked: bool, table: TableId) -> bool
    ensures { (policy : Policy) → ranked ≡ policy.ranked → result ≡ is_ranked policy table }
{
    match table {
        TableId::P => ranked,
        TableId::G(_) => false,
    }
}

// Makes the room that the changes need.
fn reserve(tables: &mut [CountedTable; TABLES], prepared: &PreparedTables) -> Result<(), NoMemory>
    ensures unchanged { lists_of tables.new ≡ lists_of tables.old }
    ensures slots { slots_of tables.new ≡ slots_of tables.old }
    ensures counted { counted_of tables.new ≡ counted_of tables.old }
    ensures room { OnOk result (HasRoom (spare_of tables.new) prepared.now) }
    ensures more { (at : ℕ) → get_or (spare_of tables.old) at 0
        ≤ get_or (spare_of tables.new) at 0 }
{
    for at in 0..TABLES {
        tables[at].reserve(prepared.needed(at))?;
    }
    Ok(())
}
