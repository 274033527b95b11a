ghost use Rattle.std.specs.Prelude.{◌≡◌, ◌+◌, ◌<◌, ◌≤◌, ◌^◌, [], ◌∷◌, ◌++◌, true, false, not, IfOk, OnErr, OnOk, Some, filter, if◌then◌else◌, length, position, slice_get};
ghost use Rattle.std.specs.List.{IsDistinct, count_by};
ghost use Rattle.std.specs.Str.{bytes_eq};
ghost use Rattle.perm_base.specs.Patterns.{is_pattern};
ghost use Rattle.indexmap.specs.IndexMap.{swap_remove_by};
ghost use Rattle.policy_table.specs.Changes.{by_rank, changed_rules, in_place, inserted, replaced, suits, without};
ghost use Rattle.policy_table.specs.Helps.Domains.{domain_of};
ghost use Rattle.policy_table.specs.Helps.Moves.{put_domain, puts};
ghost use Rattle.policy_table.specs.Helps.Rows.{RiseWhere};
ghost use Rattle.policy_table.specs.Limits.{different, domains_of};
ghost use Rattle.policy_table.specs.Slots.{AreSlots, slots_after};
ghost use Rattle.policy_table.specs.Tables.{same, stands};

use crate::change::Change;
use crate::domains::{Domains, domain_or};
use crate::prepared::TableStep;
use crate::rows::Rows;
use crate::table::Table;
use outside::{NoMemory, Text};
use perm_base::{Fit, Rule};
use std::alloc::Global;
use std::marker::Model;

/// The rules of one table, and of a relation the counts of their domains. Contracts see the rules, the room, and whether
/// domains are counted.
pub(crate) struct CountedTable {
    table: Table,
    // Those of the rules, where they are counted, and else none.
    domains: Domains,
    counted: bool,
}

// Written out, so that a caller's proof sees one call and not the drop of each field.
impl Drop for CountedTable {
    fn drop(self) {
        let CountedTable {
            table: _table,
            domains: _domains,
            counted: _counted,
        } = self;
    }
}

impl Model for CountedTable {
    ghost use Rattle.policy_table.specs.Helps.Rows.{CountsRules, Rows, room_of};

    ghost Value = { Rows };

    ghost view = { λ t. record {
      rules = t.table.rules;
      slots = t.table.slots;
      spare = room_of t.counted t.table.spare t.domains.spare;
      counted = t.counted;
    } };

    ghost invariant = { λ t. CountsRules t.counted t.table.rules t.domains };
}

impl CountedTable {
    pub(crate) fn new(alloc: Global, counted: bool) -> CountedTable
        ensures rules { result.rules ≡ [] }
        ensures slots { result.slots ≡ [] }
        ensures counted { result.counted ≡ counted }
    {
        CountedTable {
            table: Table::new(alloc),
            domains: Domains::new(alloc),
            counted,
        }
    }

    /// The rules in their order.
    pub(crate) fn rows(&self) -> Rows<'_>
        ensures value { result ≡ self.now.rules }
        ensures once { IsDistinct same self.now.rules }
        ensures few { length self.now.rules < 2 ^ 32 }
    {
        self.table.rows()
    }

    /// The rules by their slots.
    pub(crate) fn by_slot(&self) -> &[Rule]
        ensures value { result.now ≡ self.now.slots }
        ensures stand { AreSlots self.now.slots self.now.rules }
        ensures few { length self.now.slots < 2 ^ 32 }
    {
        self.table.by_slot()
    }

    pub(crate) fn len(&self) -> u32
        ensures value { result ≡ length self.now.rules }
        ensures few { length self.now.rules < 2 ^ 32 }
    {
        self.table.len()
    }

    pub(crate) fn has(&self, rule: &Rule) -> bool
        ensures { result ≡ stands rule.now self.now.rules }
    {
        self.table.has(rule)
    }

    /// The rule at a place.
    pub(crate) fn row(&self, at: u32) -> &Rule
        requires { at < length self.now.rules }
        ensures { slice_get self.now.rules at ≡ Some result.now }
    {
        self.table.row(at)
    }

    /// The slot of a rule, where it stands.
    pub(crate) fn slot_of(&self, rule: &Rule) -> Option<u32>
        ensures { result ≡ position (same rule.now) self.now.slots }
    {
        self.table.slot_of(rule)
    }

    /// The place of a rule, where it stands.
    pub(crate) fn number_of(&self, rule: &Rule) -> Option<u32>
        ensures { result ≡ position (same rule.now) self.now.rules }
    {
        self.table.number_of(rule)
    }

    /// The place of the rule in a slot.
    pub(crate) fn place_of_slot(&self, slot: u32) -> u32
        requires { slot < length self.now.slots }
        ensures within { result < length self.now.rules }
        ensures same { slice_get self.now.rules result ≡ slice_get self.now.slots slot }
    {
        self.table.place_of_slot(slot)
    }

    /// The slot of the rule at a place.
    pub(crate) fn slot_at(&self, at: u32) -> u32
        requires { at < length self.now.rules }
        ensures within { result < length self.now.slots }
        ensures same { slice_get self.now.slots result ≡ slice_get self.now.rules at }
    {
        self.table.slot_at(at)
    }

    /// Makes room for so many further rules.
    pub(crate) fn reserve(&mut self, count: usize) -> Result<(), NoMemory>
        ensures rules { self.new.rules ≡ self.old.rules }
        ensures slots { self.new.slots ≡ self.old.slots }
        ensures counted { self.new.counted ≡ self.old.counted }
        ensures room { OnOk result (count ≤ self.new.spare) }
        ensures more { self.old.spare ≤ self.new.spare }
    {
        self.domains.reserve_if(self.counted, count)?;
        self.table.reserve(count)
    }

    /// Puts a rule behind the others, or where its rank belongs, unless it stands already; whether it did so.
    pub(crate) fn insert(&mut self, ranked: bool, rule: Rule) -> Result<bool, NoMemory>
        requires { RiseWhere ranked self.old.rules }
        ensures inserted { IfOk result (λ new. new ≡ not (stands rule self.old.rules)) }
        ensures rules { OnOk result (self.new.rules
            ≡ (if stands rule self.old.rules then self.old.rules
            else inserted ranked rule self.old.rules)) }
        ensures refused { OnErr result (self.new.rules ≡ self.old.rules) }
        ensures counted { self.new.counted ≡ self.old.counted }
    {
        if !self.counted {
            return self.table.insert(ranked, rule);
        }
        if self.table.has(&rule) {
            return Ok(false);
        }
        let blank = Text::from_string(String::new(self.domains.allocator()));
        let _few = self.table.len();
        self.table.reserve(1)?;
        self.domains.add(domain_or(&rule, &blank))?;
        self.table.push(ranked, rule);
        Ok(true)
    }

    // Puts an absent rule in, whose domain is this.
    fn push(&mut self, ranked: bool, rule: Rule, domain: Text)
        requires domain { domain ≡ domain_of rule }
        requires rising { RiseWhere ranked self.old.rules }
        requires absent { stands rule self.old.rules ≡ false }
        requires room { 0 < self.old.spare }
        ensures rules { self.new.rules ≡ inserted ranked rule self.old.rules }
        ensures slots { self.new.slots ≡ self.old.slots ++ rule ∷ [] }
        ensures counted { self.new.counted ≡ self.old.counted }
        ensures spare { self.old.spare ≤ self.new.spare + 1 }
    {
        let _few = self.table.len();
        self.domains.add_if(self.counted, domain);
        self.table.push(ranked, rule);
    }

    // Takes a rule out that stands.
    fn remove(&mut self, rule: &Rule)
        requires { stands rule.now self.old.rules ≡ true }
        ensures rules { self.new.rules ≡ without rule.now self.old.rules }
        ensures slots { self.new.slots ≡ swap_remove_by (same rule.now) self.old.slots }
        ensures counted { self.new.counted ≡ self.old.counted }
        ensures spare { self.old.spare ≤ self.new.spare }
    {
        let _once = self.table.len();
        self.domains
            .take_if(self.counted, std::slice::from_ref(rule));
        self.table.remove(rule);
    }

    // Puts an absent rule, whose domain is this, in for one that stands.
    fn replace(&mut self, ranked: bool, old: &Rule, new: Rule, domain: Text)
        requires domain { domain ≡ domain_of new }
        requires rising { RiseWhere ranked self.old.rules }
        requires stands { stands old.now self.old.rules ≡ true }
        requires absent { stands new self.old.rules ≡ false }
        requires room { 0 < self.old.spare }
        ensures rules { self.new.rules ≡ replaced ranked old.now new self.old.rules }
        ensures slots { self.new.slots ≡ in_place old.now new self.old.slots }
        ensures counted { self.new.counted ≡ self.old.counted }
        ensures spare { self.old.spare ≤ self.new.spare + 1 }
    {
        let _few = self.table.len();
        self.domains
            .take_if(self.counted, std::slice::from_ref(old));
        self.domains.add_if(self.counted, domain);
        self.table.replace(ranked, old, new);
    }

    /// Makes a change.
    pub(crate) fn make(&mut self, ranked: bool, step: TableStep)
        requires rising { RiseWhere ranked self.old.rules }
        requires possible { suits step self.old.rules ≡ true }
        requires room { puts step ≤ self.old.spare }
        ensures rules { self.new.rules ≡ changed_rules ranked step self.old.rules }
        ensures slots { self.new.slots ≡ slots_after step self.old.slots }
        ensures few { length self.new.rules < 2 ^ 32 }
        ensures counted { self.new.counted ≡ self.old.counted }
        ensures spare { self.old.spare ≤ self.new.spare + puts step }
    {
        let (change, domain) = step.into_parts();
        self.make_change(ranked, change, domain);
        let _few = self.len();
    }

    // Makes a change, the domain of whose new rule is this.
    fn make_change(&mut self, ranked: bool, change: Change, domain: Text)
        requires domain { domain ≡ put_domain change }
        requires rising { RiseWhere ranked self.old.rules }
        requires possible { suits change self.old.rules ≡ true }
        requires room { puts change ≤ self.old.spare }
        ensures rules { self.new.rules ≡ changed_rules ranked change self.old.rules }
        ensures slots { self.new.slots ≡ slots_after change self.old.slots }
        ensures counted { self.new.counted ≡ self.old.counted }
        ensures spare { self.old.spare ≤ self.new.spare + puts change }
    {
        match change {
            Change::Insert { rule, .. } => self.push(ranked, rule, domain),
            Change::Remove { rule, .. } => self.remove(&rule),
            Change::Replace { old, new, .. } => self.replace(ranked, &old, new, domain),
        }
    }

    /// Puts the rules into rising order of rank, those of one rank in the order in which they stand.
    pub(crate) fn rank(&mut self) -> Result<(), NoMemory>
        ensures rules { OnOk result (self.new.rules ≡ by_rank self.old.rules) }
        ensures refused { OnErr result (self.new.rules ≡ self.old.rules) }
        ensures counted { self.new.counted ≡ self.old.counted }
    {
        self.table.rank()
    }

    /// How many rules have a domain that is a pattern.
    pub(crate) fn patterns(&self, fit: Fit) -> u64
        requires { self.now.counted ≡ true }
        ensures value { result ≡ length (filter (is_pattern fit) (domains_of self.now.rules)) }
    {
        self.domains.patterns(fit)
    }

    /// How many different domains the rules have.
    pub(crate) fn domains(&self) -> u64
        requires { self.now.counted ≡ true }
        ensures value { result ≡ length (different (domains_of self.now.rules)) }
    {
        self.domains.texts().len() as u64
    }

    /// How many rules have a domain.
    pub(crate) fn count(&self, domain: &Text) -> u64
        requires { self.now.counted ≡ true }
        ensures { result ≡ count_by (bytes_eq domain.now) (domains_of self.now.rules) }
    {
        self.domains.count(domain)
    }

    pub(crate) fn copy(&self, alloc: Global) -> Result<CountedTable, NoMemory>
        ensures rules { IfOk result (λ copy. copy.rules ≡ self.now.rules) }
        ensures slots { IfOk result (λ copy. copy.slots ≡ self.now.slots) }
        ensures counted { IfOk result (λ copy. copy.counted ≡ self.now.counted) }
    {
        let table = self.table.copy(alloc)?;
        let domains = self.domains.copy(alloc)?;
        let counted = self.counted;
        Ok(CountedTable {
            table,
            domains,
            counted,
        })
    }
}
