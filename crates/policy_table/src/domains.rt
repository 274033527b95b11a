ghost use Rattle.std.specs.Prelude.{◌≡◌, ◌+◌, ◌<◌, ◌≤◌, [], ◌∷◌, ◌++◌, List, ℕ, false, true, IfOk, IsOk, OnErr, OnOk, Some, if◌then◌else◌, length, slice_get};
ghost use Rattle.std.specs.List.{IsDistinct};
ghost use Rattle.std.specs.Map.{keys_of};
ghost use Rattle.std.specs.Str.{bytes_eq};
ghost use Rattle.policy_table.specs.Helps.Domains.{AreCounted, CanCount, Counts, CountsAll, HasNoZero, count_of, domain_of, pattern_count};
ghost use Rattle.policy_table.specs.Limits.{domains_of};

use crate::patterns::Patterns;
use indexmap::IndexMap;
use outside::{NoMemory, Share, Text};
use perm_base::{Fit, Rule};
use std::alloc::Global;
use std::marker::Model;

/// The different domains of a relation's rules, each with the number of its rules, and how many rules have a pattern.
pub(crate) struct Domains {
    counts: IndexMap<Text, u64>,
    patterns: Patterns,
}

// Written out, so that a caller's proof sees one call and not the drop of each field.
impl Drop for Domains {
    fn drop(self) {
        let Domains {
            counts: _counts,
            patterns: _patterns,
        } = self;
    }
}

impl Model for Domains {
    ghost use Rattle.indexmap.specs.IndexMap.{spare};
    ghost use Rattle.policy_table.specs.Helps.Domains.{Counted, HasNoZero};

    ghost Value = { Counted };

    ghost view = { λ d. record {
      entries = d.counts.entries;
      patterns = d.patterns;
      spare = spare d.counts;
    } };

    ghost invariant = { λ d. HasNoZero d.counts.entries };
}

impl Domains {
    pub(crate) fn new(alloc: Global) -> Domains
        ensures { AreCounted [] result }
    {
        Domains {
            counts: IndexMap::new(alloc),
            patterns: Patterns::new(),
        }
    }

    pub(crate) fn allocator(&self) -> Global {
        *self.counts.allocator()
    }

    /// How often a domain is counted.
    pub(crate) fn count(&self, domain: &Text) -> u64
        ensures { result ≡ count_of self.now domain.now }
    {
        self.counts.get(domain).copied().unwrap_or(0)
    }

    /// How many are patterns of a function.
    pub(crate) fn patterns(&self, fit: Fit) -> u64
        ensures { result ≡ pattern_count self.now.patterns fit }
    {
        self.patterns.count(fit)
    }

    /// What is kept of the domains: each stands once, and none that is not counted.
    pub(crate) fn kept(&self)
        ensures once { IsDistinct bytes_eq (keys_of self.now.entries) }
        ensures some { HasNoZero self.now.entries }
    {
        let _texts = self.texts();
    }

    /// The different domains.
    pub(crate) fn texts(&self) -> &[Text]
        ensures value { result.now ≡ keys_of self.now.entries }
        ensures once { IsDistinct bytes_eq (keys_of self.now.entries) }
        ensures some { HasNoZero self.now.entries }
    {
        self.counts.keys().as_slice()
    }

    /// Makes room for so many further domains, where that is wanted.
    pub(crate) fn reserve_if(&mut self, wanted: bool, count: usize) -> Result<(), NoMemory>
        ensures counted { (texts : List (List ℕ))
            → AreCounted texts self.old → AreCounted texts self.new }
        ensures room { OnOk result (wanted ≡ true → count ≤ self.new.spare) }
        ensures more { self.old.spare ≤ self.new.spare }
    {
        if wanted { self.reserve(count) } else { Ok(()) }
    }

    // Makes room for so many further domains.
    fn reserve(&mut self, count: usize) -> Result<(), NoMemory>
        ensures counted { (texts : List (List ℕ))
            → AreCounted texts self.old → AreCounted texts self.new }
        ensures room { OnOk result (count ≤ self.new.spare) }
        ensures more { self.old.spare ≤ self.new.spare }
    {
        Ok(self.counts.reserve(count)?)
    }

    /// Counts a domain once more; a new one is copied.
    pub(crate) fn add(&mut self, domain: &Text) -> Result<(), NoMemory>
        requires { CanCount self.old }
        ensures counted { OnOk result ((texts : List (List ℕ))
            → AreCounted texts self.old → AreCounted (domain.now ∷ texts) self.new) }
        ensures refused { OnErr result ((texts : List (List ℕ))
            → AreCounted texts self.old → AreCounted texts self.new) }
    {
        if self.add_again(domain) {
            return Ok(());
        }
        let copy = Text::from_str(self.allocator(), domain.as_str())?;
        self.add_first(copy)
    }

    // Counts a domain once more, where it is counted; whether it is.
    fn add_again(&mut self, domain: &Text) -> bool
        requires { CanCount self.old }
        ensures counted { result ≡ true → (texts : List (List ℕ))
            → AreCounted texts self.old → AreCounted (domain.now ∷ texts) self.new }
        ensures new { result ≡ false → count_of self.old domain.now ≡ 0 }
        ensures same { result ≡ false → self.new ≡ self.old }
        ensures spare { self.old.spare ≤ self.new.spare }
    {
        if let Some(count) = self.counts.get_mut(domain) {
            *count += 1;
            self.patterns = self.patterns.with_again(domain.bytes());
            return true;
        }
        false
    }

    // Counts a domain that is not counted yet.
    fn add_first(&mut self, domain: Text) -> Result<(), NoMemory>
        requires few { CanCount self.old }
        requires new { count_of self.old domain ≡ 0 }
        ensures counted { OnOk result ((texts : List (List ℕ))
            → AreCounted texts self.old → AreCounted (domain ∷ texts) self.new) }
        ensures refused { OnErr result ((texts : List (List ℕ))
            → AreCounted texts self.old → AreCounted texts self.new) }
        ensures room { 0 < self.old.spare → IsOk result }
        ensures spare { self.old.spare ≤ self.new.spare + 1 }
    {
        let patterns = self.patterns.with(domain.bytes());
        let _none = self.counts.insert(domain, 1)?;
        self.patterns = patterns;
        Ok(())
    }

    /// Counts a domain once less.
    pub(crate) fn take(&mut self, domain: &Text)
        requires { Counts domain.now self.old }
        ensures counted { (texts : List (List ℕ))
            → AreCounted (domain.now ∷ texts) self.old → AreCounted texts self.new }
        ensures spare { self.old.spare ≤ self.new.spare }
    {
        let count = self.count(domain);
        self.patterns = self.patterns.without(domain.bytes());
        if count == 1 {
            let _last = self.counts.swap_remove(domain);
        } else if let Some(left) = self.counts.get_mut(domain) {
            *left = count - 1;
        }
    }

    /// Counts a domain once more, where that is wanted.
    pub(crate) fn add_if(&mut self, wanted: bool, domain: Text)
        requires few { wanted ≡ true → CanCount self.old }
        requires room { wanted ≡ true → 0 < self.old.spare }
        ensures counted { (texts : List (List ℕ)) → AreCounted texts self.old
            → AreCounted (if wanted then domain ∷ texts else texts) self.new }
        ensures spare { self.old.spare ≤ self.new.spare + 1 }
    {
        if !wanted {
            return;
        }
        if self.add_again(&domain) {
            return;
        }
        self.add_first(domain).unwrap();
    }

    /// Counts the domains of rules once less, where that is wanted.
    pub(crate) fn take_if(&mut self, wanted: bool, rules: &[Rule])
        requires { wanted ≡ true → CountsAll (domains_of rules.now) self.old }
        ensures counted { wanted ≡ true → (others : List (List ℕ))
            → AreCounted (domains_of rules.now ++ others) self.old → AreCounted others self.new }
        ensures spare { self.old.spare ≤ self.new.spare }
    {
        if wanted {
            self.take_all(rules);
        }
    }

    // Counts the domains of rules once less.
    fn take_all(&mut self, rules: &[Rule])
        requires { CountsAll (domains_of rules.now) self.old }
        ensures counted { (others : List (List ℕ))
            → AreCounted (domains_of rules.now ++ others) self.old → AreCounted others self.new }
        ensures spare { self.old.spare ≤ self.new.spare }
    {
        let blank = Text::from_string(String::new(self.allocator()));
        for rule in rules {
            self.take(domain_or(rule, &blank));
        }
    }

    pub(crate) fn copy(&self, alloc: Global) -> Result<Domains, NoMemory>
        ensures { IfOk result (λ copy. (texts : List (List ℕ))
            → AreCounted texts self.now → AreCounted texts copy) }
    {
        let len = self.len();
        let mut counts = IndexMap::with_capacity(alloc, len)?;
        for at in 0..len {
            let (domain, count) = self.entry(at);
            let domain = Text::from_str(alloc, domain.as_str())?;
            let _before = counts.insert(domain, count)?;
        }
        let patterns = self.patterns;
        Ok(Domains { counts, patterns })
    }

    // How many different domains there are.
    fn len(&self) -> usize
        ensures value { result ≡ length self.now.entries }
        ensures once { IsDistinct bytes_eq (keys_of self.now.entries) }
    {
        self.counts.len()
    }

    // The domain at a place, and how often it is counted.
    fn entry(&self, at: usize) -> (&Text, u64)
        requires { at < length self.now.entries }
        ensures { slice_get self.now.entries at ≡ Some (result.0.now, result.1) }
    {
        let Some((domain, count)) = self.counts.get_index(at) else {
            unreachable!()
        };
        (domain, *count)
    }
}

impl Share for Domains {}

/// The domain of a rule of a relation: its third field.
pub(crate) fn domain_of(rule: &Rule) -> &str
    ensures { result.now ≡ domain_of rule.now }
{
    if rule.len() <= 2 {
        return "";
    }
    rule.text(2)
}

/// The domain of a rule as a text of its own.
pub(crate) fn domain_text(alloc: Global, rule: &Rule) -> Result<Text, NoMemory>
    ensures { IfOk result (λ text. text ≡ domain_of rule.now) }
{
    Text::from_str(alloc, domain_of(rule))
}

/// The domain of a rule, where a text without bytes is at hand.
pub(crate) fn domain_or<'a>(rule: &'a Rule, blank: &'a Text) -> &'a Text
    requires { blank.now ≡ [] }
    ensures { result.now ≡ domain_of rule.now }
{
    if rule.len() <= 2 {
        return blank;
    }
    &rule.fields()[2]
}
