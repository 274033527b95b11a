ghost use Rattle.std.specs.Prelude.{◌≡◌, ◌↔◌, ◌<◌, ◌≤◌, [], ◌∷◌, IfNone, IfOk, MatchOption, length, map, true};
ghost use Rattle.std.specs.List.{IsDistinct};
ghost use Rattle.std.specs.Map.{keys_of};
ghost use Rattle.perm_value.specs.Equality.{request_eq};
ghost use Rattle.perm_value.specs.Seen.{datum};
ghost use Rattle.version_log.specs.Log.{versions};
ghost use Rattle.matcher_meaning.specs.Perm.{is_refusal};
ghost use Rattle.answer_cache.specs.Cached.{Stands, at_version, entries_of};
ghost use Rattle.answer_cache.specs.Answered.{GoesToFront, entries_behind};

use crate::answer::Kept;
use effect_fold::{Cause, Verdict};
use lru::LruCache;
use outside::NoMemory;
use perm_value::Request;
use policy_state::PolicyState;
use std::alloc::Global;
use std::marker::Model;
use std::num::NonZeroUsize;

/// Verdicts that are kept for the requests that were asked last, all of one version of a policy. Requests are one where their
/// values are equal. Contracts see the version, how many entries there are at most, and the entries, the most recent first.
///
/// The hashes of requests have a fixed seed, so one who picks the requests may make them collide. A look-up then compares
/// with up to as many requests as the cache holds.
pub struct Cache {
    alloc: Global,
    version: u32,
    entries: LruCache<Request, Verdict>,
}

// Written out, so that a caller's proof sees one call and not the drop of each field.
impl Drop for Cache {
    fn drop(self) {
        let Cache {
            alloc: _alloc,
            version: _version,
            entries: _entries,
        } = self;
    }
}

impl Model for Cache {
    ghost use Rattle.std.specs.Coded.{codes};
    ghost use Rattle.std.specs.Prelude.{◌<◌, ◌≤◌};
    ghost use Rattle.perm_value.specs.contracts.value.Value as value_row;
    ghost use Rattle.answer_cache.specs.Cached.{Cached};

    ghost Value = { Cached };

    ghost coded = { Prim.hlevel (codes, value_row.the_row.coded) };

    ghost view = { λ c. record {
      version = c.version;
      capacity = c.entries.cap;
      entries = c.entries.entries;
    } };

    ghost invariant = { λ c. (0 < c.entries.cap) × (c.entries.cap ≤ 10000) };
}

impl Cache {
    /// A cache of this capacity without entries, at the version of a policy. It takes memory for the places of its entries.
    pub fn open(alloc: Global, state: &PolicyState, capacity: u32) -> Result<Cache, NoMemory>
        requires some { 0 < capacity }
        requires most { capacity ≤ 10000 }
        ensures { IfOk result (λ cache. cache ≡ record {
          version = versions state.now.log;
          capacity = capacity;
          entries = [];
        }) }
    {
        let Some(most) = NonZeroUsize::new(capacity as usize) else {
            unreachable!()
        };
        Ok(Cache {
            alloc,
            version: state.version(),
            entries: LruCache::new(alloc, most)?,
        })
    }

    /// The version of the policy that its verdicts are of.
    pub fn version(&self) -> u32
        ensures { result ≡ self.now.version }
    {
        self.version
    }

    /// How many entries it has at most.
    pub fn capacity(&self) -> u32
        ensures capacity { result ≡ self.now.capacity }
        ensures some { 0 < result }
        ensures most { result ≤ 10000 }
    {
        self.entries.cap().get() as u32
    }

    /// How many entries it has. No request stands in two of them.
    pub fn len(&self) -> u32
        ensures len { result ≡ length self.now.entries }
        ensures few { length self.now.entries ≤ self.now.capacity }
        ensures distinct { IsDistinct request_eq (keys_of self.now.entries) }
    {
        self.entries.len() as u32
    }

    /// Goes to a version of the policy; where that is another, no entry is left.
    pub(crate) fn move_to(&mut self, version: u32)
        ensures { self.new ≡ at_version version self.old }
    {
        if self.version != version {
            self.entries.clear();
            self.version = version;
        }
    }

    /// The verdict that is kept for a request, whose entry goes to the front.
    pub(crate) fn find(&mut self, request: &Request) -> Option<Verdict>
        ensures found { MatchOption result (¬ (Stands (map datum request.now) (entries_of self.old)))
            (λ verdict. GoesToFront (map datum request.now, verdict)
            (entries_of self.old) (entries_of self.new)) }
        ensures none { IfNone result (self.new ≡ self.old) }
        ensures version { self.new.version ≡ self.old.version }
        ensures capacity { self.new.capacity ≡ self.old.capacity }
    {
        self.entries.get(request).copied()
    }

    /// Keeps the verdict on a request that has no entry, unless it is the fault of a pattern or memory runs out.
    pub(crate) fn keep(&mut self, request: &Request, verdict: Verdict) -> Kept
        requires { ¬ (Stands (map datum request.now) (entries_of self.old)) }
        ensures refused { (result ≡ Kept.Refused) ↔ (is_refusal verdict ≡ true) }
        ensures entries { entries_of self.new ≡ entries_behind result self.old.capacity
            (map datum request.now, verdict) (entries_of self.old) }
        ensures version { self.new.version ≡ self.old.version }
        ensures capacity { self.new.capacity ≡ self.old.capacity }
    {
        if is_refusal(verdict) {
            return Kept::Refused;
        }
        let Ok(copy) = request.copy(self.alloc) else {
            return Kept::NoMemory;
        };
        let Ok(_) = self.entries.put(copy, verdict) else {
            return Kept::NoMemory;
        };
        Kept::Yes
    }
}

// Whether a verdict is the fault of a pattern.
fn is_refusal(verdict: Verdict) -> bool
    ensures { result ≡ is_refusal verdict }
{
    match verdict {
        Verdict::Fault { fault, .. } => fault.cause == Cause::Pattern,
        _ => false,
    }
}
