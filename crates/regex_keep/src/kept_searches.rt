ghost use Rattle.std.specs.Prelude.{◌≡◌, Some, IfSome};
ghost use Rattle.regex_gate.specs.Found.{has_match};
ghost use Rattle.regex_keep.specs.Helps.Kept.{AreKept};

use crate::kept_search::KeptSearch;
use lru::LruCache;
use outside::NoMemory;
use std::alloc::Global;
use std::num::NonZeroUsize;

/// How many patterns are kept.
const PATTERNS: usize = 256;

/// The searches for the patterns that were sought last, each under its pattern.
#[derive(Drop)]
pub(crate) struct KeptSearches {
    alloc: Global,
    searches: LruCache<Vec<u8>, KeptSearch>,
    ghost are_kept: { AreKept searches },
}

impl KeptSearches {
    /// No searches. It takes memory for their places.
    pub(crate) fn new(alloc: Global) -> Result<KeptSearches, NoMemory> {
        let Some(most) = NonZeroUsize::new(PATTERNS) else {
            unreachable!()
        };
        Ok(KeptSearches {
            alloc,
            searches: LruCache::new(alloc, most)?,
        })
    }

    /// Whether a pattern is found in a text, by the search that is kept for it, or else by a new one, which is then kept.
    /// None where there is no search for it, or the search gives up.
    pub(crate) fn find(&mut self, pattern: &[u8], text: &[u8]) -> Option<bool>
        ensures { IfSome result (λ is_found. has_match pattern.now text.now ≡ Some is_found) }
    {
        if let Some(search) = self.searches.get_mut(pattern) {
            return search.find(text);
        }
        let mut search = KeptSearch::new(self.alloc, pattern)?;
        let is_found = search.find(text)?;
        self.keep(pattern, search);
        Some(is_found)
    }

    // Keeps a search for a pattern. Where there is no memory for it, nothing changes.
    fn keep(&mut self, pattern: &[u8], search: KeptSearch)
        requires { search ≡ pattern.now }
    {
        let Ok(key) = Vec::from_slice(self.alloc, pattern) else {
            return;
        };
        let _kept = self.searches.put(key, search).is_ok();
    }
}
