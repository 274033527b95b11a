ghost use Rattle.std.specs.Prelude.{◌≡◌, ◌↔◌, [], Some, None, true, IsErrOf, OnOk, OnErr};
ghost use Rattle.outside.specs.Fetches.{Fetches};
ghost use Rattle.outside.specs.Listed.{fresh, after_fetch, fetch_fails};
ghost use Rattle.outside.specs.Files.{file_of, Puts};

use crate::fault::NoMemory;
use crate::fetch_log::FetchLog;
use crate::memory::calls::Calls;
use crate::memory::entries::{Entries, copy_within};
use crate::shelf::{Fetch, Shelf};
use crate::text::Text;
use std::alloc::Global;
use std::marker::Model;

/// A shelf in memory that fails at listed calls. Contracts see its entries, names and bytes, its log as
/// long as memory lasts for it, and the schedule.
#[derive(Drop)]
pub struct ListShelf {
    entries: Entries,
    log: FetchLog,
    calls: Calls,
}

impl Model for ListShelf {
    ghost use Rattle.outside.specs.Listed.{ListedShelf};

    ghost Value = { ListedShelf };

    ghost view = { λ s. record { entries = s.entries; log = s.log; schedule = s.calls } };
}

impl ListShelf {
    /// A shelf without files that fails at the calls with these numbers, counted from 1. It takes no memory.
    pub fn new(alloc: Global, fails: Vec<u32>) -> ListShelf
        ensures { result ≡ record { entries = []; log = Some []; schedule = fresh fails.items } }
    {
        ListShelf {
            entries: Entries::new(alloc),
            log: FetchLog::new(alloc),
            calls: Calls::new(fails),
        }
    }

    /// Puts a file under a name, in the place of the one that had it.
    pub fn put(&mut self, name: Text, bytes: Vec<u8>) -> Result<(), NoMemory>
        ensures ok { OnOk result (Puts name bytes.items
            (file_of self.old.entries) (file_of self.new.entries)) }
        ensures same_log { self.new.log ≡ self.old.log }
        ensures same_schedule { self.new.schedule ≡ self.old.schedule }
        ensures err { OnErr result (self.new ≡ self.old) }
    {
        self.entries.put(name, bytes)
    }

    // Takes the bytes of a file, or fails at a listed call.
    fn take(&mut self, alloc: Global, name: &str, most: u64) -> Result<Vec<u8>, Fetch>
        ensures fetches { Fetches
            (Some (file_of self.old.entries)) (Some (file_of self.new.entries)) None None
            self.old.schedule.faults self.new.schedule.faults name.now most result }
        ensures fails { IsErrOf result Fetch.Failed ↔ (fetch_fails self.old name.now ≡ true) }
        ensures after { self.new ≡ after_fetch self.old name.now }
    {
        let fails = self.calls.begin();
        let bytes = self.entries.get(name).ok_or(Fetch::Absent)?;
        if fails {
            self.calls.fail();
            return Err(Fetch::Failed);
        }
        copy_within(alloc, bytes, most)
    }
}

impl Shelf for ListShelf {
    ghost files = { λ s. Some (file_of s.entries) };

    ghost calls = { λ s. s.log };

    ghost faults = { λ s. s.schedule.faults };

    fn fetch(&mut self, alloc: Global, name: &str, most: u64) -> Result<Vec<u8>, Fetch>
        ensures fetches { Fetches
            (Some (file_of self.old.entries)) (Some (file_of self.new.entries))
            self.old.log self.new.log
            self.old.schedule.faults self.new.schedule.faults name.now most result }
        ensures fails { IsErrOf result Fetch.Failed ↔ (fetch_fails self.old name.now ≡ true) }
        ensures after { record self.new { log = self.old.log } ≡ after_fetch self.old name.now }
    {
        let fetched = self.take(alloc, name, most);
        self.log.put(alloc, name, &fetched);
        fetched
    }
}
