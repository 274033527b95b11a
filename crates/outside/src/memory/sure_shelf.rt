ghost use Rattle.std.specs.Prelude.{◌≡◌, [], Some, None, IsErrOf, OnOk, OnErr};
ghost use Rattle.outside.specs.Fetches.{Fetches};
ghost use Rattle.outside.specs.Files.{file_of, Puts};

use crate::fault::NoMemory;
use crate::memory::entries::{Entries, copy_within};
use crate::shelf::{Fetch, Shelf};
use crate::text::Text;
use std::alloc::Global;
use std::marker::Model;

/// A shelf in memory that never fails. Contracts see its entries, names and bytes.
#[derive(Drop)]
pub struct SureShelf {
    entries: Entries,
}

impl Model for SureShelf {
    ghost use Rattle.std.specs.Prelude.{List, ℕ};

    ghost Value = { List (List ℕ × List ℕ) };

    ghost view = { λ s. s.entries };
}

impl SureShelf {
    /// A shelf without files. It takes no memory.
    pub fn new(alloc: Global) -> SureShelf
        ensures { result ≡ [] }
    {
        SureShelf {
            entries: Entries::new(alloc),
        }
    }

    /// Puts a file under a name, in the place of the one that had it.
    pub fn put(&mut self, name: Text, bytes: Vec<u8>) -> Result<(), NoMemory>
        ensures ok { OnOk result (Puts name bytes.items (file_of self.old) (file_of self.new)) }
        ensures err { OnErr result (self.new ≡ self.old) }
    {
        self.entries.put(name, bytes)
    }
}

impl Shelf for SureShelf {
    ghost files = { λ s. Some (file_of s) };

    ghost calls = { λ _. None };

    ghost faults = { λ _. 0 };

    fn fetch(&mut self, alloc: Global, name: &str, most: u64) -> Result<Vec<u8>, Fetch>
        ensures fetches { Fetches (Some (file_of self.old)) (Some (file_of self.new))
            None None 0 0 name.now most result }
        ensures sure { ¬ (IsErrOf result Fetch.Failed) }
        ensures same { self.new ≡ self.old }
    {
        let bytes = self.entries.get(name).ok_or(Fetch::Absent)?;
        copy_within(alloc, bytes, most)
    }
}
