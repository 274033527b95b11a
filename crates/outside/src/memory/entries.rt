ghost use Rattle.std.specs.Prelude.{◌≡◌, ◌≤◌, [], MatchResult, OnOk, OnErr, length, option_copied, position};
ghost use Rattle.outside.specs.Files.{file_of, Puts};
ghost use Rattle.outside.specs.Helps.Copies.{CopyStops};
ghost use Rattle.outside.specs.Helps.Entries.{has_name};

use crate::fault::NoMemory;
use crate::shelf::Fetch;
use crate::text::Text;
use std::alloc::Global;
use std::marker::Model;

/// Names and bytes, one entry a file. Contracts see the list of them.
#[derive(Drop)]
pub(crate) struct Entries {
    entries: Vec<Entry>,
}

#[derive(Drop)]
struct Entry {
    name: Text,
    bytes: Vec<u8>,
}

impl Model for Entries {
    ghost use Rattle.std.specs.Prelude.{List, ℕ};

    ghost Value = { List (List ℕ × List ℕ) };

    ghost use Rattle.outside.specs.Helps.Entries.{named_bytes};

    ghost view = { λ e. named_bytes e.entries.items };
}

impl Entries {
    pub(crate) fn new(alloc: Global) -> Entries
        ensures { result ≡ [] }
    {
        Entries {
            entries: Vec::new(alloc),
        }
    }

    /// The bytes under a name.
    pub(crate) fn get(&self, name: &str) -> Option<&[u8]>
        ensures { option_copied result ≡ file_of self.now name.now }
    {
        let at = place_of(&self.entries, name)?;
        Some(&self.entries[at].bytes)
    }

    /// Puts bytes under a name, in the place of those that were there.
    pub(crate) fn put(&mut self, name: Text, bytes: Vec<u8>) -> Result<(), NoMemory>
        ensures ok { OnOk result (Puts name bytes.items (file_of self.old) (file_of self.new)) }
        ensures err { OnErr result (self.new ≡ self.old) }
    {
        let Some(at) = place_of(&self.entries, name.as_str()) else {
            self.entries.push(Entry { name, bytes })?;
            return Ok(());
        };
        drop(name);
        self.entries[at].bytes = bytes;
        Ok(())
    }
}

// The place of the entry with a name.
fn place_of(entries: &[Entry], name: &str) -> Option<usize>
    ensures { result ≡ position (has_name name.now) entries.now }
{
    entries.iter().position(|entry| entry.name.as_str() == name)
}

/// A copy of bytes that are at most `most`.
pub(crate) fn copy_within(alloc: Global, bytes: &[u8], most: u64) -> Result<Vec<u8>, Fetch>
    ensures { MatchResult result (λ copy. (copy.items ≡ bytes.now) × (length bytes.now ≤ most))
        (CopyStops most bytes.now) }
{
    if bytes.len() as u64 > most {
        return Err(Fetch::TooLong);
    }
    Ok(Vec::from_slice(alloc, bytes).map_err(NoMemory::from)?)
}
