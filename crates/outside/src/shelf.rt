ghost use Rattle.std.specs.Prelude.{◌≡◌, ℕ, List, Option};
ghost use Rattle.outside.specs.Files.{Files};
ghost use Rattle.outside.specs.Fetches.{Fetches};
ghost use Rattle.outside.specs.declared.fetch_log.FetchCall.{FetchCall};
ghost use Rattle.outside.specs.declared.shelf.Fetch.TheVariants as stops;

use crate::fault::NoMemory;
use std::alloc::Global;

/// Why a file was not fetched.
#[derive(Clone, Copy, Debug, PartialEq, Eq)]
pub enum Fetch {
    /// No file has the name.
    Absent,
    /// The shelf failed, and counted it.
    Failed,
    /// The file has more bytes than were allowed.
    TooLong,
    NoMemory,
}

impl From<NoMemory> for Fetch {
    ghost from_gives = { λ _ stop. stop ≡ stops.NoMemory };

    fn from(_: NoMemory) -> Fetch {
        Fetch::NoMemory
    }
}

/// Files by name, as a folder's.
pub trait Shelf {
    /// The files, where the shelf tells them. A shelf that tells none never answers that a file is absent.
    ghost files: { Self → Option Files };

    /// The fetches in their order, each with whether it failed, as long as the shelf tells them.
    ghost calls: { Self → Option (List FetchCall) };

    /// How often the shelf has failed. The count stands still at 2^64 - 1.
    ghost faults: { Self → ℕ };

    /// The bytes of the file of that name, where they are at most `most`.
    fn fetch(&mut self, alloc: Global, name: &str, most: u64) -> Result<Vec<u8>, Fetch>
        ensures { Fetches (files self.old) (files self.new) (calls self.old) (calls self.new)
            (faults self.old) (faults self.new) name.now most result };
}
