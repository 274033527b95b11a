ghost use Rattle.std.specs.Prelude.{◌≡◌, ◌<◌, ◌≤◌, ℕ, [], List, Option, IfOk, IfErr, IfSome, OnOk, OnErr, IsErrOf, if◌then◌else◌, is_ok, length, take};
ghost use Rattle.outside.specs.Ends.{ends_after};
ghost use Rattle.outside.specs.Faults.{Rose, one_more};
ghost use Rattle.outside.specs.Pulls.{Pulls};
ghost use Rattle.outside.specs.Told.{with_front, HasRead, HasReadAtMost, HasReadMore};
ghost use Rattle.outside.specs.declared.source.ReadStop.TheVariants as stops;

use crate::fault::{Failed, NoMemory};
use std::alloc::Global;

// How many bytes are asked for at once.
const PIECE: usize = 4096;

/// Bytes that come from outside, as a file's or a stream's.
pub trait Source {
    /// The bytes that are left, where the source tells them.
    ghost left: { Self → Option (List ℕ) };

    /// How often the source has answered that it is at its end, where it tells it. The count stands still at 2^64 - 1.
    ghost ends: { Self → Option ℕ };

    /// How often the source has failed. The count stands still at 2^64 - 1.
    ghost faults: { Self → ℕ };

    /// Takes the next bytes into the front of `buf` and answers how many. At 0 for a `buf` that is not empty
    /// the source is at its end.
    fn pull(&mut self, buf: &mut [u8]) -> Result<usize, Failed>
        ensures { Pulls (left self.old) (left self.new) (ends self.old) (ends self.new)
            (faults self.old) (faults self.new) buf.old buf.new result };
}

/// A count of answers that a source is at its end, with one more where an answer says so.
pub fn ends_after(ends: u64, said: bool) -> u64
    ensures { result ≡ (if said then one_more ends else ends) }
{
    if said { ends.saturating_add(1) } else { ends }
}

/// Why the bytes of a source were not read to their end.
#[derive(Clone, Copy, Debug, PartialEq, Eq)]
pub enum ReadStop {
    /// The source failed, and counted it.
    Failed,
    /// There are more bytes than were allowed.
    TooLong,
    NoMemory,
}

impl From<Failed> for ReadStop {
    ghost from_gives = { λ _ stop. stop ≡ stops.Failed };

    fn from(_: Failed) -> ReadStop {
        ReadStop::Failed
    }
}

impl From<NoMemory> for ReadStop {
    ghost from_gives = { λ _ stop. stop ≡ stops.NoMemory };

    fn from(_: NoMemory) -> ReadStop {
        ReadStop::NoMemory
    }
}

/// Reads a source to its end, where at most `most` bytes are left in it. It is pulled no further than its
/// end. After a stop some of its first bytes were read.
pub fn read_all<S: Source>(alloc: Global, source: &mut S, most: u64) -> Result<Vec<u8>, ReadStop>
    ensures read { IfOk result (λ bytes.
        S.left source.old ≡ with_front bytes.items (S.left source.new)) }
    ensures ended { OnOk result (IfSome (S.left source.new) (λ rest. rest ≡ [])) }
    ensures ends { S.ends source.new ≡ ends_after (S.ends source.old) (is_ok result) }
    ensures within { IfOk result (λ bytes. length bytes.items ≤ most) }
    ensures stopped { OnErr result (HasRead (S.left source.old) (S.left source.new)) }
    ensures counted { S.faults source.old ≤ S.faults source.new }
    ensures failed { IsErrOf result ReadStop.Failed
        → Rose (S.faults source.old) (S.faults source.new) }
    ensures failed_within { IsErrOf result ReadStop.Failed
        → HasReadAtMost most (S.left source.old) (S.left source.new) }
    ensures too_long { IsErrOf result ReadStop.TooLong
        → HasReadMore most (S.left source.old) (S.left source.new) }
{
    let mut bytes = Vec::new(alloc);
    let mut piece = [0; PIECE];
    loop {
        let count = source.pull(&mut piece)?;
        if count == 0 {
            return Ok(bytes);
        }
        bytes
            .extend_from_slice(&piece[..count])
            .map_err(NoMemory::from)?;
        if bytes.len() as u64 > most {
            return Err(ReadStop::TooLong);
        }
    }
}
