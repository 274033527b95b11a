ghost use Rattle.std.specs.Prelude.{◌≡◌, ◌≤◌, None, IfOk, IsErrOf, length};
ghost use Rattle.outside.specs.Faults.{Rose};

use crate::read_source::ReadSource;
use outside::{Fetch, FetchLog, ReadStop, Shelf, read_all};
use std::alloc::Global;
use std::fs;
use std::rt::Files;

/// The files of the folder that the program runs in. It tells none of them, and a file that is not there is a failure. It
/// tells its fetches as long as memory lasts for them.
#[derive(Drop)]
pub struct FileShelf<'a, R: Files> {
    rt: &'a R,
    log: FetchLog,
    faults: u64,
}

impl<'a, R: Files> FileShelf<'a, R> {
    pub fn new(alloc: Global, rt: &'a R) -> FileShelf<'a, R> {
        FileShelf {
            rt,
            log: FetchLog::new(alloc),
            faults: 0,
        }
    }

    // Reads a file, and counts a failure.
    fn read(&mut self, alloc: Global, name: &str, most: u64) -> Result<Vec<u8>, Fetch>
        ensures within { IfOk result (λ bytes. length bytes.items ≤ most) }
        ensures present { ¬ (IsErrOf result Fetch.Absent) }
        ensures counted { self.old.faults ≤ self.new.faults }
        ensures failed { IsErrOf result Fetch.Failed → Rose self.old.faults self.new.faults }
        ensures same_log { self.new.log ≡ self.old.log }
    {
        let Ok(file) = fs::open(self.rt, name) else {
            self.faults = self.faults.saturating_add(1);
            return Err(Fetch::Failed);
        };
        match read_all(alloc, &mut ReadSource::new(file), most) {
            Ok(bytes) => Ok(bytes),
            Err(ReadStop::TooLong) => Err(Fetch::TooLong),
            Err(ReadStop::NoMemory) => Err(Fetch::NoMemory),
            Err(ReadStop::Failed) => {
                self.faults = self.faults.saturating_add(1);
                Err(Fetch::Failed)
            }
        }
    }
}

impl<'a, R: Files> Shelf for FileShelf<'a, R> {
    ghost files = { λ _. None };

    ghost calls = { λ s. s.log };

    ghost faults = { λ s. s.faults };

    fn fetch(&mut self, alloc: Global, name: &str, most: u64) -> Result<Vec<u8>, Fetch> {
        let fetched = self.read(alloc, name, most);
        self.log.put(alloc, name, &fetched);
        fetched
    }
}
