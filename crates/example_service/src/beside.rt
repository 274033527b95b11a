//! The threads: the readers beside the administrator.
ghost use Rattle.std.specs.Thread.{IsSync};
ghost use Rattle.decision.specs.Programs.{Suits};
ghost use Rattle.decision.specs.contracts.program.Program as program_type;

use crate::administrator::publish_users;
use crate::bulletin::Bulletin;
use crate::reader::Reader;
use decision::Program;
use live_pair::{Admin, Naming};
use outside::NoMemory;
use std::alloc::Global;
use std::sync::Wait;
use std::thread;
use std::thread::{Threads, join_mut};

/// The readers read, each in a thread of its own where one can be started, while the administrator publishes in this one.
pub(crate) fn read_beside<J: Naming + Send + Sync, R: Threads + Wait + Sync>(
    rt: &R,
    alloc: Global,
    program: &Program,
    bulletin: &Bulletin<J>,
    readers: &mut Vec<Reader<J>>,
    admin: &mut Admin<J>,
) -> Result<(), NoMemory>
    requires suits { Suits program.now J.shapes }
{
    let mut publishing = || publish_users(rt, alloc, admin, bulletin);
    with_readers(rt, alloc, program, bulletin, readers, &mut publishing)
}

// The readers beside whatever is done meanwhile: so each function has one closure.
fn with_readers<
    J: Naming + Send + Sync,
    R: Threads + Wait + Sync,
    F: FnMut() -> Result<(), NoMemory>,
>(
    rt: &R,
    alloc: Global,
    program: &Program,
    bulletin: &Bulletin<J>,
    readers: &mut Vec<Reader<J>>,
    meanwhile: &mut F,
) -> Result<(), NoMemory>
    requires suits { Suits program.now J.shapes }
    requires called { F.pre meanwhile.old }
{
    share_program(program);
    let mut reading = ||
        requires { Suits program.now J.shapes }
    { read_all(rt, alloc, program, bulletin, readers) };
    let ((), done) = join_mut(rt, &mut reading, meanwhile);
    done
}

// Each reader reads.
fn read_all<J: Naming + Send + Sync, R: Threads + Wait + Sync>(
    rt: &R,
    alloc: Global,
    program: &Program,
    bulletin: &Bulletin<J>,
    readers: &mut Vec<Reader<J>>,
)
    requires suits { Suits program.now J.shapes }
{
    let threads = readers.len();
    if threads == 0 {
        return;
    }
    share_program(program);
    thread::for_each_mut(
        rt,
        readers.as_mut_slice(),
        threads,
        &|_at, reader: &mut Reader<J>|
            requires { Suits program.now J.shapes }
        { reader.read(rt, alloc, program, bulletin) },
    );
}

// That threads may share a program, as a fact for the calls behind this one.
fn share_program(program: &Program)
    ensures { IsSync program_type.the_row }
{
    share(program);
}

// The same of whatever threads may share.
fn share<T: Sync>(_value: &T)
    ensures { IsSync T.row }
{}
