use crate::program::Program;
use matcher_code::KeptRules;
use role_domain::Room;
use std::alloc::Global;

/// What judging requests by one program keeps from one to the next: the allocator, the places of the rows that are looked at,
/// room for what a name of the request reaches, and the code of the rules that were read last by an `eval`.
pub struct Scratch {
    alloc: Global,
    pub(crate) found: Vec<u32>,
    pub(crate) room: Room,
    pub(crate) kept: KeptRules,
}

// Written out, so that a caller's proof sees one call and not the drop of each field.
impl Drop for Scratch {
    fn drop(self) {
        let Scratch {
            alloc: _alloc,
            found: _found,
            room: _room,
            kept: _kept,
        } = self;
    }
}

impl Scratch {
    /// That of a program. It takes no memory.
    pub fn for_program(alloc: Global, _program: &Program) -> Scratch {
        Scratch {
            alloc,
            found: Vec::new(alloc),
            room: Room::new(),
            kept: KeptRules::new(),
        }
    }

    /// The allocator.
    pub(crate) fn alloc(&self) -> Global {
        self.alloc
    }
}
