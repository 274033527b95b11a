ghost use Rattle.std.specs.Prelude.{◌≡◌, ◌↔◌, IsNone, IsSome, IsTrue, MatchOption, None, Some};

use crate::held::Held;
use enforce_core::Enforcer;
use loose_box::Loose;
use std::alloc::Global;
use std::mem;

/// What C holds of an enforcer, an owner or a snapshot: two words, of which it reads none. All bytes 0 is a closed handle.
#[repr(C)]
pub struct Handle {
    full: bool,
    pub held: Held,
    ghost tied: { IsTrue full ↔ IsSome held.inside },
}

impl Handle {
    /// A closed handle, as C makes it of zeros.
    pub fn closed(alloc: Global) -> Handle
        ensures { result.held.inside ≡ None }
    {
        Handle {
            full: false,
            held: Held::none(alloc),
        }
    }

    /// Takes what it holds, and leaves it closed.
    pub(crate) fn take(&mut self, alloc: Global) -> Option<Box<Enforcer>>
        ensures closed { self.new.held.inside ≡ None }
        ensures taken { MatchOption result (self.old.held.inside ≡ None)
            (λ enforcer. self.old.held.inside ≡ Some enforcer.value) }
    {
        if !self.full {
            return None;
        }
        let held = mem::replace(&mut self.held, Held::none(alloc));
        self.full = false;
        Some(held.into_loose().into_box())
    }

    /// Gives a closed handle an enforcer.
    pub(crate) fn give(&mut self, enforcer: Box<Enforcer>)
        requires { IsNone self.old.held.inside }
        ensures { self.new.held.inside ≡ Some enforcer.value }
    {
        let none = mem::replace(&mut self.held, Held::of(Loose::of(enforcer)));
        none.gone();
        self.full = true;
    }

    /// Gives it an enforcer, and lets go of the one that it held.
    pub(crate) fn put(&mut self, alloc: Global, enforcer: Box<Enforcer>)
        ensures { self.new.held.inside ≡ Some enforcer.value }
    {
        drop(self.take(alloc));
        self.give(enforcer);
    }

    /// Lets go of a closed handle.
    pub fn gone(self)
        requires { IsNone self.held.inside }
    {
        let Handle { full: _, held } = self;
        held.gone();
    }
}
