// The box of an enforcer as a pointer that C may keep.
ghost use Rattle.std.specs.Coded.{coded_option};
ghost use Rattle.std.specs.Prelude.{◌≡◌, IsNone, IsSome, None, Option, Some};
ghost use Rattle.enforce_core.specs.Seen.{Enforcing};
ghost use Rattle.enforce_core.specs.contracts.enforcer.Enforcer as content;

use enforce_core::Enforcer;
use loose_box::Loose;
use std::alloc::Global;
use std::marker::Model;

/// An enforcer or nothing, by its address. One that holds an enforcer cannot be let go.
#[repr(C)]
pub struct Held {
    at: *mut u8,
    alloc: Global,
    pub ghost inside: { Option Enforcing } by { coded_option content.the_row.coded },
}

impl Model for Held {
    ghost use Rattle.enforce_core.specs.contracts.enforcer.Enforcer.{the_row};
    ghost use Rattle.casbin_c.specs.Held.{held};

    ghost also_owns = { λ h. held the_row h.alloc h.at h.inside };
}

impl Held {
    pub fn none(alloc: Global) -> Held
        ensures { result.inside ≡ None }
    {
        Held {
            at: std::ptr::null_mut(),
            alloc,
        }
    }

    pub fn of(enforcer: Loose<Enforcer, Global>) -> Held
        ensures { result.inside ≡ Some enforcer.value }
    {
        let Loose { at, alloc } = enforcer;
        Held {
            at: at as *mut u8,
            alloc,
        }
    }

    pub fn into_loose(self) -> Loose<Enforcer, Global>
        requires { IsSome self.inside }
        ensures { self.inside ≡ Some result.value }
    {
        let Held { at, alloc } = self;
        Loose {
            at: at as *mut Enforcer,
            alloc,
        }
    }

    /// Lets go of one that holds nothing.
    pub fn gone(self)
        requires { IsNone self.inside }
    {
        let Held { at: _, alloc: _ } = self;
    }
}
