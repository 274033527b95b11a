ghost use Rattle.std.specs.Prelude.{◌≡◌, ◌<◌, ◌^◌, ℕ, List, Some, length, slice_get};

use crate::call::Pairs;
use perm_base::{Rule, Rules};

/// A list of rules that a call names.
pub(crate) trait RuleList {
    // The rules.
    ghost rules: { Self → List (List (List ℕ)) };

    fn len(&self) -> u32
        ensures { result ≡ length (rules self.now) };

    // The rule at a place.
    fn at(&self, at: u32) -> &Rule
        requires { at < length (rules self.now) }
        ensures { slice_get (rules self.now) at ≡ Some result.now };
}

impl RuleList for Rules {
    ghost rules = { λ list. list };

    fn len(&self) -> u32 {
        Rules::len(self)
    }

    fn at(&self, at: u32) -> &Rule {
        Rules::at(self, at)
    }
}

/// The old rules of pairs.
#[derive(Clone, Copy)]
pub(crate) struct Olds<'a>(pub &'a Pairs);

impl<'a> RuleList for Olds<'a> {
    ghost use Rattle.std.specs.Prelude.{map};

    ghost rules = { λ list. map (λ pair. pair.0) list.0.now };

    fn len(&self) -> u32 {
        self.0.len()
    }

    fn at(&self, at: u32) -> &Rule {
        self.0.old(at)
    }
}

/// The new rules of pairs.
#[derive(Clone, Copy)]
pub(crate) struct News<'a>(pub &'a Pairs);

impl<'a> RuleList for News<'a> {
    ghost use Rattle.std.specs.Prelude.{map};

    ghost rules = { λ list. map (λ pair. pair.1) list.0.now };

    fn len(&self) -> u32 {
        self.0.len()
    }

    fn at(&self, at: u32) -> &Rule {
        self.0.new(at)
    }
}
