ghost use Rattle.std.specs.Prelude.{◌≡◌};

use effect_fold::{Cause, Fault};

/// This cause at this place.
pub(crate) fn fault(cause: Cause, at: u32) -> Fault
    ensures { result ≡ record { cause = cause; at = at } }
{
    Fault { cause, at }
}

/// A value of another kind than is wanted at this place.
pub(crate) fn kind(at: u32) -> Fault
    ensures { result ≡ record { cause = Cause.Kind; at = at } }
{
    fault(Cause::Kind, at)
}
