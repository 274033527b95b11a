ghost use Rattle.std.specs.Prelude.{◌≡◌};

/// Does nothing, but this use of a reference that was handed through a call ties it, for proofs, to the one that was lent.
pub(crate) fn end_loan<T>(lent: &mut T)
    ensures { lent.new ≡ lent.old }
{}
