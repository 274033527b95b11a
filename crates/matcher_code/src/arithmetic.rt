ghost use Rattle.std.specs.Prelude.{◌≡◌, ℤ, FitsSigned};
ghost use Rattle.std.specs.Int.{CanDivide, w64};
ghost use Rattle.std.specs.Option.{SomeIff};
ghost use Rattle.perm_value.specs.Seen.{datum_of_view};
ghost use Rattle.matcher_meaning.specs.Answers.{Evaluation};
ghost use Rattle.matcher_meaning.specs.Arithmetic.{fitted, divided, of_wholes};
ghost use Rattle.matcher_code.specs.Helps.Ends.{answer_of};
ghost use Rattle.matcher_code.specs.Helps.Steps.{given};

use crate::faults::{fault, kind};
use effect_fold::{Cause, Fault};
use perm_value::View;

/// Two whole numbers.
pub(crate) fn wholes(at: u32, left: &View<'_>, right: &View<'_>) -> Result<(i64, i64), Fault>
    ensures { (give : ℤ → ℤ → Evaluation)
        → given result give ≡ of_wholes at give (datum_of_view left.now) (datum_of_view right.now) }
{
    match (*left, *right) {
        (View::Whole(number), View::Whole(other)) => Ok((number, other)),
        _ => Err(kind(at)),
    }
}

/// A number that fits, or else none.
pub(crate) fn fitted<'a>(at: u32, number: Option<i64>) -> Result<View<'a>, Fault>
    ensures { (n : ℤ) → SomeIff number (FitsSigned w64 n) n → answer_of result ≡ fitted at n }
{
    match number {
        Some(number) => Ok(View::Whole(number)),
        None => Err(fault(Cause::Overflow, at)),
    }
}

/// What a division gave, or why it gave none.
pub(crate) fn divided<'a>(at: u32, by: i64, number: Option<i64>) -> Result<View<'a>, Fault>
    ensures { (n given : ℤ) → SomeIff number (CanDivide w64 n by) given
        → answer_of result ≡ divided at n by given }
{
    match number {
        Some(number) => Ok(View::Whole(number)),
        None if by == 0 => Err(fault(Cause::ZeroDivisor, at)),
        None => Err(fault(Cause::Overflow, at)),
    }
}
