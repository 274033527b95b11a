ghost use Rattle.std.specs.Prelude.{◌≡◌, [], ◌∷◌, Some};
ghost use Rattle.perm_value.specs.Seen.{datum_of_view};
ghost use Rattle.matcher_meaning.specs.Meaning.{along};
ghost use Rattle.matcher_code.specs.Helps.Ends.{answer_of};

use crate::faults::fault;
use effect_fold::{Cause, Fault};
use outside::Text;
use perm_value::View;

/// The attribute of a value with a name.
pub(crate) fn attribute_of<'a>(at: u32, value: &View<'a>, name: &Text) -> Result<View<'a>, Fault>
    ensures { answer_of result
        ≡ along at (Some (datum_of_view value.now)) (name.now ∷ []) }
{
    match value.attribute(name.as_str()) {
        Some(reached) => Ok(reached),
        None => Err(fault(Cause::NoAttribute, at)),
    }
}
