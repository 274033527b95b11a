ghost use Rattle.std.specs.Prelude.{◌≡◌, [], map, option_copied, slice_get};
ghost use Rattle.perm_value.specs.Seen.{datum};
ghost use Rattle.matcher_meaning.specs.Meaning.{along};
ghost use Rattle.matcher_code.specs.Helps.Ends.{answer_of};
ghost use Rattle.matcher_code.specs.Machine.{field_at};

use crate::faults::fault;
use effect_fold::{Cause, Fault};
use perm_base::Rule;
use perm_value::{Request, View};

/// What a run is for: a request, and a row or none.
#[derive(Clone, Copy)]
pub(crate) struct Asked<'a> {
    pub(crate) request: &'a Request,
    pub(crate) row: Option<&'a Rule>,
}

/// The value of a request's column; one that the request is too short for is an attribute that it lacks.
pub(crate) fn request_value<'a>(
    at: u32,
    request: &'a Request,
    column: u32,
) -> Result<View<'a>, Fault>
    ensures { answer_of result ≡ along at (slice_get (map datum request.now) column) [] }
{
    if column < request.len() {
        Ok(request.value(column))
    } else {
        Err(fault(Cause::NoAttribute, at))
    }
}

/// The row's field in a column; without a row, or such a field, it is the empty text.
pub(crate) fn field_of<'a>(row: Option<&'a Rule>, column: u32) -> &'a [u8]
    ensures { result.now ≡ field_at (option_copied row.entry) column }
{
    match row {
        Some(row) if column < row.len() => row.field(column),
        _ => b"",
    }
}
