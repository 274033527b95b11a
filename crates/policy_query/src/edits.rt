ghost use Rattle.std.specs.Prelude.{◌≡◌, MatchResult, Some};
ghost use Rattle.policy_query.specs.Edits.{IsEdit, edit_refusal};

use crate::refused::QueryRefused;
use policy_table::Edit;
use version_log::Log;

/// The edit of a number; edits are numbered from 1, one a version. Refused are a number that no edit has and one whose edit
/// is dropped. It takes no memory, and is never refused for want of it.
pub fn edit_of(log: &Log, number: u32) -> Result<&Edit, QueryRefused>
    ensures answer { MatchResult result (λ edit. IsEdit log.now number edit.now)
        (λ refused. edit_refusal log.now number ≡ Some refused) }
{
    let version = log.versions();
    if number == 0 || version < number {
        return Err(QueryRefused::NoEdit { version });
    }
    let start = log.start();
    if number <= start {
        return Err(QueryRefused::Dropped { start });
    }
    Ok(log.edit(number - 1))
}
