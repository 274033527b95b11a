ghost use Rattle.std.specs.Prelude.{◌≡◌, MatchOption, false};
ghost use Rattle.desk_session.specs.Steps.{is_request};
ghost use Rattle.script_read.specs.Said.{asks, reading_of, seen};

use script_read::{Item, RequestText};

/// The request of an item that is one.
pub fn asked_in(item: &Item) -> Option<&RequestText>
    ensures { MatchOption result (is_request (seen item.now) ≡ false)
        (λ text. seen item.now ≡ asks (reading_of text.now)) }
{
    match item {
        Item::Ask(text) => Some(text),
        Item::Edit(_)
        | Item::Publish
        | Item::Sync
        | Item::Has { .. }
        | Item::Rows { .. }
        | Item::Roles { .. }
        | Item::Users { .. }
        | Item::Keep(_)
        | Item::History(_) => None,
    }
}
