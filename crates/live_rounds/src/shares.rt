ghost use Rattle.std.specs.Prelude.{◌≤◌, OnOk};
ghost use Rattle.live_rounds.specs.Helps.Passed.{IsBehindRequests, IsCutBehind};
ghost use Rattle.live_rounds.specs.Shares.{AddsParts};
ghost use Rattle.live_rounds.specs.Stretches.{IsCounted, items_of};
ghost use Rattle.script_read.specs.ItemLines.{said};

use crate::stretch::{Stretch, is_asked};
use outside::NoMemory;
use script_read::ItemLines;

/// Cuts items into parts, one for a worker and one for each of so many others, whose requests are their shares, and puts the parts
/// behind others.
pub(crate) fn push_parts<'a>(
    parts: &mut Vec<Stretch<'a>>,
    items: Stretch<'a>,
    others: u32,
) -> Result<(), NoMemory>
    requires counted { IsCounted items }
    ensures parts { OnOk result (AddsParts others (items_of items.entry)
        parts.old.items parts.new.items) }
{
    if others == 0 {
        parts.push(items)?;
        return Ok(());
    }
    let workers = others as usize + 1;
    let share = items.requests.div_ceil(workers);
    let (part, rest) = cut_behind(&items, share);
    parts.push(part)?;
    push_parts(parts, rest, others - 1)
}

// Cuts items behind the first so many requests.
fn cut_behind<'a>(items: &Stretch<'a>, share: usize) -> (Stretch<'a>, Stretch<'a>)
    requires counted { IsCounted items.now }
    requires within { share ≤ items.now.requests }
    ensures { IsCutBehind share (items_of items.now) result.0 result.1 }
{
    let (rest, count) = behind(items, share);
    let part = Stretch {
        items: items.items.front(count),
        count,
        requests: share,
        before: items.before,
    };
    let left = Stretch {
        items: rest,
        count: items.count - count,
        requests: items.requests - share,
        before: number_of(items.before, count),
    };
    (part, left)
}

// What stands behind the first so many requests, and how many items stand before it.
fn behind<'a>(items: &Stretch<'a>, share: usize) -> (ItemLines<'a>, usize)
    requires counted { IsCounted items.now }
    requires within { share ≤ items.now.requests }
    ensures { IsBehindRequests share (items_of items.now) (said result.0) result.1 }
{
    let mut rest = items.items.again();
    let mut found = rest.pass_asked(share);
    let mut count = found;
    while found < share {
        let Some(first) = rest.next_told() else {
            return (rest, count);
        };
        count += 1;
        found += usize::from(is_asked(&first));
        let asked = rest.pass_asked(share - found);
        count += asked;
        found += asked;
    }
    (rest, count)
}

// The number of the item before a place, behind so many other items.
fn number_of(before: u32, place: usize) -> u32 {
    before.saturating_add(u32::try_from(place).unwrap_or(u32::MAX))
}
