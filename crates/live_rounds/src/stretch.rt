ghost use Rattle.std.specs.Prelude.{◌≡◌, ◌<◌, [], IfNone, IfOk, IfSome, length};
ghost use Rattle.live_rounds.specs.Scripts.{IsFirstRound};
ghost use Rattle.live_rounds.specs.Stretches.{IsCounted, items_of};
ghost use Rattle.live_rounds.specs.Helps.Passed.{IsPassed, is_asked, is_end};
ghost use Rattle.script_read.specs.ItemLines.{said};

use outside::NoMemory;
use script_read::{FirstItem, ItemLines};

/// Items of a script that stand one behind the other, how many there are, how many of them are requests, and how many items of the
/// script stand before them.
#[derive(Drop)]
pub struct Stretch<'a> {
    pub items: ItemLines<'a>,
    pub count: usize,
    pub requests: usize,
    pub before: u32,
}

impl<'a> Stretch<'a> {
    /// The same.
    pub(crate) fn again(&self) -> Stretch<'a>
        ensures { result ≡ self.now }
    {
        Stretch {
            items: self.items.again(),
            count: self.count,
            requests: self.requests,
            before: self.before,
        }
    }
}

/// Takes the first round off the rest of a script, before which so many items stand: it goes up to and with a `sync`, or to the end.
pub fn next_round<'a>(
    rest: &mut ItemLines<'a>,
    before: u32,
) -> Result<Option<Stretch<'a>>, NoMemory>
    ensures none { IfOk result (λ next. IfNone next (said rest.old ≡ [])) }
    ensures first { IfOk result (λ next. IfSome next (λ round.
        IsFirstRound (said rest.old) (items_of round) (said rest.new))) }
    ensures counted { IfOk result (λ next. IfSome next (λ round. IsCounted round)) }
    ensures before { IfOk result (λ next. IfSome next (λ round. round.before ≡ before)) }
    ensures some { IfOk result (λ next. IfSome next (λ round. 0 < length (items_of round))) }
{
    let whole = rest.again();
    let (count, requests) = pass_round(rest)?;
    if count == 0 {
        return Ok(None);
    }
    let items = whole.front(count);
    Ok(Some(Stretch {
        items,
        count,
        requests,
        before,
    }))
}

// Takes the first round off, and says how many items it has, and how many of them are requests.
fn pass_round(rest: &mut ItemLines<'_>) -> Result<(usize, usize), NoMemory>
    ensures { IfOk result (λ counts. IsPassed counts.0 counts.1 (said rest.old) (said rest.new)) }
{
    let mut requests = rest.pass_asked(usize::MAX);
    let mut count = requests;
    while let Some(first) = rest.next_told() {
        let Some(more) = count.checked_add(1) else {
            return Err(NoMemory);
        };
        count = more;
        if is_end(&first) {
            return Ok((count, requests));
        }
        requests += usize::from(is_asked(&first));
        let asked = rest.pass_asked(usize::MAX - count);
        requests += asked;
        count += asked;
    }
    Ok((count, requests))
}

// Whether an item ends a round.
fn is_end(first: &FirstItem<'_>) -> bool
    ensures { result ≡ is_end first.now }
{
    matches!(first, FirstItem::Sync)
}

/// Whether an item is a request.
pub(crate) fn is_asked(first: &FirstItem<'_>) -> bool
    ensures { result ≡ is_asked first.now }
{
    matches!(first, FirstItem::Request(_))
}
