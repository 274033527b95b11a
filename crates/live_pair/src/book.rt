//! The one history of a pair, of which everybody has seen a beginning.
ghost use Rattle.std.specs.Prelude.{◌≡◌, ◌+◌, ◌<◌, ◌≤◌, ◌^◌, ◌++◌, ◌∷◌, [], None, IsTrue, length};
ghost use Rattle.live_pair.specs.Helps.Rules.{head_of};
ghost use Rattle.version_log.specs.Log.{most_versions};

use crate::edits::{Edits, HistoryEvent};
use crate::naming::Naming;
use crate::told::Told;
use logbook::{Gain, Offer, Plain, Play, Rule, Seen, Start, Word};
use std::marker::{Model, PhantomData};

/// The rule of the book.
pub struct Law;

impl Rule<HistoryEvent, u64> for Law {
    ghost use Rattle.std.specs.Prelude.{[]};
    ghost use base.Fml.{ftrue};
    ghost use Rattle.live_pair.specs.Helps.Rules.{IsKept};

    ghost holds = { λ cells log. IsKept cells log };

    ghost first = { [] };

    ghost hinted = { λ n log. Unit {0} };

    ghost shows = { λ log. [] };

    ghost keeps = { λ names log. ftrue };

    ghost moves = { λ ask before after answer. Unit {0} };
}

// Callers trade nothing.
struct Nothing;

impl Gain<HistoryEvent, u64> for Nothing {
    ghost use base.Fml.{ftrue};

    ghost after = { λ names about answer. ftrue };
}

/// A step that adds an event.
pub struct Add;

impl Play<HistoryEvent, u64> for Add {
    ghost use Rattle.live_pair.specs.Helps.Rules.{Adds};

    ghost then = { Adds };
}

impl Plain<Edits, HistoryEvent, u64> for Add {
    ghost use Rattle.std.specs.Prelude.{None};
    ghost use Rattle.live_pair.specs.declared.edits.HistoryEvent.TheVariants.{Staged};

    ghost ask = { λ edits. Staged edits };

    ghost state = { λ edits. None };
}

impl Plain<(), HistoryEvent, u64> for Add {
    ghost use Rattle.std.specs.Prelude.{None};
    ghost use Rattle.live_pair.specs.declared.edits.HistoryEvent.TheVariants.{Publish};

    ghost ask = { λ nothing. Publish };

    ghost state = { λ nothing. None };
}

/// A book with an empty history, for one pair. Contracts see which book it is.
#[derive(Drop)]
pub struct OpenedBook {
    head: Word<HistoryEvent, u64, Law>,
    seen: Seen<HistoryEvent, u64, Law>,
}

impl Model for OpenedBook {
    ghost use Rattle.std.specs.Prelude.{◌≡◌, []};
    ghost use Rattle.live_pair.specs.Helps.Rules.{head_of};
    ghost use Rattle.logbook.specs.Pages.{Book};

    ghost Value = { Book };

    ghost view = { λ o. o.seen.book };

    ghost invariant = { λ o. (o.seen.log ≡ []) × (o.head ≡ head_of o.seen.book) };
}

/// The word that all copies share: how long the history is.
#[derive(Drop)]
pub struct Head<J: Naming> {
    word: Word<HistoryEvent, u64, Law>,
    of: PhantomData<J>,
    ghost word_is: { word ≡ head_of J.book },
}

impl OpenedBook {
    /// A book that no other has. It takes no memory.
    pub fn new() -> OpenedBook {
        let (seen, mut first, _second) = Seen::open(Start::alone(), 0, 0);
        OpenedBook {
            head: Word::tracked(0, &mut first),
            seen,
        }
    }

    /// The head of the book under its name, and the beginning in which nothing has happened, for a policy that had so many edits.
    pub(crate) fn named<J: Naming>(self, version: u32) -> (Head<J>, Told<J>)
        requires book { self ≡ J.book }
        requires version { version ≡ length J.first }
        requires few { length J.first ≤ most_versions }
        ensures { result.1 ≡ [] }
    {
        let OpenedBook { head, seen } = self;
        let head = Head {
            word: head,
            of: PhantomData,
        };
        (head, Told::new(seen, version))
    }
}

/// Adds an event to all that was seen, and says whether it did.
pub(crate) fn append_event<J: Naming, X, M: Plain<X, HistoryEvent, u64>>(
    seen: &mut Seen<HistoryEvent, u64, Law>,
    head: &Head<J>,
    entries: u64,
    about: &X,
) -> bool
    requires pair { seen.old.book ≡ J.book }
    requires entries { entries ≡ length seen.old.log }
    requires room { entries < 2 ^ 62 }
    requires fresh { M.state about.now ≡ None }
    ensures pair { seen.new.book ≡ J.book }
    ensures added { IsTrue result → seen.new.log ≡ seen.old.log ++ M.ask about.now ∷ [] }
{
    let mut offer: Offer<HistoryEvent, u64, Law, Nothing> = seen.plain::<Nothing, X, M>(about);
    let mut pen = seen.no_pen();
    let found = head
        .word
        .compare_exchange::<Add, Nothing>(entries, entries + 1, seen, &mut offer, &mut pen);
    found == entries
}
