ghost use Rattle.std.specs.Prelude.{◌≡◌, ◌<◌, ◌^◌};
ghost use Rattle.live_meaning.specs.Helps.Counted.{answer, counted, entered, learned};

use crate::events::{Event, Reply, StepStop};

/// The numbers that answer an event: how many edits, notes and seats there are, and the version that is published.
#[derive(Clone, Copy)]
pub(crate) struct Counts {
    pub(crate) versions: u64,
    pub(crate) notes: u64,
    pub(crate) seats: u64,
    pub(crate) published: u64,
}

impl Counts {
    /// Those of no events.
    pub(crate) const NONE: Counts = Counts {
        versions: 0,
        notes: 0,
        seats: 0,
        published: 0,
    };

    /// Those behind one event more.
    pub(crate) fn with(self, event: &Event) -> Counts
        requires versions { self.versions < 2 ^ 63 }
        requires notes { self.notes < 2 ^ 63 }
        requires seats { self.seats < 2 ^ 63 }
        ensures { result ≡ counted self event.now }
    {
        let mut counts = self;
        match event {
            Event::Edit(_) => counts.versions += 1,
            Event::Publish => counts.published = counts.versions,
            Event::Note => counts.notes += 1,
            Event::Seat => counts.seats += 1,
            Event::Learn { .. } | Event::Enter { .. } => {}
        }
        counts
    }

    /// What an event is answered behind those that were counted.
    pub(crate) fn answer(self, event: &Event) -> Result<Reply, StepStop>
        ensures { result ≡ answer self event.now }
    {
        match event {
            Event::Edit(_) => Ok(Reply::Done),
            Event::Publish => Ok(Reply::Published {
                version: self.versions,
            }),
            Event::Note => Ok(Reply::Noted { note: self.notes }),
            Event::Learn { seat, note } => self.learned(*seat, *note),
            Event::Enter { seat } => self.entered(*seat),
            Event::Seat => Ok(Reply::Seated { seat: self.seats }),
        }
    }

    // What a seat that learns of a note is answered.
    fn learned(self, seat: u64, note: u64) -> Result<Reply, StepStop>
        ensures { result ≡ learned self seat note }
    {
        if seat >= self.seats {
            return Err(StepStop::NoSeat);
        }
        if note >= self.notes {
            return Err(StepStop::NoNote);
        }
        Ok(Reply::Done)
    }

    // What a seat that enters is answered.
    fn entered(self, seat: u64) -> Result<Reply, StepStop>
        ensures { result ≡ entered self seat }
    {
        if seat >= self.seats {
            return Err(StepStop::NoSeat);
        }
        Ok(Reply::Entered {
            version: self.published,
        })
    }
}
