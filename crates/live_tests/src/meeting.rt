//! A gate at which the steps of a round wait for each other, each so long at most.

use live_rounds::Gate;
use std::sync::atomic::{AtomicBool, Ordering};
use std::thread::yield_now;

// How many turns a step waits at most.
const MOST_TURNS: u32 = 1_000_000_000;

/// The requests of lines 3 and 5 wait for each other: two workers are at them at once. The administrator waits behind the first
/// publish for the requests of lines 4 and 6, and these wait for the second publish: so the requests of each worker and the
/// publishes take turns.
#[derive(Drop)]
pub(crate) struct Meeting {
    // Whether the request of this line was reached.
    third: AtomicBool,
    fourth: AtomicBool,
    fifth: AtomicBool,
    sixth: AtomicBool,
    // Whether the second publish was made.
    published: AtomicBool,
    /// Whether a step waited too long.
    pub late: AtomicBool,
}

impl Meeting {
    pub(crate) fn new() -> Meeting {
        Meeting {
            third: AtomicBool::new(false),
            fourth: AtomicBool::new(false),
            fifth: AtomicBool::new(false),
            sixth: AtomicBool::new(false),
            published: AtomicBool::new(false),
            late: AtomicBool::new(false),
        }
    }

    // Waits until a flag is raised.
    fn wait_for(&self, flag: &AtomicBool) {
        for _ in 0..MOST_TURNS {
            if flag.load(Ordering::SeqCst) {
                return;
            }
            yield_now();
        }
        self.late.store(true, Ordering::SeqCst);
    }
}

impl Gate for Meeting {
    fn pass(&self, _worker: u32, ask: u32) {
        if ask == 3 {
            self.third.store(true, Ordering::SeqCst);
            self.wait_for(&self.fifth);
        }
        if ask == 4 {
            self.fourth.store(true, Ordering::SeqCst);
            self.wait_for(&self.published);
        }
        if ask == 5 {
            self.fifth.store(true, Ordering::SeqCst);
            self.wait_for(&self.third);
        }
        if ask == 6 {
            self.sixth.store(true, Ordering::SeqCst);
            self.wait_for(&self.published);
        }
    }

    fn published(&self, version: u32) {
        if version == 1 {
            self.wait_for(&self.fourth);
            self.wait_for(&self.sixth);
        }
        if version == 2 {
            self.published.store(true, Ordering::SeqCst);
        }
    }
}
