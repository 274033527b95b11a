//! Where readers find the front that they are to know of.

use live_pair::{Front, Naming};
use outside::Share;
use std::sync::{Mutex, Wait};

/// The front that was told last. Threads share it.
#[derive(Drop)]
pub(crate) struct Bulletin<J: Naming> {
    last: Mutex<Front<J>>,
}

impl<J: Naming> Bulletin<J> {
    /// It begins with this front.
    pub(crate) fn new(front: Front<J>) -> Bulletin<J> {
        Bulletin {
            last: Mutex::new(front),
        }
    }

    /// Tells a front, in the place of the last one.
    pub(crate) fn tell<R: Wait>(&self, rt: &R, front: Front<J>) {
        *self.last.lock(rt) = front;
    }

    /// The front that was told last. It takes no memory.
    pub(crate) fn last<R: Wait>(&self, rt: &R) -> Front<J> {
        self.last.lock(rt).again()
    }
}

impl<J: Naming + Send + Sync> Share for Bulletin<J> {}
