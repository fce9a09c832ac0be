//! How a thread waits while there is nothing for it to do.

use std::hint::spin_loop;
use std::thread;

/// How often a thread looks again before it yields. What it waits for often comes, from a thread on another processor, in less time
/// than a yield takes. Where threads share a processor a look only keeps the others waiting, and one at flow lanes tries each of
/// them, so the looks are few.
const LOOKS: u8 = 2;

/// How often a thread has looked in vain.
#[derive(Clone, Copy, Drop)]
pub(crate) struct Patience {
    looks: u8,
}

impl Patience {
    /// It hasn't looked yet.
    pub(crate) fn new() -> Patience {
        Patience { looks: 0 }
    }

    /// Waits a moment before the next look; after some looks it lets other threads run instead.
    pub(crate) fn wait(&mut self) {
        if self.looks < LOOKS {
            self.looks += 1;
            spin_loop();
        } else {
            self.looks = 0;
            thread::yield_now();
        }
    }
}
