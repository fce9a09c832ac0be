//! How long the threads of a run take.

use pipeline_app::Gate;
use std::sync::atomic::{AtomicU64, Ordering};
use std::time::{Clock, Instant};

/// A gate that holds nobody up, and notes when the whole trace has gone through. What a run takes after that are the check and the text
/// of its log.
#[derive(Drop)]
pub struct Timer<'a, R> {
    rt: &'a R,
    /// When it began; `None` where the clock fails.
    began: Option<Instant>,
    events: u64,
    nanoseconds: AtomicU64,
}

impl<'a, R: Clock> Timer<'a, R> {
    /// A timer that begins now, for a trace of so many events.
    pub fn new(rt: &'a R, events: u64) -> Timer<'a, R> {
        Timer {
            rt,
            began: Instant::now(rt).ok(),
            events,
            nanoseconds: AtomicU64::new(0),
        }
    }

    /// The nanoseconds until the trace had gone through; 0 where it hasn't or the clock failed.
    pub fn nanoseconds(&self) -> u64 {
        self.nanoseconds.load(Ordering::SeqCst)
    }

    /// The nanoseconds since it began.
    fn passed(&self) -> Option<u64> {
        u64::try_from(self.began?.elapsed(self.rt).ok()?.as_nanos()).ok()
    }
}

impl<R: Clock + Sync> Gate for Timer<'_, R> {
    fn enter(&self, _worker: usize, _payload: u64) {}

    fn swept(&self, accepted: u64, inside: usize) {
        if accepted == self.events && inside == 0 {
            self.nanoseconds
                .store(self.passed().unwrap_or(0), Ordering::SeqCst);
        }
    }
}
