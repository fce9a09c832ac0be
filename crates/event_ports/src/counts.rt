//! How often a port enqueued, dequeued and was refused.

ghost use Rattle.std.specs.Prelude.{◌≡◌};
ghost use Rattle.event_ports.specs.Counts.{after_behind, after_burst, after_dequeue, after_enqueue, after_refused, plus};

use event_answers::Refused;

/// What a port counted since it was made. A count that reaches 2^64 - 1 stays there.
#[derive(Clone, Copy, Debug, PartialEq, Eq, Default)]
pub struct PortCounts {
    /// Events that `enqueue` and `enqueue_burst` took.
    pub enqueued: u64,
    /// Deliveries that `dequeue` and `dequeue_burst` gave.
    pub dequeued: u64,
    /// Events that a dequeue released of its own accord, with implicit release; also those before a `Behind`.
    pub released: u64,
    /// Events that were refused with `Stopped`.
    pub stopped: u64,
    /// Events that were refused with `BadQueue`.
    pub bad_queue: u64,
    /// Events that were refused with `NothingHeld`.
    pub nothing_held: u64,
    /// Events that were refused with `Backpressure`.
    pub backpressure: u64,
    /// Events that were refused with `Raced`.
    pub raced: u64,
    /// Events that were refused with `Full`.
    pub full: u64,
    /// Events that were refused with `TooMany`.
    pub too_many: u64,
    /// Dequeues that ended with `Behind`.
    pub behind: u64,
}

impl PortCounts {
    // Counts the enqueue of one event, by its answer.
    pub(crate) fn enqueue(&mut self, answer: &Result<(), Refused>)
        ensures { self.new ≡ after_enqueue answer.now self.old }
    {
        match answer {
            Ok(()) => self.enqueued = self.enqueued.saturating_add(1),
            Err(refused) => self.refuse(*refused),
        }
    }

    // Counts a burst: so many events were taken, and then the end came or a refusal.
    pub(crate) fn enqueue_burst(&mut self, taken: usize, end: &Option<Refused>)
        ensures counted { self.new ≡ after_burst taken end.now self.old }
        ensures taken { self.new.enqueued ≡ plus self.old.enqueued taken }
    {
        self.enqueued = self.enqueued.saturating_add(taken as u64);
        if let Some(refused) = end {
            self.refuse(*refused);
        }
    }

    // Counts a dequeue that first released so many events, and then gave so many deliveries.
    pub(crate) fn dequeue(&mut self, released: usize, came: usize)
        ensures { self.new ≡ after_dequeue released came self.old }
    {
        self.released = self.released.saturating_add(released as u64);
        self.dequeued = self.dequeued.saturating_add(came as u64);
    }

    // Counts a dequeue that released so many events and ended with `Behind`.
    #[cold]
    pub(crate) fn fall_behind(&mut self, released: usize)
        ensures { self.new ≡ after_behind released self.old }
    {
        self.released = self.released.saturating_add(released as u64);
        self.behind = self.behind.saturating_add(1);
    }

    // Apart from what takes an event, since that is the call of which a program makes most.
    #[cold]
    fn refuse(&mut self, refused: Refused)
        ensures { self.new ≡ after_refused refused self.old }
    {
        match refused {
            Refused::Stopped => self.stopped = self.stopped.saturating_add(1),
            Refused::BadQueue => self.bad_queue = self.bad_queue.saturating_add(1),
            Refused::NothingHeld => self.nothing_held = self.nothing_held.saturating_add(1),
            Refused::Backpressure { .. } => self.backpressure = self.backpressure.saturating_add(1),
            Refused::Raced { .. } => self.raced = self.raced.saturating_add(1),
            Refused::Full => self.full = self.full.saturating_add(1),
            Refused::TooMany => self.too_many = self.too_many.saturating_add(1),
        }
    }
}
