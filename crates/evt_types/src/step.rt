//! The steps of a transcript: what the scheduler did, in its order.

use crate::event::Event;

/// Where an accepted event came from.
#[derive(Clone, Copy, Debug, PartialEq, Eq)]
pub enum Source {
    /// A NEW of the lane.
    New { lane: usize },
    /// A FORWARD or FORWARD_MORE of the holder of the event of this number of the queue.
    Of { queue: usize, number: u64 },
}

/// How an event was answered.
#[derive(Clone, Copy, Debug, PartialEq, Eq)]
pub enum Outcome {
    Forwarded(Event),
    Released,
}

/// One step of the scheduler.
#[derive(Clone, Copy, Debug, PartialEq, Eq)]
pub enum Step {
    /// The queue accepted the event, which has the queue's next number.
    Accept {
        queue: usize,
        event: Event,
        source: Source,
    },
    /// The lane was given the event of this number of the queue.
    Give {
        lane: usize,
        queue: usize,
        number: u64,
    },
    /// The lane's oldest unanswered event was answered.
    Done {
        lane: usize,
        outcome: Outcome,
    },
    /// An event was added beside the lane's oldest unanswered event, which stays unanswered.
    More {
        lane: usize,
        event: Event,
    },
    /// A NEW of the lane was turned away, since the device is shut.
    Turned {
        lane: usize,
        event: Event,
    },
    /// The lane's ring had no room for a delivery.
    Bounced {
        lane: usize,
    },
    /// The scheduler saw that the device is shut.
    Shut,
}
