//! What is left in a device that was stopped.

use evt_types::{Delivery, Event, KeptEvent, Step};

/// An event that its lane was given and that no port has dequeued.
#[derive(Clone, Copy, Debug, PartialEq, Eq)]
pub struct Undelivered {
    pub lane: usize,
    pub queue: usize,
    pub number: u64,
    pub event: Event,
}

/// An event that its port has dequeued and not answered.
#[derive(Clone, Copy, Debug, PartialEq, Eq)]
pub struct Held {
    pub port: usize,
    pub queue: usize,
    pub number: u64,
}

/// A NEW, a FORWARD or a FORWARD_MORE that the scheduler has not taken.
#[derive(Clone, Copy, Debug, PartialEq, Eq)]
pub struct Untaken {
    pub lane: usize,
    pub event: Event,
}

/// A NEW that the scheduler turned away, since the device was shut.
#[derive(Clone, Copy, Debug, PartialEq, Eq)]
pub struct Turned {
    pub lane: usize,
    pub event: Event,
}

/// What a device's scheduler did, and where the events and credits are that are left in it.
#[derive(Debug, Drop)]
pub struct Report<L = Vec<Step>> {
    /// The log of all sweeps.
    pub log: L,
    /// The events that wait, by queue and number, each as it would have been delivered.
    pub waiting: Vec<Delivery>,
    /// The events that an ordered queue keeps until all that it handed out before is answered, by queue, in hand-out order; those that
    /// one event was passed on as in the order in which they were given.
    pub kept: Vec<KeptEvent>,
    /// By lane, oldest first.
    pub undelivered: Vec<Undelivered>,
    /// By port, oldest first.
    pub held: Vec<Held>,
    /// By lane, oldest first.
    pub untaken: Vec<Untaken>,
    /// The NEWs that were turned away, in the order in which they were taken. Their credits went back.
    pub turned: Vec<Turned>,
    /// The credits that any port could draw.
    pub free: u64,
    /// The credits in each port's pocket.
    pub pockets: Vec<u64>,
    /// The credits in the scheduler's pocket.
    pub own: u64,
}
