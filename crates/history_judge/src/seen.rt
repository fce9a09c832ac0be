//! What an application sees of a device.

use evt_types::{Event, Reply};

/// What a call did with one event.
#[derive(Clone, Copy, Debug, PartialEq, Eq)]
pub enum Deed {
    /// It was enqueued, or a RELEASE was; a dequeue that releases what is held counts as an enqueue of so many.
    Sent(Reply),
    /// It was dequeued.
    Got(Event),
}

/// An event that a call enqueued or dequeued. The events of one call share its times.
#[derive(Clone, Copy, Debug, PartialEq, Eq)]
pub struct Seen {
    pub port: usize,
    /// The time before the call.
    pub began: u64,
    /// The time after it.
    pub ended: u64,
    pub deed: Deed,
}
