//! What the calls of ports and of the scheduler answer.

use thiserror::Error;

/// Why an event isn't taken; of several causes the first, in the order that `Port::enqueue` names.
#[derive(Clone, Copy, Debug, PartialEq, Eq, Error)]
pub enum Refused {
    /// The device is shut: it takes no NEW any more, and gives no credits for a FORWARD_MORE.
    #[error("the device is shut and takes no new event")]
    Stopped,
    /// There is no queue of the event's number.
    #[error("there is no queue of the event's number")]
    BadQueue,
    /// Nothing is held that could be answered, or beside which an event could be added.
    #[error("the port holds no event that could be forwarded or released")]
    NothingHeld,
    /// So many credits were free; with a quantum more, more than the port's threshold would be in use.
    #[error("too few credits are free for a new event: {free}")]
    Backpressure { free: u64 },
    /// Other ports changed the credits between the reads, the last two of which found these words.
    #[error("other ports changed the credits meanwhile")]
    Raced { first: u64, second: u64 },
    /// The reply ring of the lane had no room.
    #[error("the port's reply ring is full")]
    Full,
    /// As many events were added beside the oldest event that is held as may be.
    #[error("as many events were added beside the port's oldest event as may be")]
    TooMany,
}

/// A reply ring had no room for all releases that a dequeue makes first; nothing was received.
#[derive(Clone, Copy, Debug, PartialEq, Eq, Error)]
#[error("the port's reply ring is full: {released} events were released, and others are still held")]
pub struct Behind {
    /// How many were released.
    pub released: usize,
}

/// What a sweep did: how many replies it took, how many events it gave, and how many lanes' rings had no room.
#[derive(Clone, Copy, Debug, PartialEq, Eq)]
pub struct Swept {
    pub taken: usize,
    pub given: usize,
    pub bounced: usize,
}

/// Why a device isn't stopped.
#[derive(Clone, Copy, Debug, PartialEq, Eq, Error)]
pub enum StopFault {
    /// The port of this number isn't there; those below it are.
    #[error("port {port} is missing")]
    Missing { port: usize },
    /// Memory ran out.
    #[error("memory ran out")]
    Memory,
}
