//! What no device can have done.

/// Why no run of a device fits what was seen; entries are named by their places in it.
#[derive(Clone, Copy, Debug, PartialEq, Eq)]
pub enum Breach {
    /// A port got an event of a queue that isn't there, or of one that it isn't linked to.
    Unlinked { at: usize },
    /// Two ports held events of one slot of an atomic queue at the same time.
    Together { at: usize, other: usize },
    /// A port got an event that nobody enqueued, or one that came more often than it was enqueued.
    Unsent { at: usize },
    /// A port got an event before anyone began to enqueue one of its value.
    Early { at: usize },
    /// Of two events that a port enqueued to a queue that keeps their order the later one was dequeued first, by the other entry.
    Overtaken { at: usize, other: usize },
    /// Two events that a port enqueued to a queue that keeps their order were forwarded to another that keeps that of what they were
    /// forwarded as, and what the later one was forwarded as was dequeued first, by the other entry.
    Reordered { at: usize, other: usize },
    /// A port held more events than its depth.
    Overfull { at: usize },
    /// The ports together held more events than the limit and the rings of their replies have room for.
    Crowded { at: usize },
}
