//! The commands of a script.

use evt_types::Event;

/// One command of a script. The port is one of the document's.
#[derive(Clone, Copy, Debug, PartialEq, Eq)]
pub enum Command {
    /// The port enqueues the event.
    Enqueue { port: usize, event: Event },
    /// The port dequeues, at most this many events.
    Dequeue { port: usize, max: usize },
    /// The scheduler makes one sweep.
    Sweep,
    /// The device is shut: no port may bring new events in.
    Shut,
}
