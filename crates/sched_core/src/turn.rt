//! Whose turn it is.

use parked_queue::Level;

/// The queue and level of which an event was given last to a flow lane: as long as nothing but gifts is made, nothing is chosen before what
/// waits there.
#[derive(Clone, Copy)]
pub struct Turn {
    pub(crate) queue: usize,
    pub(crate) level: Level,
}
