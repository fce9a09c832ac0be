//! The configuration of a device, as it is asked for.

use crate::event::Kind;

/// Who hands the events of atomic queues out.
#[derive(Clone, Copy, Debug, PartialEq, Eq)]
pub enum Serving {
    /// The scheduler, to the ports.
    Ports,
    /// The scheduler, to a lane for each slot of an atomic queue, which the ports claim.
    Flows,
}

/// A queue that is asked for. `slots` counts for an atomic queue alone, `order` for an ordered one.
#[derive(Clone, Copy, Debug, PartialEq, Eq)]
pub struct QueueDraft {
    pub kind: Kind,
    /// 0 is served first, 255 last.
    pub priority: u8,
    /// Into how many slots the flows of an atomic queue fall.
    pub slots: u32,
    /// How many events of an ordered queue may be handed out before the first of them is answered.
    pub order: u32,
    /// A single-link queue: one port alone is linked to it.
    pub single: bool,
}

/// A port that is asked for.
#[derive(Debug, Drop)]
pub struct PortDraft {
    /// Up to how many events may be inside the device for a NEW of this port.
    pub threshold: u32,
    /// How many events it may hold.
    pub depth: u32,
    /// The room of its reply ring.
    pub replies: u32,
    /// Whether a dequeue releases what is held.
    pub implicit: bool,
    /// The queues from which it dequeues.
    pub links: Vec<u32>,
}

/// A device that is asked for.
#[derive(Debug, Drop)]
pub struct Draft {
    /// How many events may be inside.
    pub limit: u32,
    /// How many credits a port draws at a time.
    pub quantum: u32,
    /// How many replies of a lane, and how many events of a queue, one sweep takes and gives.
    pub sweep: u32,
    pub serving: Serving,
    pub queues: Vec<QueueDraft>,
    pub ports: Vec<PortDraft>,
}
