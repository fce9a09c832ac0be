//! What the tables of known runs have in common.

use crate::device::Device;
use crate::moves::Packet;
use core_oracle::PlainTook;
use evt_types::{Kind, Op, Serving};

/// An atomic and a parallel queue of a middle priority, with four slots or open events.
pub(crate) const ATOMIC: (Kind, u8, u32) = (Kind::Atomic, 128, 4);

pub(crate) const PARALLEL: (Kind, u8, u32) = (Kind::Parallel, 128, 4);

/// A port that brings events to an atomic queue, and two ports that handle them and hold four each.
pub(crate) const TWO_WORKERS: Device = Device {
    limit: 4,
    sweep: 8,
    serving: Serving::Ports,
    queues: &[ATOMIC],
    ports: &[(4, &[]), (4, &[0]), (4, &[0])],
};

/// A port that brings events to an atomic queue, and one that handles them.
pub(crate) const ONE_WORKER: Device = Device {
    ports: &[(4, &[]), (4, &[0])],
    ..TWO_WORKERS
};

/// The ports of a device with two queues, both of which two ports handle.
pub(crate) const OF_BOTH: &[(u32, &[u32])] = &[(4, &[]), (4, &[0, 1]), (4, &[0, 1])];

/// A new event for the first queue.
pub(crate) const NEW: Packet = Packet {
    op: Op::New,
    queue: 0,
    flow: 7,
    priority: 128,
    payload: 0,
};

/// An event that is forwarded to the second queue.
pub(crate) const FORWARD: Packet = Packet {
    op: Op::Forward,
    queue: 1,
    flow: 7,
    priority: 128,
    payload: 10,
};

/// The oldest unanswered event is released.
pub(crate) const RELEASE: Packet = Packet {
    op: Op::Release,
    queue: 0,
    flow: 0,
    priority: 0,
    payload: 0,
};

/// A reply's event waits in its queue.
pub(crate) const ACCEPTED: Option<PlainTook> = Some(PlainTook::Accepted);
/// It is kept.
pub(crate) const KEPT: Option<PlainTook> = Some(PlainTook::Kept);
/// The event that a reply answers is done with.
pub(crate) const RELEASED: Option<PlainTook> = Some(PlainTook::Released);
/// A reply is turned away.
pub(crate) const TURNED: Option<PlainTook> = Some(PlainTook::Turned);
