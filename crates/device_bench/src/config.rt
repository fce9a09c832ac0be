//! The device of a case.

use crate::case::Case;
use crate::fault::BenchFault;
use evt_types::{Draft, Kind, MAX_DEPTH, MAX_ORDER, MAX_SLOTS, PortDraft, QueueDraft, Shape};
use std::alloc::{AllocError, Global};

/// How many events may be inside.
const LIMIT: u32 = 4096;
/// How many credits a port draws at a time.
const QUANTUM: u32 = 32;
/// How many replies of a lane one sweep takes, and how many events of a queue it gives.
const SWEEP: u32 = 64;

/// A queue of this kind.
fn queue(kind: Kind) -> QueueDraft {
    QueueDraft {
        kind,
        priority: 128,
        slots: if kind == Kind::Atomic { MAX_SLOTS } else { 0 },
        order: if kind == Kind::Ordered { MAX_ORDER } else { 0 },
        single: false,
    }
}

/// A port that is linked to these queues.
fn port(alloc: Global, links: &[u32]) -> Result<PortDraft, AllocError> {
    Ok(PortDraft {
        threshold: LIMIT,
        depth: MAX_DEPTH,
        replies: MAX_DEPTH,
        implicit: false,
        links: Vec::from_slice(alloc, links)?,
    })
}

/// A device with the queue of the case and a parallel one, a port that brings events in, and one that handles them.
pub fn bench_shape(alloc: Global, case: Case) -> Result<Shape, BenchFault> {
    let queues = [queue(case.kind), queue(Kind::Parallel)];
    let ports = [port(alloc, &[])?, port(alloc, &[0, 1])?];
    let draft = Draft {
        limit: LIMIT,
        quantum: QUANTUM,
        sweep: SWEEP,
        serving: case.serving,
        queues: Vec::from_array(alloc, queues)?,
        ports: Vec::from_array(alloc, ports)?,
    };
    match Shape::build(alloc, &draft) {
        Ok(shape) => Ok(shape),
        Err(_) => Err(BenchFault::Device),
    }
}
