//! The device of a run: an atomic queue, parallel ones, a port that brings events in, one that is kept busy, and worker ports.

use crate::fault::BenchFault;
use evt_types::{
    Draft, Kind, MAX_DEPTH, MAX_LIMIT, MAX_SLOTS, MAX_SWEEP, PortDraft, QueueDraft, Serving, Shape,
};
use std::alloc::{AllocError, Global};

/// The lane of the port that brings events in.
pub const SOURCE: usize = 0;
/// The lane of the busy port. The first event of a run goes to it, since it is the first lane that serves the queue.
pub const BUSY: usize = 1;

/// A queue of this kind, with so many slots.
fn queue(kind: Kind, slots: u32) -> QueueDraft {
    QueueDraft {
        kind,
        priority: 128,
        slots,
        order: 0,
        single: false,
    }
}

/// The atomic queue, and parallel ones up to the count: the slots of all atomic queues together are few.
fn all_queues(alloc: Global, count: u32) -> Result<Vec<QueueDraft>, AllocError> {
    let mut queues = Vec::from_array(alloc, [queue(Kind::Atomic, MAX_SLOTS)])?;
    for _ in 1..count {
        queues.push(queue(Kind::Parallel, 0))?;
    }
    Ok(queues)
}

/// A port that is linked to these queues.
fn port(alloc: Global, links: &[u32]) -> Result<PortDraft, AllocError> {
    Ok(PortDraft {
        threshold: MAX_LIMIT,
        depth: MAX_DEPTH,
        replies: MAX_DEPTH,
        implicit: false,
        links: Vec::from_slice(alloc, links)?,
    })
}

/// The source, the busy port and so many workers. All but the source are linked to these queues.
fn all_ports(alloc: Global, workers: u64, links: &[u32]) -> Result<Vec<PortDraft>, AllocError> {
    let mut ports = Vec::from_array(alloc, [port(alloc, &[])?, port(alloc, links)?])?;
    for _ in 0..workers {
        ports.push(port(alloc, links)?)?;
    }
    Ok(ports)
}

/// The device's configuration.
pub fn bench_shape(alloc: Global, queues: u32, workers: u64) -> Result<Shape, BenchFault> {
    let links: Vec<u32> = (0..queues).collect(alloc)?;
    let draft = Draft {
        limit: MAX_LIMIT,
        quantum: 1,
        sweep: MAX_SWEEP,
        serving: Serving::Ports,
        queues: all_queues(alloc, queues)?,
        ports: all_ports(alloc, workers, &links)?,
    };
    match Shape::build(alloc, &draft) {
        Ok(shape) => Ok(shape),
        Err(_) => Err(BenchFault::Device),
    }
}
