//! The configuration of the device, one atomic queue and two ports, and the events that go through it.

use anyhow::{Context, Result};
use evt_types::{Draft, Event, Kind, Op, PortDraft, QueueDraft, Serving, Shape};
use std::alloc::{AllocError, Global};

/// A port that dequeues from these queues. With implicit release, as in DPDK, a dequeue first releases what the port still holds.
fn port(alloc: Global, links: &[u32]) -> Result<PortDraft, AllocError> {
    Ok(PortDraft {
        threshold: 32,
        depth: 8,
        replies: 16,
        implicit: true,
        links: Vec::from_slice(alloc, links)?,
    })
}

/// What `rte_event_dev_configure`, `rte_event_queue_setup`, `rte_event_port_setup` and `rte_event_port_link` say in DPDK.
pub fn shape(alloc: Global) -> Result<Shape> {
    let queue = QueueDraft {
        kind: Kind::Atomic,
        priority: 128,
        slots: 16,
        order: 0,
        single: false,
    };
    let draft = Draft {
        limit: 32,
        quantum: 16,
        sweep: 16,
        serving: Serving::Ports,
        queues: Vec::from_array(alloc, [queue])?,
        ports: Vec::from_array(alloc, [port(alloc, &[])?, port(alloc, &[0])?])?,
    };
    let shape = Shape::build(alloc, &draft).ok();
    shape.context("the configuration is refused")
}

/// A new event of flow 7 for queue 0.
fn new_event(payload: u64) -> Event {
    Event {
        flow: 7,
        sub_type: 0,
        event_type: 0,
        op: Op::New,
        queue: 0,
        priority: 128,
        impl_opaque: 0,
        payload,
    }
}

/// Ten new events, with the payloads from 0 to 9.
pub fn new_events() -> [Event; 10] {
    let mut events = [new_event(0); 10];
    for (place, event) in events.iter_mut().enumerate() {
        event.payload = place as u64;
    }
    events
}
