//! The devices of the runs.

use crate::fault::RunFault;
use evt_types::{Draft, Kind, PortDraft, QueueDraft, Serving, Shape};
use std::alloc::{AllocError, Global};

/// A device.
#[derive(Clone, Copy)]
pub(crate) struct Device {
    pub(crate) name: &'static str,
    limit: u32,
    serving: Serving,
    /// The kind of each queue, and how many slots or open events it has.
    queues: &'static [(Kind, u32)],
    /// The depth and the links of each port.
    ports: &'static [(u32, &'static [u32])],
}

/// A parallel queue, an atomic one, ordered ones, all kinds, and flow lanes.
pub(crate) static DEVICES: [Device; 5] = [
    Device {
        name: "a parallel queue",
        limit: 6,
        serving: Serving::Ports,
        queues: &[(Kind::Parallel, 1)],
        ports: &[(4, &[]), (3, &[0]), (2, &[0])],
    },
    Device {
        name: "atomic queues of few slots",
        limit: 8,
        serving: Serving::Ports,
        queues: &[(Kind::Atomic, 2), (Kind::Atomic, 3)],
        ports: &[(4, &[0]), (3, &[0, 1]), (4, &[1, 0])],
    },
    Device {
        name: "ordered queues of few places",
        limit: 10,
        serving: Serving::Ports,
        queues: &[(Kind::Ordered, 3), (Kind::Ordered, 5)],
        ports: &[(4, &[]), (2, &[0]), (3, &[0, 1]), (2, &[1, 0])],
    },
    Device {
        name: "queues of all kinds",
        limit: 12,
        serving: Serving::Ports,
        queues: &[(Kind::Parallel, 1), (Kind::Atomic, 2), (Kind::Ordered, 4)],
        ports: &[(4, &[0, 1]), (4, &[2]), (6, &[0, 1, 2])],
    },
    Device {
        name: "flow lanes beside an ordered and a parallel queue",
        limit: 10,
        serving: Serving::Flows,
        queues: &[(Kind::Ordered, 4), (Kind::Atomic, 3), (Kind::Parallel, 1)],
        ports: &[(4, &[]), (3, &[0, 1]), (4, &[2, 1, 0])],
    },
];

fn queue_draft(&(kind, count): &(Kind, u32)) -> QueueDraft {
    QueueDraft {
        kind,
        priority: 128,
        slots: count,
        order: count,
        single: false,
    }
}

impl Device {
    /// Its configuration, checked.
    pub(crate) fn shape(&self, alloc: Global) -> Result<Shape, RunFault> {
        let draft = Draft {
            limit: self.limit,
            quantum: 2,
            sweep: 4,
            serving: self.serving,
            queues: self.queue_drafts(alloc)?,
            ports: self.port_drafts(alloc)?,
        };
        Ok(Shape::build(alloc, &draft)?)
    }

    fn queue_drafts(&self, alloc: Global) -> Result<Vec<QueueDraft>, AllocError> {
        self.queues.iter().map(queue_draft).collect(alloc)
    }

    fn port_drafts(&self, alloc: Global) -> Result<Vec<PortDraft>, AllocError> {
        let mut drafts = Vec::with_capacity(alloc, self.ports.len())?;
        for (depth, links) in self.ports {
            drafts.push(PortDraft {
                threshold: 2,
                depth: *depth,
                replies: 4,
                implicit: false,
                links: Vec::from_slice(alloc, links)?,
            })?;
        }
        Ok(drafts)
    }
}
