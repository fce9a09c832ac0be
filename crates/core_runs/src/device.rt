//! The devices of the runs.

use crate::fault::RunFault;
use evt_types::{Draft, Kind, PortDraft, QueueDraft, Serving, Shape};
use std::alloc::{AllocError, Global};

/// A device.
#[derive(Clone, Copy)]
pub(crate) struct Device {
    pub(crate) limit: u32,
    pub(crate) sweep: u32,
    pub(crate) serving: Serving,
    /// The kind and the priority of each queue, and how many slots or open events it has.
    pub(crate) queues: &'static [(Kind, u8, u32)],
    /// The depth and the links of each port.
    pub(crate) ports: &'static [(u32, &'static [u32])],
}

fn queue_draft(&(kind, priority, count): &(Kind, u8, u32)) -> QueueDraft {
    QueueDraft {
        kind,
        priority,
        slots: count,
        order: count,
        single: false,
    }
}

impl Device {
    /// Its configuration, checked.
    pub(crate) fn shape(&self, alloc: Global) -> Result<Shape, RunFault> {
        let draft = Draft {
            limit: self.limit,
            quantum: 2,
            sweep: self.sweep,
            serving: self.serving,
            queues: self.queue_drafts(alloc)?,
            ports: self.port_drafts(alloc)?,
        };
        Ok(Shape::build(alloc, &draft)?)
    }

    fn queue_drafts(&self, alloc: Global) -> Result<Vec<QueueDraft>, AllocError> {
        self.queues.iter().map(queue_draft).collect(alloc)
    }

    fn port_drafts(&self, alloc: Global) -> Result<Vec<PortDraft>, AllocError> {
        let mut drafts = Vec::with_capacity(alloc, self.ports.len())?;
        for (depth, links) in self.ports {
            drafts.push(PortDraft {
                threshold: 2,
                depth: *depth,
                replies: 4,
                implicit: false,
                links: Vec::from_slice(alloc, links)?,
            })?;
        }
        Ok(drafts)
    }

    /// Whether some queue is ordered.
    pub(crate) fn has_ordered(&self) -> bool {
        self.queues.iter().any(|(kind, _, _)| kind.is_ordered())
    }

    /// Whether some queue is not ordered.
    pub(crate) fn has_unordered(&self) -> bool {
        self.queues.iter().any(|(kind, _, _)| !kind.is_ordered())
    }
}
