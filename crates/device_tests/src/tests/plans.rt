//! The plans of devices.

use super::fault::RigFault;
use evt_types::{Draft, PortDraft, QueueDraft, Serving, Shape};
use std::alloc::{AllocError, Global};

/// A port of a device: its threshold, the depth and the replies of its lane, and its links.
pub(crate) type PortPlan = (u32, u32, u32, &'static [u32]);

/// A device.
#[derive(Clone, Copy)]
pub(crate) struct Plan {
    pub(crate) limit: u32,
    pub(crate) quantum: u32,
    pub(crate) sweep: u32,
    pub(crate) serving: Serving,
    pub(crate) queues: &'static [QueueDraft],
    pub(crate) ports: &'static [PortPlan],
}

impl Plan {
    /// Its configuration, checked.
    pub(crate) fn shape(&self, alloc: Global) -> Result<Shape, RigFault> {
        let draft = Draft {
            limit: self.limit,
            quantum: self.quantum,
            sweep: self.sweep,
            serving: self.serving,
            queues: Vec::from_slice(alloc, self.queues)?,
            ports: self.port_drafts(alloc)?,
        };
        let shape = Shape::build(alloc, &draft)?;
        Ok(shape)
    }

    fn port_drafts(&self, alloc: Global) -> Result<Vec<PortDraft>, AllocError> {
        let mut drafts = Vec::with_capacity(alloc, self.ports.len())?;
        for (threshold, depth, replies, links) in self.ports {
            drafts.push(PortDraft {
                threshold: *threshold,
                depth: *depth,
                replies: *replies,
                implicit: false,
                links: Vec::from_slice(alloc, links)?,
            })?;
        }
        Ok(drafts)
    }
}
