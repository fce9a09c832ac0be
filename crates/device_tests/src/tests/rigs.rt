//! Devices of one queue, and calls that are made on them, each with what must come of it.

ghost use Rattle.std.specs.Prelude.{IfOk};
ghost use Rattle.event_device.specs.Stop.{AreOf};

use super::asks::Ask;
use super::fault::RigFault;
use super::steps::ATOMIC;
use super::whole::Whole;
use event_device::{Memory, Swept};
use evt_types::{Draft, PortDraft, Serving, Shape};
use std::alloc::{AllocError, Global};

/// A device of one atomic queue: port 0 brings events in, and port 1 is linked to the queue.
#[derive(Clone, Copy)]
pub(crate) struct Rig {
    pub(crate) limit: u32,
    pub(crate) quantum: u32,
    /// Of port 0; port 1 may have all credits.
    pub(crate) threshold: u32,
    /// Of port 1: how many events it may hold, its room for replies, and whether its dequeues release what is held.
    pub(crate) depth: u32,
    pub(crate) replies: u32,
    pub(crate) implicit: bool,
}

/// A rig with ample credits and rings.
pub(crate) const PLAIN: Rig = Rig {
    limit: 4,
    quantum: 2,
    threshold: 4,
    depth: 4,
    replies: 4,
    implicit: false,
};

impl Rig {
    /// Its configuration, checked.
    pub(crate) fn shape(&self, alloc: Global) -> Result<Shape, RigFault> {
        let draft = Draft {
            limit: self.limit,
            quantum: self.quantum,
            sweep: 8,
            serving: Serving::Ports,
            queues: Vec::from_slice(alloc, &[ATOMIC])?,
            ports: self.ports(alloc)?,
        };
        let shape = Shape::build(alloc, &draft)?;
        Ok(shape)
    }

    fn ports(&self, alloc: Global) -> Result<Vec<PortDraft>, AllocError> {
        let mut ports = Vec::with_capacity(alloc, 2)?;
        ports.push(PortDraft {
            threshold: self.threshold,
            depth: 4,
            replies: 4,
            implicit: false,
            links: Vec::new(alloc),
        })?;
        ports.push(PortDraft {
            threshold: self.limit,
            depth: self.depth,
            replies: self.replies,
            implicit: self.implicit,
            links: Vec::from_slice(alloc, &[0])?,
        })?;
        Ok(ports)
    }
}

/// A call, with what must come of it.
#[derive(Clone, Copy)]
pub(crate) enum Made {
    /// The port of this number is asked.
    Port(usize, Ask),
    /// One sweep takes so many replies, gives so many events, and finds no ring full.
    Sweep(usize, usize),
    Shut,
    /// So many NEWs were accepted by now, and so many events are inside.
    Inside(u64, usize),
}

/// Makes the call: whether that came of it which must.
fn is_made(device: &mut Whole, call: &Made) -> Result<bool, Memory> {
    match call {
        Made::Port(number, ask) => Ok(device.port_answers(*number, ask)),
        Made::Sweep(taken, given) => {
            let wanted = Swept {
                taken: *taken,
                given: *given,
                bounced: 0,
            };
            Ok(device.sweep()? == wanted)
        }
        Made::Shut => {
            device.shut();
            Ok(true)
        }
        Made::Inside(accepted, inside) => Ok(device.inside() == (*accepted, *inside)),
    }
}

/// Makes the calls, up to the first of which something else came: its place, and that of its list.
fn first_other(device: &mut Whole, lists: &[&[Made]]) -> Result<Option<(usize, usize)>, Memory> {
    for (list, calls) in lists.iter().enumerate() {
        for (place, call) in calls.iter().enumerate() {
            if !is_made(device, call)? {
                return Ok(Some((list, place)));
            }
        }
    }
    Ok(None)
}

/// A new device of the rig; where it is asked for, after a stop without port 0, which was refused.
pub(crate) fn new_device(alloc: Global, rig: &Rig, refused: bool) -> Result<Whole, RigFault>
    ensures { IfOk result (λ w. AreOf w.recorder w.control w.ports.items) }
{
    let device = Whole::new(alloc, rig.shape(alloc)?)?;
    if !refused {
        return Ok(device);
    }
    device
        .refused_without_first(alloc)
        .ok_or(RigFault::NotMissing)
}

/// Makes the calls on such a device, up to the first of which something else came: its place, and that of its list.
pub(crate) fn other_call(
    alloc: Global,
    rig: &Rig,
    refused: bool,
    lists: &[&[Made]],
) -> Result<Option<(usize, usize)>, RigFault> {
    let mut device = new_device(alloc, rig, refused)?;
    let other = first_other(&mut device, lists);
    drop(device);
    Ok(other?)
}
