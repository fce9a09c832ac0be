//! Room for a stop.

ghost use Rattle.std.specs.Prelude.{IfOk};
ghost use Rattle.event_device.specs.Room.{HasRoom, HasRoomToList};

use crate::list_events::{room_for_kept, room_for_waiting};
use event_answers::Report;
use event_ports::{Port, Rest};
use evt_types::MAX_DEPTH;
use lane_rings::Far;
use sched_core::Core;
use std::alloc::Global;
use step_log::Memory;

/// Room for all that a stop takes apart and lists, so that nothing can fail once it has begun.
#[derive(Drop)]
pub(crate) struct Room {
    /// The ports by number, and what is left of them.
    pub ports: Vec<Port>,
    pub rests: Vec<Rest>,
    /// The holders' ends of the flow lanes, and of all lanes.
    pub ends: Vec<Far>,
    pub fars: Vec<Far>,
    /// The report but for its log, of which nothing is listed.
    pub report: Report<()>,
}

/// A report without a log that lists nothing, with room for what is left in a device with this core.
fn empty_report(alloc: Global, core: &Core) -> Result<Report<()>, Memory>
    ensures { IfOk result (HasRoomToList core.now) }
{
    let shape = core.shape();
    let ports = shape.ports().len();
    let most = MAX_DEPTH as usize * shape.lanes();
    let _ = shape.limit();
    Ok(Report {
        log: (),
        waiting: room_for_waiting(alloc, core)?,
        kept: room_for_kept(alloc, core)?,
        undelivered: Vec::with_capacity(alloc, most)?,
        held: Vec::with_capacity(alloc, MAX_DEPTH as usize * ports)?,
        untaken: Vec::with_capacity(alloc, 2 * most)?,
        turned: Vec::new(alloc),
        free: 0,
        pockets: Vec::with_capacity(alloc, ports)?,
        own: 0,
    })
}

impl Room {
    /// Room for the stop of a device with this core.
    pub(crate) fn reserve(alloc: Global, core: &Core) -> Result<Room, Memory>
        ensures { IfOk result (HasRoom core.now) }
    {
        let shape = core.shape();
        let ports = shape.ports().len();
        Ok(Room {
            ports: Vec::with_capacity(alloc, ports)?,
            rests: Vec::with_capacity(alloc, ports)?,
            ends: Vec::with_capacity(alloc, shape.flows().len())?,
            fars: Vec::with_capacity(alloc, shape.lanes())?,
            report: empty_report(alloc, core)?,
        })
    }
}
