//! The ports of a device.

ghost use Rattle.std.specs.Prelude.{◌≡◌, ◌-◌, ◌<◌, length, List, All, IfOk, slice_get};
ghost use Rattle.evt_types.specs.Fault.{IsWithinLimits};
ghost use Rattle.evt_types.specs.Plan.{depth_of};
ghost use Rattle.flow_claims.specs.Claims.{port_of};
ghost use Rattle.flow_claims.specs.Laws.{IsUnused};
ghost use Rattle.lane_rings.specs.Identity.{LaneId, far_id};
ghost use Rattle.event_device.specs.Device.{IsDevice};
ghost use Rattle.event_device.specs.Prepared.{AreNewPorts, FitsPlan, IsNewPort, device_by, device_with};
ghost use Rattle.event_device.specs.Seats.{AreSeats};

use crate::fault::Want;
use crate::shared::{Seats, Shared};
use event_ports::{Parts, Port};
use evt_types::Shape;
use lane_rings::Far;
use std::alloc::Global;
use step_log::Memory;

/// Makes the port of this number, with these seats and this end of its own lane.
fn make_port(
    alloc: Global,
    shape: &Shape,
    shared: &Shared,
    seats: Seats,
    number: usize,
    own: Far,
) -> Result<Port, Memory>
    requires limits { IsWithinLimits shape.now }
    requires number { number < length shape.now.ports }
    requires shared { FitsPlan shape.now shared.now }
    requires seats { AreSeats shared.now seats 1 1 × (port_of seats.claim ≡ number) }
    requires own { ((far_id own).depth ≡ depth_of shape.now number) × IsUnused own }
    ensures { IfOk result (λ p. (lanes : List LaneId) → slice_get lanes number ≡ Some (far_id own) → IsNewPort (device_with shape.now shared.now lanes) number p) }
{
    let draft = &shape.ports()[number];
    let links = Vec::from_slice(alloc, shape.flow_links(number))?;
    let pool = shared.pool.clone()?;
    let claims = shared.claims.clone()?;
    let hints = shared.hints.clone()?;
    let parts = Parts {
        pool,
        credit: seats.credit,
        claims,
        claim: seats.claim,
        flows: shape.flows().len(),
        links,
        hints,
        own,
        depth: shape.depth_of(number),
        number,
        queues: shape.queues().len(),
        implicit: draft.implicit,
        quantum: u64::from(shape.quantum()),
        threshold: u64::from(draft.threshold),
    };
    match Port::new(alloc, parts) {
        Ok(port) => Ok(port),
        Err((memory, _)) => Err(memory),
    }
}

/// Makes the ports, in their order, with one part of each of these seats a port. What is left of these comes back.
pub(crate) fn make_ports(
    alloc: Global,
    shape: &Shape,
    shared: &Shared,
    mut seats: Seats,
    owns: Vec<Far>,
) -> Result<(Vec<Port>, Seats), Want>
    requires limits { IsWithinLimits shape.now }
    requires device { IsDevice (device_by shape.now shared.now owns.items) }
    requires owns { (length owns.items ≡ length shape.now.ports) × All IsUnused owns.items }
    requires seats { AreSeats shared.now seats 64 64 }
    ensures ports { IfOk result (λ r. AreNewPorts (device_by shape.now shared.now owns.items) (length shape.now.ports) r.0.items) }
    ensures seats { IfOk result (λ r. AreSeats shared.now r.1 (64 - length shape.now.ports) (64 - length shape.now.ports)) }
{
    let mut ports = Vec::with_capacity(alloc, owns.len())?;
    for own in owns {
        let number = ports.len();
        let (rest, part) = shared.split(seats, number)?;
        seats = rest;
        let port = make_port(alloc, shape, shared, part, number, own)?;
        ports.push_reserved(port);
    }
    Ok((ports, seats))
}
