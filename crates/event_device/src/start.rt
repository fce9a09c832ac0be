//! A device is made of its parts.

ghost use Rattle.std.specs.Prelude.{◌≡◌, IfOk, IfErr};
ghost use Rattle.event_device.specs.Fault.{shape_in};
ghost use Rattle.event_device.specs.Prepared.{IsPrepared};
ghost use Rattle.event_device.specs.Start.{IsMade};

use crate::control::Control;
use crate::fault::{DeviceFault, Want};
use crate::lanes::add_lanes;
use crate::ports::make_ports;
use crate::shared::{Seats, Shared};
use credit_pool::{CreditSeat, Credits};
use event_ports::Port;
use event_scheduler::Scheduler;
use evt_types::Shape;
use lane_rings::Near;
use sched_core::Core;
use std::alloc::Global;
use std::sync::Arc;

/// All of a device but its core.
#[derive(Drop)]
struct Prepared {
    /// The control's, but the hints, which are the scheduler's.
    shared: Shared,
    seats: Seats,
    /// The scheduler's.
    pool: Arc<Credits, Global>,
    seat: CreditSeat,
    nears: Vec<Near>,
    ports: Vec<Port>,
}

/// Makes all of a device but its core.
fn prepare(alloc: Global, shape: &Shape) -> Result<Prepared, Want>
    ensures { IfOk result (λ made. IsPrepared shape.now made) }
{
    let own_lanes = shape.ports().len();
    let all_lanes = shape.lanes();
    let mut nears = Vec::with_capacity(alloc, all_lanes)?;
    let owns = add_lanes(alloc, shape, 0, own_lanes, &mut nears)?;
    let ends = add_lanes(alloc, shape, own_lanes, all_lanes, &mut nears)?;
    let (shared, seats) = Shared::new(alloc, u64::from(shape.limit()), own_lanes, ends)?;
    let (ports, seats) = make_ports(alloc, shape, &shared, seats, owns)?;
    let pool = shared.pool.clone()?;
    let Ok((credit, seat)) = shared.pool.split(seats.credit) else {
        return Err(Want::Seat);
    };
    let seats = Seats {
        credit,
        claim: seats.claim,
    };
    Ok(Prepared {
        shared,
        seats,
        pool,
        seat,
        nears,
        ports,
    })
}

/// Makes a device: its scheduler, its ports, in the order of the configuration, and its control. All credits are free, and no port
/// counted anything. After a refusal the configuration comes back and will serve again.
pub fn device(alloc: Global, shape: Shape) -> Result<(Scheduler, Vec<Port>, Control), DeviceFault>
    ensures made { IfOk result (λ r. IsMade shape r.0 r.1.items r.2) }
    ensures back { IfErr result (λ e. shape_in e ≡ shape) }
{
    let made = match prepare(alloc, &shape) {
        Ok(made) => made,
        Err(want) => return Err(want.into_fault(shape)),
    };
    let core = match Core::new(alloc, shape) {
        Ok(core) => core,
        Err((_, shape)) => return Err(DeviceFault::Memory(shape)),
    };
    let scheduler = Scheduler::new(made.pool, made.seat, core, made.nears, made.shared.hints);
    let control = Control::new(
        made.shared.pool,
        made.shared.claims,
        made.seats.credit,
        made.seats.claim,
    );
    Ok((scheduler, made.ports, control))
}
