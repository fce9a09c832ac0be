//! A device that is taken apart, so that what is left in it can be listed.

ghost use Rattle.std.specs.Prelude.{◌≡◌, ◌≤◌, [], length, vec_capacity};
ghost use Rattle.evt_types.specs.Plan.{flow_lanes};
ghost use Rattle.event_device.specs.Apart.{IsApart, IsStill};

use crate::control::Control;
use event_ports::{Port, Rest, join_ports};
use event_scheduler::Parts;
use lane_rings::{Far, Near};
use sched_core::Core;

/// The parts of a device's scheduler, its control, and its ports by number.
#[derive(Drop)]
pub(crate) struct Apart {
    pub parts: Parts,
    pub control: Control,
    pub ports: Vec<Port>,
}

/// A device of which no seat is left: the credits that are free, those in its scheduler's pocket, its core, and the near ends of its
/// lanes.
#[derive(Drop)]
pub(crate) struct Still {
    pub free: u64,
    pub own: u64,
    pub core: Core,
    pub nears: Vec<Near>,
}

impl Apart {
    /// Joins the seats of the ports, the scheduler and the control. What is left of the ports comes into `rests`, and the ends of the flow
    /// lanes into `ends`, which have room for them.
    pub(crate) fn join_seats(self, rests: &mut Vec<Rest>, ends: &mut Vec<Far>) -> Still
        requires apart { IsApart self }
        requires rests { (rests.old.items ≡ []) × (length self.ports.items ≤ vec_capacity rests.old) }
        requires ends { (ends.old.items ≡ []) × (length (flow_lanes self.parts.core.shape) ≤ vec_capacity ends.old) }
        ensures { IsStill self rests.new.items ends.new.items result }
    {
        let Apart {
            parts,
            control,
            ports,
        } = self;
        let Parts {
            pool,
            seat,
            core,
            lanes: nears,
            pocket: own,
        } = parts;
        let Control {
            claims,
            credit,
            claim,
            ..
        } = control;
        let (credit, claim) = join_ports(&pool, &claims, credit, claim, ports, rests);
        claims.close(claim, ends);
        let mut seat = pool.join(credit, seat);
        let free = pool.close(&mut seat);
        Still {
            free,
            own,
            core,
            nears,
        }
    }
}
