//! The lanes of a device.

ghost use Rattle.std.specs.Prelude.{◌-◌, ◌≤◌, IfOk};
ghost use Rattle.evt_types.specs.Plan.{lanes_of};
ghost use Rattle.event_device.specs.Ends.{AreAdded};

use evt_types::Shape;
use lane_rings::{Far, Near, lane};
use std::alloc::Global;
use step_log::Memory;

/// Makes the lanes of these numbers, and adds the scheduler's ends of them to the others. The holders' ends are the answer.
pub(crate) fn add_lanes(
    alloc: Global,
    shape: &Shape,
    from: usize,
    to: usize,
    nears: &mut Vec<Near>,
) -> Result<Vec<Far>, Memory>
    requires { (from ≤ to) × (to ≤ lanes_of shape.now) }
    ensures { IfOk result (λ fars. AreAdded shape.now from (to - from) nears.old.items nears.new.items fars.items) }
{
    let mut fars = Vec::with_capacity(alloc, to - from)?;
    for number in from..to {
        let (near, far) = lane(alloc, shape.depth_of(number), shape.replies_of(number))?;
        nears.push(near)?;
        fars.push(far)?;
    }
    Ok(fars)
}
