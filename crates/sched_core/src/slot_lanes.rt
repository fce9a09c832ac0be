//! The flow lane of each slot.

ghost use Rattle.std.specs.Prelude.{◌≡◌, ◌<◌, length, IfOk};
ghost use Rattle.sched_core.specs.SlotLanes.{AreSlotLanes, IsSlotLane, slot_lane_count};

use evt_types::{Serving, Shape};
use std::alloc::{AllocError, Global};

/// How many slots a queue has at most.
pub(crate) const SLOTS: usize = 64;

/// The flow lane that serves the slot.
fn slot_lane(shape: &Shape, queue: usize, slot: usize) -> Option<usize>
    requires { queue < length shape.now.queues }
    ensures { IsSlotLane shape.now queue slot result }
{
    for lane in shape.ports().len()..shape.lanes() {
        if shape.serves(lane, queue, slot) {
            return Some(lane);
        }
    }
    None
}

/// How many slots there are to be looked up: none where ports serve the queues.
fn count(shape: &Shape) -> usize
    ensures { result ≡ slot_lane_count shape.now }
{
    // To read a limit makes known that the limits hold.
    let _ = shape.limit();
    match shape.serving() {
        Serving::Ports => 0,
        Serving::Flows => shape.queues().len() * SLOTS,
    }
}

/// The flow lanes of all slots, by queue and then slot.
pub(crate) fn slot_lanes(alloc: Global, shape: &Shape) -> Result<Vec<Option<usize>>, AllocError>
    ensures { IfOk result (λ ls. AreSlotLanes shape.now (slot_lane_count shape.now) ls.items) }
{
    let count = count(shape);
    let mut lanes = Vec::with_capacity(alloc, count)?;
    for index in 0..count {
        lanes.push(slot_lane(shape, index / SLOTS, index % SLOTS))?;
    }
    Ok(lanes)
}
