//! The slots whose flow lanes may have room.

ghost use Rattle.std.specs.Prelude.{◌≡◌, ◌<◌, ◌≤◌, ◌-◌, true, length, Some, IfOk, IfSome, IfNone};
ghost use Rattle.evt_types.specs.Plan.{flow_at, has_flow_lanes, lanes_of};
ghost use Rattle.sched_core.specs.OpenSlots.{HaveAllSlots, IsOpened};

use crate::state::Core;
use evt_types::{FlowLane, Shape};
use small_set::{MAX_MEMBERS, SmallSet};
use std::alloc::{AllocError, Global};

/// For each queue all slots: no lane is full yet.
pub(crate) fn all_open(alloc: Global, shape: &Shape) -> Result<Vec<SmallSet>, AllocError>
    ensures { IfOk result (λ sets. HaveAllSlots shape.now sets.items) }
{
    vec![in alloc; SmallSet::below(MAX_MEMBERS); shape.queues().len()]
}

/// The queue and the slot that the lane serves, where it is a flow lane.
#[inline(always)]
fn flow_of(shape: &Shape, lane: usize) -> Option<FlowLane>
    requires { lane < lanes_of shape.now }
    ensures flow { IfSome result (λ f. (length shape.now.ports ≤ lane) × (flow_at shape.now lane ≡ Some f)) }
    ensures within { IfSome result (λ f. (f.queue < length shape.now.queues) × (f.slot < 64)) }
    ensures none { IfNone result (lane < length shape.now.ports) }
{
    // To read a limit makes known that the limits hold.
    let _ = shape.limit();
    let ports = shape.ports().len();
    if lane < ports {
        return None;
    }
    Some(shape.flows()[lane - ports])
}

/// An event of the lane is answered, so that it has room: where it is a flow lane, events of its slot may go.
#[inline(always)]
pub(crate) fn open_slot(open_slots: &mut [SmallSet], shape: &Shape, lane: usize)
    requires lane { lane < lanes_of shape.now }
    requires count { length open_slots.old ≡ length shape.now.queues }
    ensures { IsOpened shape.now lane open_slots.old open_slots.new }
{
    if let Some(FlowLane { queue, slot }) = flow_of(shape, lane) {
        open_slots[queue].add(slot);
    }
}

impl Core {
    /// Where the lane is a flow lane and has become full, no event of its slot may go.
    #[inline(always)]
    pub(crate) fn close_slot(&mut self, lane: usize)
        requires { lane < lanes_of self.old.shape }
        ensures { self.new ≡ self.old }
    {
        if self.lanes.room(lane) > 0 {
            return;
        }
        if let Some(FlowLane { queue, slot }) = flow_of(&self.shape, lane) {
            self.open_slots[queue].remove(slot);
        }
    }
}
