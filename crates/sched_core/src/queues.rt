//! The queues of a configuration, in which nothing waits.

ghost use Rattle.std.specs.Prelude.{◌≡◌, ◌<◌, ◌≤◌, length, IfOk};
ghost use Rattle.parked_queue.specs.Waits.{AreSlots};
ghost use Rattle.sched_core.specs.Inner.{AreEmptyQueues, queue_slots, slots_for};

use evt_types::{MAX_SLOTS, Shape};
use parked_queue::ParkedQueues;
use std::alloc::{AllocError, Global};

/// How many slots the events of a queue fall into.
fn slots_for(shape: &Shape, queue: usize) -> usize
    requires { queue < length shape.now.queues }
    ensures value { result ≡ slots_for shape.now queue }
    ensures range { (1 ≤ result) × (result ≤ MAX_SLOTS) }
{
    // To read a limit makes known that the limits hold.
    let _ = shape.limit();
    let draft = &shape.queues()[queue];
    if draft.kind.is_atomic() {
        draft.slots as usize
    } else {
        1
    }
}

/// How many slots each queue's events fall into.
fn all_slots(alloc: Global, shape: &Shape) -> Result<Vec<usize>, AllocError>
    ensures slots { IfOk result (λ s. s.items ≡ queue_slots shape.now (length shape.now.queues)) }
    ensures each { IfOk result (λ s. AreSlots s.items) }
{
    let count = shape.queues().len();
    let mut slots = Vec::with_capacity(alloc, count)?;
    for queue in 0..count {
        slots.push(slots_for(shape, queue))?;
    }
    Ok(slots)
}

/// The queues of the configuration, in which nothing waits. In all there is room for as many events as may be inside.
pub(crate) fn empty_queues(alloc: Global, shape: &Shape) -> Result<ParkedQueues, AllocError>
    ensures { IfOk result (λ qs. AreEmptyQueues shape.now (length shape.now.queues) qs) }
{
    // To read a limit makes known that the limits hold: there are no more queues than a set may have members.
    let _ = shape.limit();
    let slots = all_slots(alloc, shape)?;
    ParkedQueues::new(alloc, &slots, shape.bound())
}
