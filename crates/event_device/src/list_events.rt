//! The events that the scheduling core has.

ghost use Rattle.std.specs.Prelude.{◌≡◌, ◌≤◌, ◌*◌, List, [], length, sum_by, vec_capacity, IfOk};
ghost use Rattle.evt_types.specs.Plan.{queues};
ghost use Rattle.evt_types.specs.declared.step.Step.{Step};
ghost use Rattle.event_device.specs.Listed.{kept_all, waiting_all};
ghost use Rattle.transcripts.specs.Standing.{Stands, places_at, waiting_at};

use evt_types::{Delivery, KeptEvent, MAX_FORWARDS};
use sched_core::Core;
use std::alloc::{AllocError, Global};
use step_log::Memory;

/// An empty list with room for the events that wait.
pub fn room_for_waiting(alloc: Global, core: &Core) -> Result<Vec<Delivery>, Memory>
    ensures empty { IfOk result (λ v. v.items ≡ []) }
    ensures room { IfOk result (λ v. sum_by (λ q. length (waiting_at core.now q)) (queues core.now.shape) ≤ vec_capacity v) }
{
    // What waits is inside.
    Vec::with_capacity(alloc, core.inside())
}

/// Appends the waiting events, by queue, then number, each as it would have been delivered.
pub fn list_waiting(core: &Core, into: &mut Vec<Delivery>)
    requires empty { into.old.items ≡ [] }
    requires room { sum_by (λ q. length (waiting_at core.now q)) (queues core.now.shape) ≤ vec_capacity into.old }
    ensures { (T : List Step) → Stands T core.now → into.new.items ≡ waiting_all core.now.shape T }
{
    for queue in 0..core.shape().queues().len() {
        core.list_waiting(queue, into);
    }
}

/// An empty list with room for the events that are kept.
pub fn room_for_kept(alloc: Global, core: &Core) -> Result<Vec<KeptEvent>, Memory>
    ensures empty { IfOk result (λ v. v.items ≡ []) }
    ensures room { IfOk result (λ v. MAX_FORWARDS * sum_by (λ q. length (places_at core.now q)) (queues core.now.shape) ≤ vec_capacity v) }
{
    let mut places: usize = 0;
    for queue in 0..core.shape().queues().len() {
        // More places than can be counted have no room in memory either.
        places = places
            .checked_add(core.places_len(queue))
            .ok_or(AllocError)?;
    }
    // A place keeps all that its event was passed on as.
    let room = places.checked_mul(MAX_FORWARDS).ok_or(AllocError)?;
    Vec::with_capacity(alloc, room)
}

/// Appends the kept events, by queue, then in hand-out order.
pub fn list_kept(core: &Core, into: &mut Vec<KeptEvent>)
    requires empty { into.old.items ≡ [] }
    requires room { MAX_FORWARDS * sum_by (λ q. length (places_at core.now q)) (queues core.now.shape) ≤ vec_capacity into.old }
    ensures { (T : List Step) → Stands T core.now → into.new.items ≡ kept_all core.now.shape T }
{
    for queue in 0..core.shape().queues().len() {
        core.list_kept(queue, into);
    }
}
