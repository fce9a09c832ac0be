//! A core in which nothing has happened.

ghost use Rattle.std.specs.Prelude.{◌≡◌, ◌<◌, [], length, map, replicate, IfOk, IfErr};
ghost use Rattle.evt_types.specs.Plan.{kept_room, lanes_of};
ghost use Rattle.evt_types.specs.declared.draft.QueueDraft.{QueueDraft};
ghost use Rattle.transcripts.specs.Sweep.{sweep_room};
ghost use Rattle.transcripts.specs.Standing.{Stands, view_of};
ghost use Rattle.order_parts.specs.Histories.{AreEmptyLanes};
ghost use Rattle.order_parts.specs.QueuePins.{AreFreePins};
ghost use Rattle.order_parts.specs.Reorder.{empty};
ghost use Rattle.sched_core.specs.Inner.{AreEmptyQueues};
ghost use Rattle.sched_core.specs.Links.{AreLinks, AreLinksOf};
ghost use Rattle.sched_core.specs.Service.{AreAhead, AreAheadOf};
ghost use Rattle.sched_core.specs.SlotLanes.{AreSlotLanes, slot_lane_count};

use crate::open_slots::all_open;
use crate::queues::empty_queues;
use crate::slot_lanes::slot_lanes;
use crate::state::Core;
use evt_types::{MAX_FORWARDS, Memory, Shape};
use order_parts::{AllOrders, AllPins, Histories, all_kept_room};
use parked_queue::ParkedQueues;
use small_set::SmallSet;
use std::alloc::{AllocError, Global};

/// The ports' lanes that serve the queue.
fn links_of(shape: &Shape, queue: usize) -> SmallSet
    requires { queue < length shape.now.queues }
    ensures { AreLinksOf shape.now queue result }
{
    // To read a limit makes known that the limits hold.
    let _ = shape.limit();
    let mut lanes = SmallSet::none();
    for lane in 0..shape.ports().len() {
        if shape.serves(lane, queue, 0) {
            lanes.add(lane);
        }
    }
    lanes
}

/// The queues of a priority that is served before the queue's.
fn ahead_of(shape: &Shape, queue: usize) -> SmallSet
    requires { queue < length shape.now.queues }
    ensures { AreAheadOf shape.now queue result }
{
    // To read a limit makes known that the limits hold.
    let _ = shape.limit();
    let queues = shape.queues();
    let mut ahead = SmallSet::none();
    for other in 0..queues.len() {
        if queues[other].priority < queues[queue].priority {
            ahead.add(other);
        }
    }
    ahead
}

/// For each queue the ports' lanes that serve it, and the queues of a priority that is served before its own.
fn queue_sets(alloc: Global, shape: &Shape) -> Result<(Vec<SmallSet>, Vec<SmallSet>), AllocError>
    ensures links { IfOk result (λ s. AreLinks shape.now (length shape.now.queues) s.0.items) }
    ensures ahead { IfOk result (λ s. AreAhead shape.now (length shape.now.queues) s.1.items) }
{
    let count = shape.queues().len();
    let mut links = Vec::with_capacity(alloc, count)?;
    let mut ahead = Vec::with_capacity(alloc, count)?;
    for queue in 0..count {
        links.push(links_of(shape, queue))?;
        ahead.push(ahead_of(shape, queue))?;
    }
    Ok((links, ahead))
}

/// For each queue what waits in it, and what it keeps in order: nothing.
fn queue_parts(alloc: Global, shape: &Shape) -> Result<(ParkedQueues, AllOrders), Memory>
    ensures waits { IfOk result (λ q. AreEmptyQueues shape.now (length shape.now.queues) q.0) }
    ensures orders { IfOk result (λ q. q.1 ≡ map (λ (d : QueueDraft). empty (kept_room d)) shape.now.queues) }
{
    let queues = empty_queues(alloc, shape)?;
    Ok((queues, AllOrders::new(alloc, shape.queues())?))
}

/// For each lane what it was given and hasn't answered, and how many events were added beside the oldest of these: none.
fn lane_parts(alloc: Global, shape: &Shape) -> Result<(Histories, Vec<usize>), Memory>
    ensures lanes { IfOk result (λ l. AreEmptyLanes shape.now (lanes_of shape.now) l.0) }
    ensures extras { IfOk result (λ l. l.1.items ≡ replicate (lanes_of shape.now) 0) }
{
    let lanes = Histories::new(alloc, shape)?;
    Ok((lanes, vec![in alloc; 0; shape.lanes()]?))
}

/// For each slot the lane to which it is pinned, none, and the flow lane that serves it.
fn slot_parts(alloc: Global, shape: &Shape) -> Result<(AllPins, Vec<Option<usize>>), Memory>
    ensures pins { IfOk result (λ s. AreFreePins shape.now (length shape.now.queues) s.0) }
    ensures lanes { IfOk result (λ s. AreSlotLanes shape.now (slot_lane_count shape.now) s.1.items) }
{
    let pins = AllPins::free(alloc, shape)?;
    Ok((pins, slot_lanes(alloc, shape)?))
}

/// How many steps a sweep may log: the shut step, for each reply taken an answer or an added event and one event accepted, the
/// events that were kept, each event given, and each lane whose ring was full.
fn log_room(shape: &Shape) -> usize
    ensures { result ≡ sweep_room shape.now }
{
    // To read a limit makes known that the limits hold.
    let _ = shape.limit();
    let sweep = shape.sweep() as usize;
    let queues = shape.queues();
    let lanes = shape.lanes();
    let kept = MAX_FORWARDS * all_kept_room(queues);
    1 + 2 * sweep * lanes + kept + sweep * queues.len() + lanes
}

impl Core {
    /// A core that holds nothing. Where memory lacks the configuration comes back.
    pub fn new(alloc: Global, shape: Shape) -> Result<Core, (Memory, Shape)>
        ensures empty { IfOk result (λ c. c ≡ view_of shape []) }
        ensures stands { IfOk result (λ c. Stands [] c) }
        ensures shape { IfOk result (λ c. c.shape ≡ shape) }
        ensures back { IfErr result (λ e. e.1 ≡ shape) }
    {
        let bound = shape.bound();
        let log_room = log_room(&shape);
        let (queues, orders) = match queue_parts(alloc, &shape) {
            Ok(parts) => parts,
            Err(memory) => return Err((memory, shape)),
        };
        let (lanes, extras) = match lane_parts(alloc, &shape) {
            Ok(parts) => parts,
            Err(memory) => return Err((memory, shape)),
        };
        let (pins, slot_lanes) = match slot_parts(alloc, &shape) {
            Ok(parts) => parts,
            Err(memory) => return Err((memory, shape)),
        };
        let (links, ahead) = match queue_sets(alloc, &shape) {
            Ok(sets) => sets,
            Err(memory) => return Err((memory, shape)),
        };
        let open_slots = match all_open(alloc, &shape) {
            Ok(sets) => sets,
            Err(memory) => return Err((memory, shape)),
        };
        // To read a limit makes known that the limits hold.
        let _ = shape.limit();
        Ok(Core {
            shape,
            queues,
            orders,
            lanes,
            extras,
            pins,
            links,
            ahead,
            slot_lanes,
            open_slots,
            bound,
            log_room,
            inside: 0,
            entries: 0,
            shut: false,
        })
    }
}
