//! The checks of a configuration, each over all queues or ports.

ghost use Rattle.std.specs.Prelude.{◌≡◌, nat_lt, nat_le, length, sum_by};
ghost use Rattle.std.specs.List.{list_any};
ghost use Rattle.evt_types.specs.Fault as faults;
ghost use Rattle.evt_types.specs.Plan as plans;
ghost use Rattle.evt_types.specs.Plan.{plan_of, queue_of};
ghost use Rattle.lists.specs.Lists.{has};

use crate::draft::{Draft, QueueDraft};
use crate::shape::{
    MAX_ALL_SLOTS, MAX_DEPTH, MAX_LIMIT, MAX_ORDER, MAX_PORTS, MAX_QUEUES, MAX_SLOTS, MAX_SWEEP,
    ShapeFault,
};

/// Whether the number isn't one of `1..=most`.
fn is_outside(most: u32, number: u32) -> bool
    ensures { result ≡ faults.outside 1 most number }
{
    number < 1 || most < number
}

/// Whether there are none, or more than `most`.
fn is_bad_count(most: usize, count: usize) -> bool
    ensures { result ≡ faults.outside 1 most count }
{
    count < 1 || most < count
}

/// Whether the queue's number is among the links.
pub(crate) fn is_linked(links: &[u32], queue: usize) -> bool
    ensures { result ≡ has queue links.now }
{
    links.iter().any(|link| *link as usize == queue)
}

fn has_bad_threshold(draft: &Draft) -> bool
    ensures { result ≡ faults.thresholds_bad (plan_of draft.now) }
{
    draft.ports.iter().any(|port| port.threshold < draft.quantum || draft.limit < port.threshold)
}

fn has_bad_depth(draft: &Draft) -> bool
    ensures { result ≡ faults.depths_bad (plan_of draft.now) }
{
    draft.ports.iter().any(|port| is_outside(MAX_DEPTH, port.depth)
        || is_outside(MAX_DEPTH, port.replies))
}

/// The queue's slots; a queue that isn't atomic has none.
pub(crate) fn atomic_slots(queue: &QueueDraft) -> u32
    ensures { result ≡ plans.atomic_slots queue.now }
{
    if queue.kind.is_atomic() {
        queue.slots
    } else {
        0
    }
}

/// Whether the slots of all atomic queues together are too many.
fn exceeds_slots(queues: &[QueueDraft]) -> bool
    ensures { result ≡ nat_lt MAX_ALL_SLOTS (sum_by plans.atomic_slots queues.now) }
{
    let mut left = MAX_ALL_SLOTS;
    for queue in queues {
        let slots = atomic_slots(queue);
        if left < slots {
            return true;
        }
        left -= slots;
    }
    false
}

/// Whether some atomic queue's slots are out of range.
fn has_bad_slot_count(queues: &[QueueDraft]) -> bool
    ensures { result ≡ list_any faults.bad_slots queues.now }
{
    queues.iter().any(|queue| queue.kind.is_atomic() && is_outside(MAX_SLOTS, queue.slots))
}

#[tactic(auto, unfolding(crate::specs::Fault::slots_bad))]
fn has_bad_slots(draft: &Draft) -> bool
    ensures { result ≡ faults.slots_bad (plan_of draft.now) }
{
    has_bad_slot_count(&draft.queues) || exceeds_slots(&draft.queues)
}

#[tactic(auto, unfolding(crate::specs::Fault::orders_bad))]
fn has_bad_order(draft: &Draft) -> bool
    ensures { result ≡ faults.orders_bad (plan_of draft.now) }
{
    draft.queues.iter().any(|queue| queue.kind.is_ordered() && is_outside(MAX_ORDER, queue.order))
}

/// Whether some link is no queue's number.
fn has_unknown(links: &[u32], queues: usize) -> bool
    ensures { result ≡ list_any (λ q. nat_le queues q) links.now }
{
    links.iter().any(|link| queues <= *link as usize)
}

fn has_unknown_link(draft: &Draft) -> bool
    ensures { result ≡ faults.link_unknown (plan_of draft.now) }
{
    draft
        .ports
        .iter()
        .any(|port| has_unknown(&port.links, draft.queues.len()))
}

/// Whether some link stands twice.
fn has_twice(links: &[u32]) -> bool
    ensures { result ≡ faults.has_twice links.now }
{
    for place in 0..links.len() {
        if is_linked(&links[place + 1..], links[place] as usize) {
            return true;
        }
    }
    false
}

fn has_double_link(draft: &Draft) -> bool
    ensures { result ≡ faults.link_twice (plan_of draft.now) }
{
    draft.ports.iter().any(|port| has_twice(&port.links))
}

/// How many ports are linked to the queue.
fn links_to(draft: &Draft, queue: usize) -> usize
    ensures { result ≡ faults.links_to (plan_of draft.now) queue }
{
    draft
        .ports
        .iter()
        .filter(|port| is_linked(&port.links, queue))
        .count()
}

#[tactic(auto, unfolding(crate::specs::Fault::queue_unlinked))]
fn has_unlinked_queue(draft: &Draft) -> bool
    ensures { result ≡ faults.queue_unlinked (plan_of draft.now) }
{
    (0..draft.queues.len()).any(|queue| links_to(draft, queue) == 0)
}

/// Whether the queue of this number is a single-link queue.
fn is_single(draft: &Draft, queue: usize) -> bool
    ensures { result ≡ (queue_of (plan_of draft.now) queue).single }
{
    queue < draft.queues.len() && draft.queues[queue].single
}

#[tactic(auto, unfolding(crate::specs::Fault::single_bad))]
fn has_shared_single(draft: &Draft) -> bool
    ensures { result ≡ faults.single_bad (plan_of draft.now) }
{
    (0..draft.queues.len()).any(|queue| is_single(draft, queue) && 1 < links_to(draft, queue))
}

/// The first refusal of the configuration.
pub(crate) fn first_fault(draft: &Draft) -> Option<ShapeFault>
    ensures { result ≡ faults.fault_of (plan_of draft.now) }
{
    if is_bad_count(MAX_QUEUES, draft.queues.len()) {
        Some(ShapeFault::QueueCount)
    } else if is_bad_count(MAX_PORTS, draft.ports.len()) {
        Some(ShapeFault::PortCount)
    } else if is_outside(MAX_LIMIT, draft.limit) {
        Some(ShapeFault::LimitRange)
    } else if draft.quantum == 0 || draft.limit < draft.quantum {
        Some(ShapeFault::QuantumRange)
    } else if has_bad_threshold(draft) {
        Some(ShapeFault::ThresholdRange)
    } else if has_bad_depth(draft) {
        Some(ShapeFault::DepthRange)
    } else if has_bad_slots(draft) {
        Some(ShapeFault::FlowSlots)
    } else if has_bad_order(draft) {
        Some(ShapeFault::OrderDepth)
    } else if is_outside(MAX_SWEEP, draft.sweep) {
        Some(ShapeFault::SweepRange)
    } else if has_unknown_link(draft) {
        Some(ShapeFault::LinkUnknown)
    } else if has_double_link(draft) {
        Some(ShapeFault::LinkTwice)
    } else if has_unlinked_queue(draft) {
        Some(ShapeFault::QueueUnlinked)
    } else if has_shared_single(draft) {
        Some(ShapeFault::SingleLinkCount)
    } else {
        None
    }
}
