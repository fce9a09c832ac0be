//! What stands in the way of a step, among what is held.

ghost use Rattle.std.specs.Prelude.{◌≡◌, ◌≢◌, ◌<◌, ◌≤◌, ◌↔◌, Some, false, true, length, map};
ghost use Rattle.evt_types.specs.Plan.{is_atomic, is_ordered, queue_of};
ghost use Rattle.evt_types.specs.declared.step.Source.TheVariants as sources;
ghost use Rattle.evt_types.specs.declared.step.Step.TheVariants as steps;
ghost use Rattle.transcript_judge.specs.Ledger.{accept_of, rows};
ghost use Rattle.transcript_judge.specs.Scans.{AreOtherSlots, LeavesSlot, IsNext, IsOther, kept_in_due, kept_in_spots, or_else};

use crate::spot::{HeldEvent, Spot};
use evt_types::{Event, KeptEvent, Shape};

/// Whether one of what is held is of the slot of the queue.
fn has_slot(held: &[HeldEvent], queue: usize, slot: usize) -> bool
    ensures none { result ≡ false → AreOtherSlots queue slot held.now }
    ensures some { result ≡ true → ¬ AreOtherSlots queue slot held.now }
{
    for event in held {
        if event.queue() == queue && event.slot() == slot {
            return true;
        }
    }
    false
}

/// Whether another lane holds something of the slot of the queue.
fn is_slot_taken(unanswered: &[Vec<HeldEvent>], lane: usize, queue: usize, slot: usize) -> bool
    ensures none { result ≡ false → LeavesSlot (rows unanswered.now) lane queue slot }
    ensures some { result ≡ true → ¬ LeavesSlot (rows unanswered.now) lane queue slot }
{
    for (other, held) in unanswered.iter().enumerate() {
        if other != lane && has_slot(held, queue, slot) {
            return true;
        }
    }
    false
}

/// Whether another lane holds something of the slot of an atomic queue.
pub(crate) fn is_pinned(
    shape: &Shape,
    unanswered: &[Vec<HeldEvent>],
    lane: usize,
    queue: usize,
    slot: usize,
) -> bool
    requires { queue < length shape.now.queues }
    ensures none { result ≡ false → is_atomic (queue_of shape.now queue).kind ≡ true → LeavesSlot (rows unanswered.now) lane queue slot }
    ensures atomic { result ≡ true → is_atomic (queue_of shape.now queue).kind ≡ true }
    ensures some { result ≡ true → ¬ LeavesSlot (rows unanswered.now) lane queue slot }
{
    if !shape.queues()[queue].kind.is_atomic() {
        return false;
    }
    is_slot_taken(unanswered, lane, queue, slot)
}

/// Whether an ordered queue that has so many open numbers has no room for another.
pub(crate) fn lacks_place(shape: &Shape, queue: usize, count: usize) -> bool
    requires { queue < length shape.now.queues }
    ensures no { result ≡ false → is_ordered (queue_of shape.now queue).kind ≡ true → count < (queue_of shape.now queue).order }
    ensures ordered { result ≡ true → is_ordered (queue_of shape.now queue).kind ≡ true }
    ensures yes { result ≡ true → (queue_of shape.now queue).order ≤ count }
{
    let draft = &shape.queues()[queue];
    if !draft.kind.is_ordered() {
        return false;
    }
    count >= draft.order as usize
}

/// The first of what is due from the number.
pub(crate) fn first_due(due: &[KeptEvent], queue: usize, number: u64) -> Option<Event>
    ensures { result ≡ kept_in_due due.now queue number }
{
    for kept in due {
        if kept.queue == queue && kept.number == number {
            return Some(kept.event);
        }
    }
    None
}

/// The first of what an open number was passed on as.
pub(crate) fn first_kept(spots: &[Spot], number: u64) -> Option<Event>
    ensures { result ≡ kept_in_spots spots.now number }
{
    for spot in spots {
        if spot.number() == number {
            return spot.forwards().first().copied();
        }
    }
    None
}

/// Whether the two events are the same.
fn is_same(first: &Event, second: &Event) -> bool
    ensures { (result ≡ true) ↔ (first.now ≡ second.now) }
{
    first == second
}

/// The first of two events that is there.
pub(crate) fn either(first: Option<Event>, second: Option<Event>) -> Option<Event>
    ensures { result ≡ or_else first second }
{
    if first.is_some() { first } else { second }
}

/// Whether it is this event.
pub(crate) fn is_event(found: Option<Event>, event: &Event) -> bool
    ensures yes { result ≡ true → found ≡ Some event.now }
    ensures no { result ≡ false → found ≢ Some event.now }
{
    match found {
        Some(found) => is_same(&found, event),
        None => false,
    }
}

/// Whether the first that is due is this event, from this number.
pub(crate) fn is_next(due: &[KeptEvent], event: &Event, queue: usize, number: u64) -> bool
    ensures yes { result ≡ true → IsNext (map accept_of due.now) (steps.Accept event.now.queue event.now (sources.Of queue number)) }
    ensures no { result ≡ false → IsOther (map accept_of due.now) (steps.Accept event.now.queue event.now (sources.Of queue number)) }
{
    if due.is_empty() {
        return false;
    }
    let first = &due[0];
    if first.queue != queue {
        return false;
    }
    if first.number != number {
        return false;
    }
    is_same(&first.event, event)
}
