//! What shows that a Give breaks a clause.

ghost use Rattle.std.specs.Prelude.{◌≡◌, ℕ, not, ◌&&◌, ◌==◌, IfOk, filter, option_map, slice_get};
ghost use Rattle.std.specs.BTreeSet.{contains};
ghost use Rattle.std.specs.List.{find};
ghost use Rattle.std.specs.Ordering.{nat_cmp};
ghost use Rattle.evt_types.specs.Plan as plans;
ghost use Rattle.evt_types.specs.Plan.{queue_of};
ghost use Rattle.evt_types.specs.declared.event.Numbered.{Numbered};
ghost use Rattle.transcripts.specs.Lawful.{keeps_order};
ghost use Rattle.transcripts.specs.Transcript as transcripts;
ghost use Rattle.transcripts.specs.Transcript.{numbered, slot_if};
ghost use Rattle.judge_app.specs.Gifts as gifts;

use crate::reason::{Class, Gift, Holding, Reason};
use crate::scans::{accepted_by, hand_of, place_of_accept, place_of_give, unanswered_of};
use crate::sets::{has, set_of};
use evt_types::{Event, Kind, Shape, Step};
use std::alloc::{AllocError, Global};
use std::collections::BTreeSet;

/// The kind of a queue; one that isn't there keeps no order.
pub(crate) fn kind_of(shape: &Shape, queue: usize) -> Kind
    ensures { result ≡ (queue_of shape.now queue).kind }
{
    match shape.queues().get(queue) {
        Some(draft) => draft.kind,
        None => Kind::Parallel,
    }
}

/// Whether two events of the queue keep their order.
pub(crate) fn keeps_order(shape: &Shape, queue: usize, first: &Event, second: &Event) -> bool
    ensures { result ≡ keeps_order shape.now queue first.now second.now }
{
    if first.level() != second.level() {
        return false;
    }
    match kind_of(shape, queue) {
        Kind::Ordered => true,
        Kind::Atomic => first.flow == second.flow,
        Kind::Parallel => false,
    }
}

/// The first of the queue's events that weren't given, though it goes before this one, by its number.
fn first_before(
    shape: &Shape,
    queue: usize,
    accepted: &[Event],
    given: &BTreeSet<u64>,
    number: u64,
    event: &Event,
) -> Option<u64>
    ensures { result ≡ option_map (λ (v : Numbered). v.number) (find (gifts.goes_before shape.now queue number event.now) (filter (λ (w : Numbered). not (contains nat_cmp given.now w.number)) (numbered 0 accepted.now))) }
{
    for (at, other) in accepted.iter().enumerate() {
        let at = at as u64;
        if at < number && keeps_order(shape, queue, other, event) && !has(given, at) {
            return Some(at);
        }
    }
    None
}

/// The first of the queue's events that wait, though it goes before this one, by its number.
fn passed_over(
    alloc: Global,
    shape: &Shape,
    past: &[Step],
    accepted: &[Event],
    gift: Gift,
    event: &Event,
) -> Result<Option<u64>, AllocError>
    requires { accepted.now ≡ transcripts.accepted past.now gift.queue }
    ensures { IfOk result (λ found. found ≡ option_map (λ (v : Numbered). v.number) (gifts.first_before shape.now past.now gift.queue gift.number event.now)) }
{
    let Gift { queue, number, .. } = gift;
    let given = set_of(alloc, &hand_of(alloc, past, queue)?)?;
    Ok(first_before(shape, queue, accepted, &given, number, event))
}

/// With which others of its queue the event keeps its order.
fn class_of(shape: &Shape, queue: usize, event: &Event) -> Class
    ensures { result ≡ gifts.class_of shape.now queue event.now }
{
    if kind_of(shape, queue).is_ordered() {
        Class::Level(event.level())
    } else {
        Class::Flow(event.flow)
    }
}

/// The first event that should have been given before.
pub(crate) fn passed(
    alloc: Global,
    shape: &Shape,
    past: &[Step],
    gift: Gift,
) -> Result<Option<Reason>, AllocError>
    ensures { IfOk result (λ reason. reason ≡ gifts.passed shape.now past.now gift) }
{
    let Gift { queue, number, .. } = gift;
    let accepted = accepted_by(alloc, past, queue)?;
    let Some(event) = accepted.get(number as usize) else {
        return Ok(None);
    };
    let Some(other) = passed_over(alloc, shape, past, &accepted, gift, event)? else {
        return Ok(None);
    };
    match place_of_accept(past, queue, other) {
        Some(at) => Ok(Some(Reason::Passed {
            class: class_of(shape, queue, event),
            queue,
            number,
            other,
            at,
        })),
        None => Ok(None),
    }
}

/// That it wasn't accepted, or where it was given before.
pub(crate) fn given_again(
    alloc: Global,
    past: &[Step],
    gift: Gift,
) -> Result<Option<Reason>, AllocError>
    ensures { IfOk result (λ reason. reason ≡ gifts.given_again past.now gift) }
{
    let Gift { queue, number, .. } = gift;
    let accepted = accepted_by(alloc, past, queue)?;
    if number as usize >= accepted.len() {
        return Ok(Some(Reason::Absent { queue, number }));
    }
    match place_of_give(past, queue, number) {
        Some(at) => Ok(Some(Reason::Given { queue, number, at })),
        None => Ok(None),
    }
}

/// The flow that the lane doesn't serve.
pub(crate) fn unserved(
    alloc: Global,
    past: &[Step],
    gift: Gift,
) -> Result<Option<Reason>, AllocError>
    ensures { IfOk result (λ reason. reason ≡ gifts.unserved past.now gift) }
{
    let Gift {
        lane,
        queue,
        number,
    } = gift;
    let accepted = accepted_by(alloc, past, queue)?;
    match accepted.get(number as usize) {
        Some(event) => Ok(Some(Reason::Unserved {
            lane,
            queue,
            flow: event.flow,
        })),
        None => Ok(None),
    }
}

/// How many events the lane hasn't answered.
pub(crate) fn full(alloc: Global, past: &[Step], lane: usize) -> Result<Reason, AllocError>
    ensures { IfOk result (λ reason. reason ≡ gifts.full past.now lane) }
{
    let count = unanswered_of(alloc, past, lane)?.len();
    Ok(Reason::Full { lane, count })
}

/// The slot of the flow; a queue that isn't there has the slot 0 alone.
fn slot_of(shape: &Shape, queue: usize, flow: u32) -> usize
    ensures { result ≡ plans.slot_of shape.now queue flow }
{
    if queue < shape.queues().len() {
        shape.slot_of(queue, flow)
    } else {
        0
    }
}

/// The slot of a number of the queue; that of one that wasn't accepted is 0.
fn slot_at(shape: &Shape, accepted: &[Event], queue: usize, number: u64) -> usize
    ensures { result ≡ slot_if shape.now queue (slice_get accepted.now number) }
{
    match accepted.get(number as usize) {
        Some(event) => slot_of(shape, queue, event.flow),
        None => 0,
    }
}

/// The first of these numbers that is of the slot of the queue.
fn first_of_slot(
    shape: &Shape,
    accepted: &[Event],
    held: &[(usize, u64)],
    queue: usize,
    slot: usize,
) -> Option<u64>
    ensures { result ≡ option_map (λ (x : ℕ × ℕ). x.1) (find (λ (x : ℕ × ℕ). (x.0 == queue) && (slot_if shape.now queue (slice_get accepted.now x.1) == slot)) held.now) }
{
    for (other, number) in held {
        if *other == queue && slot_at(shape, accepted, queue, *number) == slot {
            return Some(*number);
        }
    }
    None
}

/// The oldest unanswered event of the slot on the lane, if it isn't the gift's own.
fn held_on(
    alloc: Global,
    shape: &Shape,
    past: &[Step],
    accepted: &[Event],
    gift: Gift,
    slot: usize,
    lane: usize,
) -> Result<Option<Holding>, AllocError>
    requires { accepted.now ≡ transcripts.accepted past.now gift.queue }
    ensures { IfOk result (λ found. found ≡ gifts.held_on shape.now past.now gift slot lane) }
{
    if lane == gift.lane {
        return Ok(None);
    }
    let held = unanswered_of(alloc, past, lane)?;
    match first_of_slot(shape, accepted, &held, gift.queue, slot) {
        Some(number) => Ok(Some(Holding { lane, number })),
        None => Ok(None),
    }
}

/// The same of the first lane that has one.
fn held_elsewhere(
    alloc: Global,
    shape: &Shape,
    past: &[Step],
    accepted: &[Event],
    gift: Gift,
    slot: usize,
) -> Result<Option<Holding>, AllocError>
    requires { accepted.now ≡ transcripts.accepted past.now gift.queue }
    ensures { IfOk result (λ found. found ≡ gifts.held_elsewhere shape.now past.now gift slot) }
{
    for lane in 0..shape.lanes() {
        if let Some(found) = held_on(alloc, shape, past, accepted, gift, slot, lane)? {
            return Ok(Some(found));
        }
    }
    Ok(None)
}

/// The oldest unanswered event of its slot on another lane.
pub(crate) fn shared(
    alloc: Global,
    shape: &Shape,
    past: &[Step],
    gift: Gift,
) -> Result<Option<Reason>, AllocError>
    ensures { IfOk result (λ reason. reason ≡ gifts.shared shape.now past.now gift) }
{
    let queue = gift.queue;
    let accepted = accepted_by(alloc, past, queue)?;
    let Some(event) = accepted.get(gift.number as usize) else {
        return Ok(None);
    };
    let slot = slot_of(shape, queue, event.flow);
    let Some(held) = held_elsewhere(alloc, shape, past, &accepted, gift, slot)? else {
        return Ok(None);
    };
    let Some(other) = accepted.get(held.number as usize) else {
        return Ok(None);
    };
    match place_of_give(past, queue, held.number) {
        Some(at) => Ok(Some(Reason::Held {
            queue,
            flow: event.flow,
            other: held.number,
            other_flow: other.flow,
            lane: held.lane,
            at,
        })),
        None => Ok(None),
    }
}
