//! What shows that an Accept comes out of order.

ghost use Rattle.std.specs.Prelude.{◌≡◌, ◌<◌, ◌++◌, not, ◌&&◌, ◌==◌, nat_lt, IfOk, OnOk, All, filter_map, length, option_map, slice_get, slice_index};
ghost use Rattle.std.specs.BTreeSet.{contains};
ghost use Rattle.std.specs.List.{find};
ghost use Rattle.std.specs.Ordering.{nat_cmp};
ghost use Rattle.lists.specs.Lists as lists;
ghost use Rattle.transcript_judge.specs.Fronts.{IsFront};
ghost use Rattle.transcripts.specs.Lawful.{keeps_some};
ghost use Rattle.transcripts.specs.Transcript.{accepted, hand, unanswered};
ghost use Rattle.judge_app.specs.Forwards as sends;
ghost use Rattle.judge_app.specs.Orders as orders;
ghost use Rattle.judge_app.specs.declared.reason.Reason.TheVariants.{Order};

use crate::forwards::sent_of;
use crate::gifts::{keeps_order, kind_of};
use crate::reason::{Disorder, Reason};
use crate::scans::{accepted_by, hand_of, place_of_give, place_of_take, sources_of, unanswered_of};
use crate::sets::{has, set_of, tally_of};
use evt_types::{Event, Shape, Step};
use std::alloc::{AllocError, Global};
use std::collections::BTreeSet;

/// The numbers as far as this one.
fn upto(alloc: Global, numbers: &[u64], number: u64) -> Result<Vec<u64>, AllocError>
    ensures { IfOk result (λ front. front.items ≡ lists.upto number numbers.now) }
{
    let mut front = Vec::new(alloc);
    for other in numbers {
        front.push(*other)?;
        if *other == number {
            return Ok(front);
        }
    }
    Ok(front)
}

/// The number of a pair of the queue.
fn number_of(queue: usize, pair: (usize, u64)) -> Option<u64>
    ensures { result ≡ sends.number_of queue pair }
{
    let (of, number) = pair;
    if of == queue { Some(number) } else { None }
}

/// The numbers of the queue that the lane hasn't answered.
fn held_on(alloc: Global, past: &[Step], queue: usize, lane: usize) -> Result<Vec<u64>, AllocError>
    ensures { IfOk result (λ numbers. numbers.items ≡ filter_map (sends.number_of queue) (unanswered past.now lane)) }
{
    let held = unanswered_of(alloc, past, lane)?;
    held.iter()
        .filter_map(|pair| number_of(queue, *pair))
        .collect(alloc)
}

/// The numbers of the queue that no lane has answered, by lane.
fn held_of(
    alloc: Global,
    shape: &Shape,
    past: &[Step],
    queue: usize,
) -> Result<Vec<u64>, AllocError>
    ensures { IfOk result (λ numbers. numbers.items ≡ orders.held_of shape.now past.now queue) }
{
    let mut numbers = Vec::new(alloc);
    for lane in 0..shape.lanes() {
        numbers.extend_from_slice(&held_on(alloc, past, queue, lane)?)?;
    }
    Ok(numbers)
}

/// The first of the numbers that isn't in the set.
fn first_outside(numbers: &[u64], set: &BTreeSet<u64>) -> Option<u64>
    ensures { result ≡ find (λ n. not (contains nat_cmp set.now n)) numbers.now }
{
    for number in numbers {
        if !has(set, *number) {
            return Some(*number);
        }
    }
    None
}

/// The first of the numbers that is in the set.
fn first_inside(numbers: &[u64], set: &BTreeSet<u64>) -> Option<u64>
    ensures { result ≡ find (λ n. contains nat_cmp set.now n) numbers.now }
{
    for number in numbers {
        if has(set, *number) {
            return Some(*number);
        }
    }
    None
}

/// The first of the numbers but this one that comes more often in the one tally than in the other.
fn first_kept(numbers: &[u64], sent: &[usize], taken: &[usize], number: u64) -> Option<u64>
    requires sent { All (λ n. n < length sent.now) numbers.now }
    requires taken { All (λ n. n < length taken.now) numbers.now }
    ensures { result ≡ find (λ m. not (m == number) && nat_lt (slice_index taken.now m) (slice_index sent.now m)) numbers.now }
{
    for other in numbers {
        if *other != number && taken[*other as usize] < sent[*other as usize] {
            return Some(*other);
        }
    }
    None
}

/// What the other event shows, at its place, where it has one.
fn disorder(
    disorder: Disorder,
    queue: usize,
    number: u64,
    other: u64,
    place: Option<usize>,
) -> Option<Reason>
    ensures { result ≡ option_map (Order disorder queue number other) place }
{
    let at = place?;
    Some(Reason::Order {
        disorder,
        queue,
        number,
        other,
        at,
    })
}

/// An event from which one was accepted, though it wasn't given as early as this one.
fn later(
    alloc: Global,
    past: &[Step],
    front: &[u64],
    queue: usize,
    number: u64,
) -> Result<Option<Reason>, AllocError>
    ensures { IfOk result (λ reason. reason ≡ orders.later past.now front.now queue number) }
{
    let sources = sources_of(alloc, past, queue)?;
    let Some(other) = first_outside(&sources, &set_of(alloc, front)?) else {
        return Ok(None);
    };
    let place = place_of_take(past, queue, other);
    Ok(disorder(Disorder::Later, queue, number, other, place))
}

/// An event that was given as early as this one, and isn't answered.
fn unanswered(
    alloc: Global,
    shape: &Shape,
    past: &[Step],
    front: &[u64],
    queue: usize,
    number: u64,
) -> Result<Option<Reason>, AllocError>
    ensures { IfOk result (λ reason. reason ≡ orders.unanswered_in shape.now past.now front.now queue number) }
{
    let held = held_of(alloc, shape, past, queue)?;
    let Some(other) = first_inside(front, &set_of(alloc, &held)?) else {
        return Ok(None);
    };
    let place = place_of_give(past, queue, other);
    Ok(disorder(Disorder::Unanswered, queue, number, other, place))
}

/// The first of the numbers but this one from which fewer events were accepted than it was passed on as.
fn first_due(
    alloc: Global,
    shape: &Shape,
    past: &[Step],
    front: &[u64],
    queue: usize,
    number: u64,
) -> Result<Option<u64>, AllocError>
    requires { All (λ n. n < length (accepted past.now queue)) front.now }
    ensures { IfOk result (λ found. found ≡ find (orders.is_kept shape.now past.now queue number) front.now) }
{
    let count = accepted_by(alloc, past, queue)?.len();
    let sent = tally_of(alloc, count, &sent_of(alloc, shape, past, queue)?)?;
    let taken = tally_of(alloc, count, &sources_of(alloc, past, queue)?)?;
    Ok(first_kept(front, &sent, &taken, number))
}

/// An event that was given before this one, of which not all that it was passed on as is accepted.
fn kept(
    alloc: Global,
    shape: &Shape,
    past: &[Step],
    front: &[u64],
    queue: usize,
    number: u64,
) -> Result<Option<Reason>, AllocError>
    requires { All (λ n. n < length (accepted past.now queue)) front.now }
    ensures { IfOk result (λ reason. reason ≡ orders.kept_in shape.now past.now front.now queue number) }
{
    let Some(other) = first_due(alloc, shape, past, front, queue, number)? else {
        return Ok(None);
    };
    let place = place_of_give(past, queue, other);
    Ok(disorder(Disorder::Kept, queue, number, other, place))
}

/// What an Accept from a number of an ordered queue comes before, or behind.
fn out_of_hand(
    alloc: Global,
    shape: &Shape,
    past: &[Step],
    queue: usize,
    number: u64,
) -> Result<Option<Reason>, AllocError>
    requires { IsFront shape.now past.now }
    ensures { IfOk result (λ reason. reason ≡ orders.out_of_hand shape.now past.now (lists.upto number (hand past.now queue)) queue number) }
{
    let front = upto(alloc, &hand_of(alloc, past, queue)?, number)?;
    if let Some(reason) = later(alloc, past, &front, queue, number)? {
        return Ok(Some(reason));
    }
    if let Some(reason) = unanswered(alloc, shape, past, &front, queue, number)? {
        return Ok(Some(reason));
    }
    kept(alloc, shape, past, &front, queue, number)
}

/// Whether the two events are there, and keep their order.
fn keep_some(shape: &Shape, queue: usize, first: Option<Event>, second: Option<Event>) -> bool
    ensures { result ≡ keeps_some shape.now queue first second }
{
    match first {
        Some(first) => match second {
            Some(second) => keeps_order(shape, queue, &first, &second),
            None => false,
        },
        None => false,
    }
}

/// Whether the other number is higher, and keeps its order with this one.
fn is_above(shape: &Shape, queue: usize, accepted: &[Event], number: u64, other: u64) -> bool
    ensures { result ≡ (nat_lt number other && keeps_some shape.now queue (slice_get accepted.now other) (slice_get accepted.now number)) }
{
    if other <= number {
        return false;
    }
    let first = accepted.get(other as usize).copied();
    keep_some(shape, queue, first, accepted.get(number as usize).copied())
}

/// The first of the numbers above this one that keeps its order with it.
fn first_above(
    shape: &Shape,
    queue: usize,
    accepted: &[Event],
    sources: &[u64],
    number: u64,
) -> Option<u64>
    ensures { result ≡ find (λ m. nat_lt number m && keeps_some shape.now queue (slice_get accepted.now m) (slice_get accepted.now number)) sources.now }
{
    for other in sources {
        if is_above(shape, queue, accepted, number, *other) {
            return Some(*other);
        }
    }
    None
}

/// A higher number of the same flow and level from which an event was accepted.
fn behind(
    alloc: Global,
    shape: &Shape,
    past: &[Step],
    queue: usize,
    number: u64,
) -> Result<Option<Reason>, AllocError>
    ensures { IfOk result (λ reason. reason ≡ orders.behind shape.now past.now queue number) }
{
    let accepted = accepted_by(alloc, past, queue)?;
    let sources = sources_of(alloc, past, queue)?;
    let Some(other) = first_above(shape, queue, &accepted, &sources, number) else {
        return Ok(None);
    };
    let place = place_of_take(past, queue, other);
    Ok(disorder(Disorder::Behind, queue, number, other, place))
}

/// What an Accept from this number of the queue comes before, or behind.
pub(crate) fn out_of_order(
    alloc: Global,
    shape: &Shape,
    past: &[Step],
    queue: usize,
    number: u64,
) -> Result<Option<Reason>, AllocError>
    requires { IsFront shape.now past.now }
    ensures { IfOk result (λ reason. reason ≡ orders.out_of_order shape.now past.now queue number) }
{
    if kind_of(shape, queue).is_ordered() {
        out_of_hand(alloc, shape, past, queue, number)
    } else {
        behind(alloc, shape, past, queue, number)
    }
}
