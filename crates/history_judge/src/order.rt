//! Finds events that a port enqueued in one order and that were dequeued in the other, or what they were forwarded as.

ghost use Rattle.std.specs.Option.{is_some};
ghost use Rattle.std.specs.Prelude.{true, ◌≡◌, ◌+◌, ◌<◌, ◌≤◌, IfNone, IfOk, IfSome, OnOk, Some, length, ℕ};
ghost use Rattle.history_judge.specs.Breaches.{IsOvertaken, IsReordered};
ghost use Rattle.history_judge.specs.Streams as specs;
ghost use Rattle.history_judge.specs.Streams.{AreFirsts, AreReady, EndedBefore, IsCrossed, IsNoted};

use crate::arrivals::{Course, Stream, Tables};
use crate::seen::Seen;
use evt_types::{Memory, Shape};
use std::alloc::Global;
use std::collections::BTreeMap;

/// For each stream the first entry that got one of its events.
type Firsts = BTreeMap<Stream, usize>;

fn first_in(firsts: &Firsts, stream: &Stream) -> Option<usize>
    ensures { result ≡ specs.first_in firsts.now stream.now }
{
    firsts.get(stream).copied()
}

/// The earlier one.
fn earlier(first: Option<usize>, getter: usize) -> usize
    ensures { result ≡ specs.earlier first getter }
{
    match first {
        Some(first) => first.min(getter),
        None => getter,
    }
}

/// The entry got an event of the stream.
fn note_first(firsts: &mut Firsts, stream: Stream, getter: usize) -> Result<(), Memory>
    ensures { OnOk result (IsNoted firsts.old firsts.new stream getter) }
{
    let first = earlier(first_in(firsts, &stream), getter);
    firsts.insert(stream, first)?;
    Ok(())
}

/// An entry before the getter that got an event of the stream.
fn place_before(firsts: &Firsts, stream: &Stream, getter: usize) -> Option<usize>
    ensures some { IfSome result (λ i. (specs.first_in firsts.now stream.now ≡ Some i) × (i < getter)) }
    ensures none { IfNone result ((i : ℕ) → specs.first_in firsts.now stream.now ≡ Some i → getter ≤ i) }
{
    match first_in(firsts, stream) {
        Some(first) if first < getter => Some(first),
        _ => None,
    }
}

/// An entry that got an event of the stream by a call that ended before the reader's began. What several ports get of a stream comes in
/// order where it is of a flow.
fn call_before(firsts: &Firsts, history: &[Seen], stream: &Stream, reader: &Seen) -> Option<usize>
    requires { (i : ℕ) → specs.first_in firsts.now stream.now ≡ Some i → i < length history.now }
    ensures flow { IfSome result (λ i. is_some stream.now.kept.flow ≡ true) }
    ensures some { IfSome result (λ i. (specs.first_in firsts.now stream.now ≡ Some i) × EndedBefore history.now i reader.now) }
    ensures none { IfNone result (is_some stream.now.kept.flow ≡ true → (i : ℕ) → specs.first_in firsts.now stream.now ≡ Some i → ¬ EndedBefore history.now i reader.now) }
{
    stream.kept.flow?;
    let first = first_in(firsts, stream)?;
    if history[first].ended < reader.began {
        Some(first)
    } else {
        None
    }
}

/// Goes through the entry, those behind it being gone through: where what came of its NEW is crossed, the entry that got it, and the one
/// that got the other.
fn follow(
    firsts: &mut Firsts,
    shape: &Shape,
    history: &[Seen],
    at: usize,
    tables: &Tables,
    course: Course,
) -> Result<Option<(usize, usize)>, Memory>
    requires place { at < length history.now }
    requires ready { AreReady shape.now history.now tables.now }
    requires so_far { AreFirsts shape.now history.now course (at + 1) firsts.old }
    ensures crossed { IfOk result (λ found. IfSome found (λ x. IsCrossed shape.now history.now course x.0 x.1)) }
    ensures kept { IfOk result (λ found. IfNone found (AreFirsts shape.now history.now course at firsts.new)) }
{
    let Some(arrival) = tables.comes(shape, history, course, at) else {
        return Ok(None);
    };
    let _count = history.len();
    let getter = arrival.getter;
    let reader = &history[getter];
    let any = arrival.stream;
    let own = any.of_port(reader.port);
    if let Some(other) = place_before(firsts, &own, getter) {
        return Ok(Some((getter, other)));
    }
    if let Some(other) = call_before(firsts, history, &any, reader) {
        return Ok(Some((getter, other)));
    }
    note_first(firsts, any, getter)?;
    note_first(firsts, own, getter)?;
    Ok(None)
}

/// An entry that got what came of a NEW that is crossed, and the entry that got the other; it looks from the last event that was enqueued
/// on.
fn first_crossed(
    alloc: Global,
    shape: &Shape,
    history: &[Seen],
    tables: &Tables,
    course: Course,
) -> Result<Option<(usize, usize)>, Memory>
    requires { AreReady shape.now history.now tables.now }
    ensures some { IfOk result (λ found. IfSome found (λ x. IsCrossed shape.now history.now course x.0 x.1)) }
    ensures none { IfOk result (λ found. IfNone found ((i j : ℕ) → ¬ IsCrossed shape.now history.now course i j)) }
{
    let mut firsts = BTreeMap::new(alloc);
    for gone in 0..history.len() {
        let at = history.len() - 1 - gone;
        let found = follow(&mut firsts, shape, history, at, tables, course)?;
        if found.is_some() {
            return Ok(found);
        }
    }
    Ok(None)
}

/// An entry that got an event that was overtaken, and the entry that got the other.
pub(crate) fn first_overtaken(
    alloc: Global,
    shape: &Shape,
    history: &[Seen],
    tables: &Tables,
) -> Result<Option<(usize, usize)>, Memory>
    requires { AreReady shape.now history.now tables.now }
    ensures some { IfOk result (λ found. IfSome found (λ x. IsOvertaken shape.now history.now x.0 x.1)) }
    ensures none { IfOk result (λ found. IfNone found ((i j : ℕ) → ¬ IsOvertaken shape.now history.now i j)) }
{
    first_crossed(alloc, shape, history, tables, Course::Itself)
}

/// An entry that got what was forwarded in the other order, and the entry that got the other.
pub(crate) fn first_reordered(
    alloc: Global,
    shape: &Shape,
    history: &[Seen],
    tables: &Tables,
) -> Result<Option<(usize, usize)>, Memory>
    requires { AreReady shape.now history.now tables.now }
    ensures some { IfOk result (λ found. IfSome found (λ x. IsReordered shape.now history.now x.0 x.1)) }
    ensures none { IfOk result (λ found. IfNone found ((i j : ℕ) → ¬ IsReordered shape.now history.now i j)) }
{
    first_crossed(alloc, shape, history, tables, Course::Forwarded)
}
