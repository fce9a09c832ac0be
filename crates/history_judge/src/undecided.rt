//! What a history leaves open: of these events it doesn't say whether they were dequeued, or in which order.

ghost use Rattle.std.specs.Prelude.{◌≡◌, ◌+◌, ◌-◌, ◌<◌, ◌^◌, IfOk, OnOk, length, ℕ};
ghost use Rattle.evt_types.specs.declared.event.Event.{Event as EventValue};
ghost use Rattle.history_judge.specs.Left.{left_for};
ghost use Rattle.history_judge.specs.Undecided as specs;
ghost use Rattle.history_judge.specs.Undecided.{AreGot, IsOneGot};
ghost use Rattle.history_judge.specs.Values.{IsExcess};

use crate::seen::{Deed, Seen};
use crate::values::{Left, all_sent, count_left, note_sent, set_left};
use evt_types::{Event, Memory, Op};
use std::alloc::Global;
use std::collections::BTreeMap;

/// What a history leaves open.
#[derive(Clone, Copy, Debug, PartialEq, Eq)]
pub struct Undecided {
    /// Events that were enqueued and that no entry dequeued: they are inside, or lost.
    pub undelivered: usize,
    /// Events that were enqueued with the value of another: which of them was dequeued isn't known, and their order isn't looked at.
    pub alike: usize,
}

/// Counts what the entry got.
fn note_got(got: &mut Left, seen: &Seen) -> Result<(), Memory>
    requires { (e : EventValue) → left_for got.old e < 2 ^ 64 - 1 }
    ensures { OnOk result (IsOneGot got.old got.new seen.now) }
{
    let Deed::Got(event) = &seen.deed else {
        return Ok(());
    };
    let count = count_left(got, event);
    set_left(got, event, count + 1)
}

/// How many events of each value were got.
fn all_got(alloc: Global, history: &[Seen]) -> Result<Left, Memory>
    ensures { IfOk result (λ got. AreGot history.now (length history.now) got) }
{
    let mut got = BTreeMap::new(alloc);
    for seen in history {
        note_got(&mut got, seen)?;
    }
    Ok(got)
}

/// The event that the entry sent, if it sent one.
fn sent_event(seen: &Seen) -> Option<Event>
    ensures { result ≡ specs.sent_event seen.now.deed }
{
    let Deed::Sent(reply) = &seen.deed else {
        return None;
    };
    if reply.event.op() == Op::Release {
        return None;
    }
    Some(reply.event.unpack())
}

/// Whether the entry sent an event of a value that was sent more than once.
fn is_alike(sent: &Left, seen: &Seen) -> bool
    ensures { result ≡ specs.sends_such (specs.counts_alike sent.now) seen.now.deed }
{
    match sent_event(seen) {
        Some(event) => count_left(sent, &event) > 1,
        None => false,
    }
}

/// How many events have the value of another.
fn count_alike(alloc: Global, history: &[Seen]) -> Result<usize, Memory>
    ensures { IfOk result (λ count. count ≡ specs.alike history.now) }
{
    let sent = all_sent(alloc, history)?;
    let mut alike = 0;
    for seen in history {
        alike += usize::from(is_alike(&sent, seen));
    }
    Ok(alike)
}

/// Whether the entry sent an event, and as many of its value as were got were sent before it.
fn is_left_over(got: &Left, before: &Left, seen: &Seen) -> bool
    ensures { result ≡ specs.sends_such (specs.counts_over got.now before.now) seen.now.deed }
{
    match sent_event(seen) {
        Some(event) => count_left(got, &event) <= count_left(before, &event),
        None => false,
    }
}

/// How many events were sent and not got.
fn count_undelivered(alloc: Global, history: &[Seen]) -> Result<usize, Memory>
    ensures { IfOk result (λ count. count ≡ specs.undelivered history.now) }
{
    let got = all_got(alloc, history)?;
    let mut before = BTreeMap::new(alloc);
    let mut undelivered = 0;
    for seen in history {
        undelivered += usize::from(is_left_over(&got, &before, seen));
        note_sent(&mut before, seen)?;
    }
    Ok(undelivered)
}

/// Counts the events of which the history doesn't say whether they were dequeued, or in which order.
#[tactic(auto, using(crate::proofs::Rest::rest_is_left))]
pub fn count_undecided(alloc: Global, history: &[Seen]) -> Result<Undecided, Memory>
    ensures undelivered { IfOk result (λ counts. counts.undelivered ≡ specs.undelivered history.now) }
    ensures alike { IfOk result (λ counts. counts.alike ≡ specs.alike history.now) }
    ensures rest { IfOk result (λ counts. ((i : ℕ) → ¬ IsExcess history.now i) → counts.undelivered + specs.events_got history.now ≡ specs.events_sent history.now) }
{
    Ok(Undecided {
        undelivered: count_undelivered(alloc, history)?,
        alike: count_alike(alloc, history)?,
    })
}
