//! What waits in a queue.

ghost use Rattle.std.specs.Prelude.{◌≡◌, ◌<◌, ◌++◌, ◌∷◌, ◌+◌, [], ◌^◌, ◌==◌, not, true, false, All, IfOk, OnErr, OnOk, filter, length, map, slice_index, slice_set};
ghost use Rattle.evt_types.specs.declared.draft.QueueDraft.{QueueDraft as QueueDraftValue};
ghost use Rattle.evt_types.specs.declared.event.Numbered.{Numbered as NumberedValue};
ghost use Rattle.transcripts.specs.Standing.{event_in, kept_under};
ghost use Rattle.transcript_judge.specs.Ledger.{row};
ghost use Rattle.transcript_judge.specs.Waiting.{KeepsApart, events_in, kinds_in, listed, nexts_in, no_waits, with_event, without};

use crate::by_number::{event_at, put_last, take_at};
use crate::keys::{add_key, class_of, drop_key, has_lower, key_of};
use evt_types::{Event, Kind, Memory, PackedEvent, QueueDraft};
use std::alloc::Global;
use std::collections::{BTreeMap, BTreeSet};
use std::marker::Model;

/// The events that wait in a queue, by number, and the number of the next one. What keeps an order has a key beside these: so an
/// earlier event of a class is found whatever waits before it, and an event leaves from wherever it stands.
#[derive(Drop)]
pub(crate) struct Waiting {
    kind: Kind,
    next: u64,
    events: BTreeMap<u64, PackedEvent>,
    keys: BTreeSet<u128>,
}

impl Model for Waiting {
    ghost use Rattle.transcript_judge.specs.Waiting.{AreHeld, Waits, listed};

    ghost Value = { Waits };

    ghost view = { λ a. record { kind = a.kind; next = a.next; events = listed a.events } };

    ghost invariant = { λ a. AreHeld a.kind a.next a.events a.keys };
}

impl Waiting {
    /// Nothing waits.
    pub(crate) fn new(alloc: Global, kind: Kind) -> Waiting
        ensures { result ≡ no_waits kind }
    {
        Waiting {
            kind,
            next: 0,
            events: BTreeMap::new(alloc),
            keys: BTreeSet::new(alloc),
        }
    }

    /// The event waits, under the next number.
    pub(crate) fn accept(&mut self, event: &Event) -> Result<(), Memory>
        requires { self.old.next < 2 ^ 63 }
        ensures { OnOk result (self.new ≡ with_event self.old event.now) }
    {
        let number = self.next;
        let key = key_of(class_of(self.kind, event), number);
        add_key(&mut self.keys, key)?;
        if let Err(memory) = put_last(&mut self.events, number, event) {
            drop_key(&mut self.keys, key);
            return Err(memory);
        }
        self.next = number + 1;
        Ok(())
    }

    /// The event of the number, where it waits.
    pub(crate) fn find(&self, number: u64) -> Option<Event>
        ensures { result ≡ event_in self.now.events number }
    {
        event_at(&self.events, number)
    }

    /// The event of the number leaves, where it waits.
    pub(crate) fn take(&mut self, number: u64)
        ensures { self.new ≡ without self.old number }
    {
        if let Some(event) = take_at(&mut self.events, number) {
            let class = class_of(self.kind, &event);
            drop_key(&mut self.keys, key_of(class, number));
        }
    }

    /// Whether an event of a lower number has to be given before this one.
    pub(crate) fn is_overtaking(&self, number: u64, event: &Event) -> bool
        ensures none { result ≡ false → KeepsApart self.now number event.now }
        ensures some { result ≡ true → ¬ KeepsApart self.now number event.now }
    {
        match class_of(self.kind, event) {
            Some(class) => has_lower(&self.keys, class, number),
            None => false,
        }
    }
}

/// What waits in each queue: nothing.
pub(crate) fn none_waiting(alloc: Global, queues: &[QueueDraft]) -> Result<Vec<Waiting>, Memory>
    ensures { IfOk result (λ ws. ws.items ≡ map (λ (d : QueueDraftValue). no_waits d.kind) queues.now) }
{
    let mut waiting = Vec::with_capacity(alloc, queues.len())?;
    for draft in queues {
        waiting.push(Waiting::new(alloc, draft.kind))?;
    }
    Ok(waiting)
}

/// The event waits in the queue, under its next number.
pub(crate) fn accept_in(
    waiting: &mut Vec<Waiting>,
    queue: usize,
    event: &Event,
) -> Result<(), Memory>
    requires queue { queue < length waiting.old.items }
    requires few { slice_index (nexts_in waiting.old.items) queue < 2 ^ 63 }
    ensures events { OnOk result (events_in waiting.new.items ≡ slice_set (events_in waiting.old.items) queue (row (events_in waiting.old.items) queue ++ record { number = slice_index (nexts_in waiting.old.items) queue; event = event.now } ∷ [])) }
    ensures next { OnOk result (nexts_in waiting.new.items ≡ slice_set (nexts_in waiting.old.items) queue (slice_index (nexts_in waiting.old.items) queue + 1)) }
    ensures kinds { OnOk result (kinds_in waiting.new.items ≡ kinds_in waiting.old.items) }
{
    waiting[queue].accept(event)?;
    Ok(())
}

/// The event of the number leaves the queue, where it waits there.
pub(crate) fn take_from(waiting: &mut Vec<Waiting>, queue: usize, number: u64)
    requires { queue < length waiting.old.items }
    ensures events { events_in waiting.new.items ≡ slice_set (events_in waiting.old.items) queue (filter (λ (w : NumberedValue). not (w.number == number)) (row (events_in waiting.old.items) queue)) }
    ensures next { nexts_in waiting.new.items ≡ nexts_in waiting.old.items }
    ensures kinds { kinds_in waiting.new.items ≡ kinds_in waiting.old.items }
{
    waiting[queue].take(number);
}
